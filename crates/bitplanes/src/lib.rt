// Bit planes for the recorder: each full group of 32 words is turned, so that bit j of word i becomes bit i of word j.
// A group is turned by five rounds of masks and shifts; a remainder of fewer than 32 words is stored as it is.
// Uses the laws of `bits`.
#![tactic(auto)]

ghost use Rattle.std.specs.Prelude.{◌≡◌, ◌<◌, length};
ghost use Rattle.bitplanes.specs.Turned.{turned_group, too_short_number, turned_into};
ghost use Rattle.bitplanes.specs.RoundSteps.{Width, First, mask_of, lower_of, upper_of, crossing, exchanged};

// The words of a group, as many as a word has bits.
const GROUP: usize = 32;

// The output is shorter than the input.
#[derive(Clone, Copy)]
pub struct TooShort;

impl TooShort {
    // Its number.
    pub fn number(self) -> u8
        ensures { result ≡ too_short_number self }
    {
        22
    }
}

// The lower word of pair p: the numbers from 0 on whose bit w is 0.
fn first(p: usize, w: usize) -> usize
    requires p_bound { p < 16 }
    requires width { Width w }
    ensures { First w p result }
{
    2 * p - (p & (w - 1))
}

// Where the odd blocks of x and the even ones of y differ, bits at the even blocks.
fn crossed(x: u32, y: u32, w: usize, m: u32) -> u32
    requires width { Width w }
    requires m_value { m ≡ mask_of w }
    ensures { result ≡ crossing w x y }
{
    ((x >> w) ^ y) & m
}

// The lower word x of a pair, with its odd blocks from the even ones of y.
fn lower(x: u32, y: u32, w: usize, m: u32) -> u32
    requires width { Width w }
    requires m_value { m ≡ mask_of w }
    ensures { result ≡ lower_of w x y }
{
    x ^ (crossed(x, y, w, m) << w)
}

// The upper word y of a pair, with its even blocks from the odd ones of x.
fn upper(x: u32, y: u32, w: usize, m: u32) -> u32
    requires width { Width w }
    requires m_value { m ≡ mask_of w }
    ensures { result ≡ upper_of w x y }
{
    y ^ crossed(x, y, w, m)
}

// One round, of width w: in each pair of words w apart, the odd blocks of w bits of the lower word and the even ones of the upper word
// change places. m has the even blocks set.
fn exchange(g: &mut [u32], w: usize, m: u32)
    requires g_len { length g.old ≡ 32 }
    requires width { Width w }
    requires m_value { m ≡ mask_of w }
    ensures { g.new ≡ exchanged w g.old }
{
    for p in 0..16 {
        let k = first(p, w);
        let x = g[k];
        let y = g[k + w];
        g[k] = lower(x, y, w, m);
        g[k + w] = upper(x, y, w, m);
    }
}

// A group of 32 words turned in its place.
pub fn turn_group(g: &mut [u32])
    requires { length g.old ≡ 32 }
    ensures { g.new ≡ turned_group g.old }
{
    exchange(g, 16, 0x0000_ffff);
    exchange(g, 8, 0x00ff_00ff);
    exchange(g, 4, 0x0f0f_0f0f);
    exchange(g, 2, 0x3333_3333);
    exchange(g, 1, 0x5555_5555);
}

// The input turned, at the front of the output; what lies behind it stays. Where the output is shorter than the input, nothing is written.
pub fn turn(input: &[u32], output: &mut [u32]) -> Result<(), TooShort>
    ensures { (result, output.new) ≡ turned_into input.now output.old }
{
    let n = input.len();
    if output.len() < n {
        return Err(TooShort);
    }
    output[..n].copy_from_slice(input);
    for k in 0..n / GROUP {
        let at = k * GROUP;
        let end = at + GROUP;
        turn_group(&mut output[at..end]);
    }
    Ok(())
}
