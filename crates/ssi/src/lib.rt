// An SSI telegram: its position, its error bit and its diagnosis, and the telegram of a position. Bit 1 is the lowest.
// It uses no other crate.
#![tactic(auto)]

pub mod doubling; // doubling.rt: the position in fewer steps, for bursts

ghost use Rattle.std.specs.Prelude.{◌≡◌, ◌&&◌, ◌-◌, ◌^◌, ◌≤◌, ◌<◌, eqb};
ghost use Rattle.ssi.specs.Sound.{Sound, error_bit};
ghost use Rattle.ssi.specs.Telegram.{refusal_number, accepted, level_of, error_reported, without_bit, gray_decoded, decoded, width_of, modulus, position_of, content_of, diagnosis_of};
ghost use Rattle.ssi.specs.Builder.{coded, level_asked, telegram_of, refused, built_of};

// How a telegram is laid out, as the table has it.
#[derive(Clone, Copy)]
pub struct Layout {
    // N, the number of bits of a telegram.
    pub resolution: u32,
    // 0 Gray, 1 binary.
    pub format: u32,
    // H, the highest bit of the position.
    pub high: u32,
    // B, the lowest bit of the position.
    pub low: u32,
    // The error bit, 0 for none.
    pub error_bit: u32,
    // The level of the error bit that means error.
    pub error_level: u32,
}

// Why a telegram is not read, or none is built.
#[derive(Clone, Copy)]
pub enum Refusal {
    // The telegram has a bit above N.
    BitAbove,
    // The position is M or more.
    PositionAbove,
    // An error is asked for where no error bit is set up.
    NoErrorBit,
}

impl Refusal {
    // The number of a refusal.
    pub fn number(self) -> u32
        ensures { result ≡ refusal_number self }
    {
        match self {
            Refusal::BitAbove => 11,
            Refusal::PositionAbove => 17,
            Refusal::NoErrorBit => 18,
        }
    }
}

// What a telegram says.
#[derive(Clone, Copy)]
pub struct Content {
    // None, or 11 for a telegram with a bit above N.
    pub refusal: Option<Refusal>,
    // The position p, 0 with a refusal.
    pub position: u32,
    // Whether the error bit stands at its error level.
    pub error: bool,
}

// A position split by the bits per turn.
#[derive(Clone, Copy)]
pub struct Diagnosis {
    // None, or 11 for a telegram with a bit above N.
    pub refusal: Option<Refusal>,
    // The whole turns, 0 with a refusal.
    pub turns: u32,
    // The place within the turn, 0 with a refusal.
    pub place: u32,
}

// What the builder answers.
#[derive(Clone, Copy)]
pub struct Built {
    // None; 17 for a position of M or more; 18 for an error asked for where no error bit is set up.
    pub refusal: Option<Refusal>,
    // The telegram, 0 with a refusal.
    pub telegram: u32,
}

// The `width` low bits set. No shift by 32 is made.
fn mask(width: u32) -> u32
    requires { (1 ≤ width) × (width ≤ 32) }
    ensures { result ≡ 2 ^ width - 1 }
{
    0xffff_ffff >> (32 - width)
}

// The width of the field, H - B + 1: M is 2 to its power.
pub fn width(l: Layout) -> u32
    requires { Sound l }
    ensures { result ≡ width_of l }
{
    l.high - l.low + 1
}

// The level of bit n, 0 where n is 0.
fn level(t: u32, n: u32) -> u32
    requires { n ≤ 32 }
    ensures { result ≡ level_of n t }
{
    if n == 0 {
        return 0;
    }
    (t >> (n - 1)) & 1
}

// t with bit n taken as 0.
fn without(t: u32, n: u32) -> u32
    requires { n ≤ 32 }
    ensures { result ≡ without_bit n t }
{
    if n == 0 {
        return t;
    }
    t & !(1 << (n - 1))
}

// A way to decode Gray.
trait Gray {
    // The position's n bits of a Gray telegram of n bits.
    fn bits(t: u32, n: u32) -> u32
        requires { (1 ≤ n) × (n ≤ 32) }
        ensures { result ≡ gray_decoded n n t };
}

// Gray by counts of ones.
struct Counting;

impl Gray for Counting {
    // From the top down: each bit is 1 when an odd number of ones stands at it and above.
    fn bits(t: u32, n: u32) -> u32 {
        let own = t & mask(n);
        let mut p: u32 = 0;
        for k in (0..n).rev() {
            p = 2 * p + (own >> k).count_ones() % 2;
        }
        p
    }
}

// The bits that hold the position, by format.
fn decode<G: Gray>(format: u32, n: u32, t: u32) -> u32
    requires { (1 ≤ n) × (n ≤ 32) }
    ensures { result ≡ decoded format n t }
{
    if format == 0 {
        return G::bits(t, n);
    }
    t
}

// Whether no bit above N is set.
pub fn accepts(l: Layout, t: u32) -> bool
    requires { Sound l }
    ensures { result ≡ accepted l t }
{
    t <= mask(l.resolution)
}

// Whether the error bit stands at its error level.
pub fn error_reported(l: Layout, t: u32) -> bool
    requires { Sound l }
    ensures { result ≡ error_reported l t }
{
    l.error_bit != 0 && level(t, l.error_bit) == l.error_level
}

// The position p by one way to decode Gray; bits above N do not count.
fn position_by<G: Gray>(l: Layout, t: u32) -> u32
    requires { Sound l }
    ensures { result ≡ position_of l t }
{
    let bits = decode::<G>(l.format, l.resolution, without(t, l.error_bit));
    (bits >> (l.low - 1)) & mask(width(l))
}

// The position p; bits above N do not count.
pub fn position(l: Layout, t: u32) -> u32
    requires { Sound l }
    ensures { result ≡ position_of l t }
{
    position_by::<Counting>(l, t)
}

// A telegram read: its position and its error, or 11.
pub fn content_of(l: Layout, t: u32) -> Content
    requires { Sound l }
    ensures { result ≡ content_of l t }
{
    if accepts(l, t) {
        return Content {
            refusal: None,
            position: position(l, t),
            error: error_reported(l, t),
        };
    }
    Content {
        refusal: Some(Refusal::BitAbove),
        position: 0,
        error: false,
    }
}

// The diagnosis of a telegram by itself: turns and place within the turn, or 11.
pub fn diagnose(l: Layout, bits_per_turn: u32, t: u32) -> Diagnosis
    requires { Sound l × (1 ≤ bits_per_turn) × (bits_per_turn < 32) }
    ensures { result ≡ diagnosis_of l bits_per_turn t }
{
    if accepts(l, t) {
        let p = position(l, t);
        return Diagnosis {
            refusal: None,
            turns: p >> bits_per_turn,
            place: p & mask(bits_per_turn),
        };
    }
    Diagnosis {
        refusal: Some(Refusal::BitAbove),
        turns: 0,
        place: 0,
    }
}

// The position as the telegram carries it, by format.
fn code(format: u32, p: u32) -> u32
    ensures { result ≡ coded format p }
{
    if format == 0 {
        return p ^ (p >> 1);
    }
    p
}

// The level at which the error bit is to stand.
fn level_asked(l: Layout, error: bool) -> u32
    requires { Sound l }
    ensures { result ≡ level_asked l error }
{
    if error {
        return l.error_level;
    }
    1 - l.error_level
}

// The telegram of a position below M.
fn telegram(l: Layout, position: u32, error: bool) -> u32
    requires { Sound l × (position < modulus l) }
    ensures { result ≡ telegram_of l position error }
{
    let field = code(l.format, position) << (l.low - 1);
    if l.error_bit == 0 {
        return field;
    }
    field | (level_asked(l, error) << (l.error_bit - 1))
}

// Whether an error is asked for where no error bit is set up.
fn lacks_error_bit(l: Layout, error: bool) -> bool
    ensures { result ≡ error && eqb (error_bit l) 0 }
{
    error && l.error_bit == 0
}

// A position that is not built.
fn refuse(refusal: Refusal) -> Built
    ensures { result ≡ refused refusal }
{
    Built {
        refusal: Some(refusal),
        telegram: 0,
    }
}

// The telegram of a position, with the error bit at its error level exactly when the error is asked for.
pub fn build(l: Layout, position: u32, error: bool) -> Built
    requires { Sound l }
    ensures { result ≡ built_of l position error }
{
    if mask(width(l)) < position {
        return refuse(Refusal::PositionAbove);
    }
    if lacks_error_bit(l, error) {
        return refuse(Refusal::NoErrorBit);
    }
    Built {
        refusal: None,
        telegram: telegram(l, position, error),
    }
}
