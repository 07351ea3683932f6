// The count of a round loop: the step from one position of the encoder to the next, and the count after it, across the encoder's end too.
// Uses `integers` for the remainder; knows plain numbers, no slots.
#![tactic(auto)]

ghost use Rattle.std.specs.Prelude.{◌≡◌, ◌≤◌, ◌^◌};
ghost use Rattle.roundloop.specs.Count.{step_from, first_count, counted_of};

// The step from the last position to p on an encoder of m positions: the change modulo m, from -m/2 to below m/2.
fn step(m: u64, last: u32, p: u32) -> i64
    requires { m ≤ 4294967296 }
    ensures { result ≡ step_from m last p }
{
    let half = (m / 2) as i64;
    let change = p as i64 - last as i64;
    integers::floor_rem(change + half, m as i64) - half
}

// The count that a position starts: the position modulo r.
pub fn first(r: u32, p: u32) -> u32
    requires { 1 ≤ r }
    ensures { result ≡ first_count r p }
{
    p % r
}

// The count after the step from the position that it was last counted from to p, kept modulo r. The encoder has 2 ^ width positions.
pub fn counted(width: u32, r: u32, count: u32, last: u32, p: u32) -> u32
    requires { width ≤ 32 }
    ensures { result ≡ counted_of r count (step_from (2 ^ width) last p) }
{
    let m: u64 = 1 << width;
    let s = step(m, last, p);
    let n = integers::floor_rem(count as i64 + s, r as i64);
    n as u32
}
