// The condition of a preselection by its mode. The sums are made in 64 bits, so that none of them wraps. Uses nothing.
ghost use Rattle.std.specs.Prelude.{◌≡◌};
ghost use Rattle.integers.specs.Int.{Within};
ghost use Rattle.switching.specs.Condition.{magnitude_of, compared, against, latched_of, on_above, on_below, on_near, condition_of, exceeds};

// A number without its sign.
fn magnitude(x: i64) -> i64
    requires { Within 8589934592 x }
    ensures { result ≡ magnitude_of x }
{
    x.abs()
}

// A word without its sign.
fn without_sign(x: i32) -> i64
    ensures { result ≡ magnitude_of x }
{
    magnitude(x as i64)
}

// What a mode compares of the result.
fn compared_of(mode: u32, r: i32) -> i64
    ensures { result ≡ compared mode r }
{
    if mode < 3 {
        return without_sign(r);
    }
    r as i64
}

// What a mode compares with.
fn against_of(mode: u32, own: i32, partner: i32) -> i64
    ensures { result ≡ against mode own partner }
{
    if mode >= 6 {
        return partner as i64 - own as i64;
    }
    if mode >= 3 {
        return own as i64;
    }
    without_sign(own)
}

// On where on holds, off where off holds, else kept.
fn latched(on: bool, off: bool, was: bool) -> bool
    ensures { result ≡ latched_of on off was }
{
    on || (!off && was)
}

// Mode 3: on at r ≥ p, off at r < p − h, else kept.
fn on_above(r: i64, p: i64, h: u32, was: bool) -> bool
    requires { Within 4294967296 p }
    ensures { result ≡ on_above r p h was }
{
    latched(p <= r, r < p - h as i64, was)
}

// Mode 4: on at r ≤ p, off at r > p + h, else kept.
fn on_below(r: i64, p: i64, h: u32, was: bool) -> bool
    requires { Within 4294967296 p }
    ensures { result ≡ on_below r p h was }
{
    latched(r <= p, p + (h as i64) < r, was)
}

// Mode 5: on exactly when 2 × |r − p| ≤ h.
fn on_near(r: i64, p: i64, h: u32) -> bool
    requires { (Within 4294967296 r) × (Within 4294967296 p) }
    ensures { result ≡ on_near r p h }
{
    let d = magnitude(r - p);
    2 * d <= h as i64
}

// Kept: the mode is a number, since the contract holds of any one; 6 and above are one mode.
// The condition after an event: from the mode, the result, the own and the partner's preselection, the hysteresis, and the condition before.
pub fn condition(mode: u32, r: i32, own: i32, partner: i32, h: u32, was: bool) -> bool
    ensures { result ≡ condition_of mode r own partner h was }
{
    let x = compared_of(mode, r);
    let p = against_of(mode, own, partner);
    match mode {
        1 | 4 => on_below(x, p, h, was),
        2 | 5 => on_near(x, p, h),
        _ => on_above(x, p, h, was),
    }
}

// Whether the result exceeds the preselection, as the mode compares them.
pub fn exceeding(mode: u32, r: i32, own: i32) -> bool
    ensures { result ≡ exceeds mode r own }
{
    compared_of(mode, own) < compared_of(mode, r)
}
