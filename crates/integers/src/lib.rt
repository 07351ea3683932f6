// Whole numbers: the one rounding division and the one remainder of the engine, and the laws of signed numbers that all proofs use.
// Uses no other crate.
#![tactic(auto)]

pub mod twos_complement; // twos_complement.rt: signed words of 32 bits and their bits

ghost use Rattle.std.specs.Prelude.{◌≡◌};
ghost use Rattle.integers.specs.Round.{rounding, floor_mod};

// Z, the largest number that the panel shows and stores.
pub const Z: i64 = 99_999_999;

// A fraction rounded.
#[derive(Clone, Copy)]
pub struct Rounded {
    // The nearest whole number, halves away from zero.
    pub value: i64,
    // Whether a half decided: the fraction lies exactly between two whole numbers.
    pub half: bool,
}

// n / d rounded, and whether a half decided; 0 and no where d is not above 0.
pub fn round_div(n: i64, d: i64) -> Rounded
    ensures { result ≡ rounding n d }
{
    if d <= 0 {
        return Rounded {
            value: 0,
            half: false,
        };
    }
    let q = n / d;
    let r = n % d;
    if r >= 0 {
        let left = d - r;
        let half = r == left;
        if r >= left {
            let value = q + 1;
            return Rounded { value, half };
        }
        return Rounded { value: q, half };
    }
    let left = d + r;
    let over = 0 - r;
    let half = left == over;
    if left <= over {
        let value = q - 1;
        return Rounded { value, half };
    }
    Rounded { value: q, half }
}

// d modulo r by division.
fn divided(d: i64, r: i64) -> i64
    ensures { result ≡ floor_mod d r }
{
    if r <= 0 {
        return 0;
    }
    d.rem_euclid(r)
}

// d modulo r, from 0 to r - 1; 0 where r is not above 0. A number that is in that range already is not divided.
// Kept: the test beside `rem_euclid`, since without it a step with a round loop took 111.7 ns in place of 95.2 (docs/PERFORMANCE.md, `integers::floor_rem`).
pub fn floor_rem(d: i64, r: i64) -> i64
    ensures { result ≡ floor_mod d r }
{
    if 0 <= d {
        if d < r {
            return d;
        }
    }
    divided(d, r)
}
