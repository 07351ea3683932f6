// The position of a telegram as `ssi::position` gives it, Gray in five steps of exclusive or in place of a count of ones for each bit: for many telegrams one after the other.
// Uses the layout of this crate.
ghost use Rattle.std.specs.Prelude.{◌≡◌};
ghost use Rattle.ssi.specs.Sound.{Sound};
ghost use Rattle.ssi.specs.Telegram.{position_of};

use crate::{Gray, Layout};

// Gray by exclusive or with its shifts, of which each step has twice as many.
struct Doubling;

impl Gray for Doubling {
    fn bits(t: u32, n: u32) -> u32 {
        let own = t & crate::mask(n);
        let two = own ^ (own >> 1);
        let four = two ^ (two >> 2);
        let eight = four ^ (four >> 4);
        let sixteen = eight ^ (eight >> 8);
        sixteen ^ (sixteen >> 16)
    }
}

// The position p; bits above N do not count.
pub fn position(l: Layout, t: u32) -> u32
    requires { Sound l }
    ensures { result ≡ position_of l t }
{
    crate::position_by::<Doubling>(l, t)
}
