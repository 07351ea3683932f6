// The levels of the outputs, each from the preselections aimed at it. True is high. Uses the settings and switches of this crate.
ghost use Rattle.std.specs.Prelude.{◌≡◌};
ghost use Rattle.switching.specs.MarkSteps.{mark_of, share_of};
ghost use Rattle.switching.specs.Outputs.{level_of, outputs_of};

use crate::{Preselection, Switch};

// The mark of a preselection: 1 where it is active, and 2 more where it is active low.
fn mark(p: Preselection, s: Switch) -> u32
    ensures { result ≡ mark_of p s }
{
    crate::active(p, s) as u32 + 2 * ((p.polarity == 1) as u32)
}

// What a preselection gives to output n: its mark where it is aimed at it, else 0.
fn share(n: u32, p: Preselection, s: Switch) -> u32
    ensures { result ≡ share_of n p s }
{
    let m = mark(p, s);
    if p.target == n {
        return m;
    }
    0
}

// The level of output n: high where some preselection aimed at it is active and none is active low, or the other way round.
fn level(n: u32, ps: [Preselection; 4], ss: [Switch; 4]) -> bool
    ensures { result ≡ level_of n ps ss }
{
    let shares = share(n, ps[0], ss[0])
        | share(n, ps[1], ss[1])
        | share(n, ps[2], ss[2])
        | share(n, ps[3], ss[3]);
    (shares == 1) | (shares == 2)
}

// The levels of outputs 1 to 4.
pub fn outputs(ps: [Preselection; 4], ss: [Switch; 4]) -> [bool; 4]
    ensures { result ≡ outputs_of ps ss }
{
    let first = level(1, ps, ss);
    let second = level(2, ps, ss);
    let third = level(3, ps, ss);
    let fourth = level(4, ps, ss);
    [first, second, third, fourth]
}
