// Checks 3 to 9, which hold slots of a table against each other. Uses the slots of this crate.
ghost use Rattle.std.specs.Prelude.{◌≡◌, ◌<◌};
ghost use Rattle.integers.specs.Choice.{some};
ghost use Rattle.parameters.specs.Search.{first_of};
ghost use Rattle.parameters.specs.Refusals.{refusal_by};
ghost use Rattle.parameters.specs.Load.{field_wrong, error_bit_wrong, span_empty, not_above, points_not_rising, origin_missing, frozen_by_edge, freeze_on_edge, differ, differs_from, polarities_differ, conflicts};

use crate::{Refusal, natural, slots, word};

// 3: B > H or H > N.
fn field_wrong(t: &[i32; 104]) -> bool
    ensures { result ≡ field_wrong t.now }
{
    let high = natural(t, slots::HIGH_BIT);
    if high < natural(t, slots::LOW_BIT) {
        return true;
    }
    natural(t, slots::RESOLUTION) < high
}

// 4: the error bit is above N, or from B to H.
fn error_bit_wrong(t: &[i32; 104]) -> bool
    ensures { result ≡ error_bit_wrong t.now }
{
    let bit = natural(t, slots::ERROR_BIT);
    if natural(t, slots::RESOLUTION) < bit {
        return true;
    }
    if natural(t, slots::LOW_BIT) <= bit {
        return bit <= natural(t, slots::HIGH_BIT);
    }
    false
}

// 5: start equals end.
fn span_empty(t: &[i32; 104]) -> bool
    ensures { result ≡ span_empty t.now }
{
    word(t, slots::ANALOG_START) == word(t, slots::ANALOG_END)
}

// Whether the point after point j is used and its x is not above that of point j.
fn not_above(t: &[i32; 104], j: usize) -> bool
    requires { j < 23 }
    ensures { result ≡ not_above t.now j }
{
    let used = natural(t, slots::POINTS_IN_USE) as usize;
    if j + 1 < used {
        let next = word(t, slots::POINT_X + slots::POINT_STRIDE * (j + 1));
        return next <= word(t, slots::POINT_X + slots::POINT_STRIDE * j);
    }
    false
}

// Whether some used x is not above the one before it.
fn some_not_above(t: &[i32; 104]) -> bool
    ensures { result ≡ some 23 (not_above t.now) }
{
    (0..23).any(|j| not_above(t, j))
}

// 6: linearization is on, and the used x do not strictly rise.
fn points_not_rising(t: &[i32; 104]) -> bool
    ensures { result ≡ points_not_rising t.now }
{
    if natural(t, slots::LINEARIZATION) == 0 {
        return false;
    }
    some_not_above(t)
}

// 7: one quadrant, and point 1 is not (0, 0).
fn origin_missing(t: &[i32; 104]) -> bool
    ensures { result ≡ origin_missing t.now }
{
    if natural(t, slots::LINEARIZATION) != 1 {
        return false;
    }
    (word(t, slots::POINT_X) != 0) | (word(t, slots::POINT_Y) != 0)
}

// Whether input i + 1 is set to freeze on an edge.
fn frozen_by_edge(t: &[i32; 104], i: usize) -> bool
    requires { i < 3 }
    ensures { result ≡ frozen_by_edge t.now i }
{
    if natural(t, slots::ACTION + slots::INPUT_STRIDE * i) != 2 {
        return false;
    }
    let config = natural(t, slots::CONFIG + slots::INPUT_STRIDE * i);
    (config == 2) | (config == 3)
}

// 8: freeze with config 2 or 3.
fn freeze_on_edge(t: &[i32; 104]) -> bool
    ensures { result ≡ freeze_on_edge t.now }
{
    (0..3).any(|i| frozen_by_edge(t, i))
}

// Whether preselections j + 1 and k + 1 aim at one output and differ in polarity.
fn differs(t: &[i32; 104], j: usize, k: usize) -> bool
    requires { (j < 4) × (k < 4) }
    ensures { result ≡ differ t.now j k }
{
    let output = natural(t, slots::TARGET + slots::PRESELECTION_STRIDE * j);
    if output == 0 {
        return false;
    }
    if output != natural(t, slots::TARGET + slots::PRESELECTION_STRIDE * k) {
        return false;
    }
    natural(t, slots::POLARITY + slots::PRESELECTION_STRIDE * j)
        != natural(t, slots::POLARITY + slots::PRESELECTION_STRIDE * k)
}

// Whether some preselection differs from preselection j + 1.
fn differs_from(t: &[i32; 104], j: usize) -> bool
    requires { j < 4 }
    ensures { result ≡ differs_from t.now j }
{
    (0..4).any(|k| differs(t, j, k))
}

// 9: two preselections on one output, polarities differ.
fn polarities_differ(t: &[i32; 104]) -> bool
    ensures { result ≡ polarities_differ t.now }
{
    (0..4).any(|j| differs_from(t, j))
}

// The first of the checks 3 to 9 that fails.
pub fn conflict(t: &[i32; 104]) -> Option<Refusal>
    ensures { result ≡ refusal_by (first_of 3 (conflicts t.now)) 0 }
{
    if field_wrong(t) {
        return Some(Refusal::Field);
    }
    if error_bit_wrong(t) {
        return Some(Refusal::ErrorBit);
    }
    if span_empty(t) {
        return Some(Refusal::Span);
    }
    if points_not_rising(t) {
        return Some(Refusal::Points);
    }
    if origin_missing(t) {
        return Some(Refusal::Origin);
    }
    if freeze_on_edge(t) {
        return Some(Refusal::Freeze);
    }
    if polarities_differ(t) {
        return Some(Refusal::Polarity);
    }
    None
}
