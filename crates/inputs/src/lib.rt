// The three inputs: their commands on a panel's state, each on what the earlier ones left, where a refused one changes nothing; and the freeze.
// The table is changed in place. Uses `settings` for what the inputs do, `parameters` to store, `reading` for the result of a reset, `state` for the state, and
// `switching` for the locks, `driverecord` for the record.
#![tactic(auto)]

ghost use Rattle.std.specs.Prelude.{◌≡◌, ◌<◌, ◌≤◌, eqb};
ghost use Rattle.integers.specs.Limit.{Z};
ghost use Rattle.measurement.specs.Measure.{error_number};
ghost use Rattle.parameters.specs.Valid.{Valid};
ghost use Rattle.settings.specs.Settings.{Aimed, input_at};
ghost use Rattle.state.specs.State.{state_of, halves_in};
ghost use Rattle.state.specs.Refusal.{no_note};
ghost use Rattle.state.specs.Valid.{Good};
ghost use Rattle.inputs.specs.Commands.{acted, left_by, reset_refusal, reset_of, locks_cleared, extremes_at, extremes_cleared, teach_refusal, teach_of, refusal_of, carried_out, marks_after, command_of};
ghost use Rattle.inputs.specs.Levels.{high_at, on_rise, acts_on, edge_in, input_acts, commands_of, marks_left};
ghost use Rattle.inputs.specs.Freeze.{lasts, freezes, frozen, shown_by};

use measurement::Error;
use reading::Halves;
use settings::{Action, Config};
use state::{Extremes, Live, Outcome, Refusal};

// Whether an error is 3, that of the error bit.
fn is_error_bit(error: Option<Error>) -> bool
    ensures { result ≡ eqb (error_number error) 3 }
{
    matches!(error, Some(Error::ErrorBit))
}

// Why a reset is refused, if it is: nothing to take before the offset's range.
fn reset_refusal(seen: bool, error: Option<Error>, start: u32) -> Option<Refusal>
    ensures { result ≡ reset_refusal seen (error_number error) start }
{
    if !seen | is_error_bit(error) {
        return Some(Refusal::NothingToTake);
    }
    if (integers::Z as u32) < start {
        return Some(Refusal::OffsetOutOfRange);
    }
    None
}

// Why a teach is refused, if it is.
fn teach_refusal(seen: bool, error: Option<Error>) -> Option<Refusal>
    ensures { result ≡ teach_refusal seen (error_number error) }
{
    if seen & error.is_none() {
        return None;
    }
    Some(Refusal::NothingToTake)
}

// Reset: the offset becomes what the result starts from.
fn reset(t: &mut [i32; 104], l: Live) -> Outcome
    requires { Valid t.old × (l.basis.start ≤ Z) }
    ensures is { left_by t.new result ≡ acted (reset_of (state_of t.old l)) no_note }
    ensures marks { result.halves ≡ halves_in (reset_of (state_of t.old l)) }
{
    let b = l.basis;
    parameters::store_offset(t, b.start as i32);
    let m = reading::read(t, b);
    let r = m.reading;
    let live = state::reread(l, r);
    Outcome {
        live,
        note: None,
        halves: m.halves,
    }
}

// Clear locks.
fn clear_locks(l: Live) -> Live
    ensures { result ≡ locks_cleared l }
{
    let switches = l.switches;
    state::with_switches(l, switching::unlock_all(switches))
}

// Least and greatest both at a result, or none before the first telegram or under an error.
fn extremes_at(seen: bool, error: Option<Error>, res: i32) -> Extremes
    ensures { result ≡ extremes_at seen (error_number error) res }
{
    if seen & error.is_none() {
        return Extremes {
            any: true,
            least: res,
            greatest: res,
        };
    }
    Extremes {
        any: false,
        least: 0,
        greatest: 0,
    }
}

// Clear least and greatest: both at the present result, or none; and the record of the drive empty.
fn clear_extremes(l: Live) -> Live
    ensures { result ≡ extremes_cleared l }
{
    let r = l.reading;
    let x = extremes_at(l.seen, r.error, r.result);
    let was = l.driven;
    state::with_record(state::with_reading(l, r, x), driverecord::empty(was))
}

// Teach: preselection k + 1 takes the result.
fn teach(t: &mut [i32; 104], l: Live, k: usize) -> Live
    requires { k < 4 }
    ensures { state_of t.new result ≡ teach_of (state_of t.old l) k }
{
    let r = l.reading;
    parameters::store_preselection(t, k, r.result);
    l
}

// Why an action is refused, if it is.
fn refusal(a: Action, t: &[i32; 104], l: Live) -> Option<Refusal>
    ensures { result ≡ refusal_of a (state_of t.now l) }
{
    let r = l.reading;
    let error = r.error;
    let b = l.basis;
    match a {
        Action::None => None,
        Action::Reset => reset_refusal(l.seen, error, b.start),
        Action::Freeze => None,
        Action::ClearLocks => None,
        Action::ClearExtremes => None,
        Action::Teach(_) => teach_refusal(l.seen, error),
    }
}

// An outcome for which no result was worked out: the marks stay as they were.
fn kept(live: Live, note: Option<Refusal>, halves: Halves) -> Outcome
    ensures { result ≡ record { live = live; note = note; halves = halves } }
{
    Outcome { live, note, halves }
}

// An action that is not refused, carried out; a reset alone brings marks.
fn carry_out(a: Action, t: &mut [i32; 104], l: Live, halves: Halves) -> Outcome
    requires { Valid t.old × (Aimed a × (refusal_of a (state_of t.old l) ≡ no_note)) }
    ensures is { left_by t.new result ≡ acted (carried_out a (state_of t.old l)) no_note }
    ensures marks { result.halves ≡ marks_after a (state_of t.old l) halves }
{
    match a {
        Action::None => kept(l, None, halves),
        Action::Reset => reset(t, l),
        Action::Freeze => kept(l, None, halves),
        Action::ClearLocks => kept(clear_locks(l), None, halves),
        Action::ClearExtremes => kept(clear_extremes(l), None, halves),
        Action::Teach(k) => kept(teach(t, l, k), None, halves),
    }
}

// A command: carried out, or refused.
fn command(a: Action, t: &mut [i32; 104], l: Live, halves: Halves) -> Outcome
    requires { Valid t.old × Aimed a }
    ensures is { left_by t.new result ≡ command_of a (state_of t.old l) }
    ensures marks { result.halves ≡ marks_after a (state_of t.old l) halves }
{
    match refusal(a, t, l) {
        None => carry_out(a, t, l, halves),
        Some(r) => kept(l, Some(r), halves),
    }
}

// Whether input i + 1 is high.
fn high_at(levels: u8, i: usize) -> bool
    requires { i < 3 }
    ensures { result ≡ high_at levels i }
{
    (levels >> i) % 2 == 1
}

// Whether a config acts on a rise; the others act on a fall.
fn on_rise(c: Config) -> bool
    ensures { result ≡ on_rise c }
{
    match c {
        Config::Low => false,
        Config::High => true,
        Config::Rising => true,
        Config::Falling => false,
    }
}

// Whether a change of level acts.
fn acts_on(c: Config, was: bool, is: bool) -> bool
    ensures { result ≡ acts_on c was is }
{
    if on_rise(c) {
        return !was & is;
    }
    was & !is
}

// Whether a change of levels makes input i + 1 act.
fn edge(t: &[i32; 104], was: u8, levels: u8, i: usize) -> bool
    requires { i < 3 }
    ensures { result ≡ edge_in t.now was levels i }
{
    acts_on(
        settings::config_at(t, i),
        high_at(was, i),
        high_at(levels, i),
    )
}

// Input i + 1 acts on what the inputs before it left; the note is that of the lowest refused input.
fn input(t: &mut [i32; 104], x: Outcome, i: usize) -> Outcome
    requires { Valid t.old × (i < 3) }
    ensures is { left_by t.new result ≡ input_acts i (left_by t.old x) }
    ensures marks { result.halves ≡ marks_after (input_at t.old i).action (state_of t.old x.live) x.halves }
{
    let l = x.live;
    let a = settings::action_at(t, i);
    let y = command(a, t, l, x.halves);
    let note = x.note.or(y.note);
    let next = y.live;
    Outcome {
        live: next,
        note: note,
        halves: y.halves,
    }
}

// The commands of inputs 1, 2, 3 in that order, of those that new levels make act.
pub fn act(t: &mut [i32; 104], l: Live, levels: u8) -> Outcome
    requires { Good (state_of t.old l) }
    ensures is { left_by t.new result ≡ commands_of (state_of t.old l) levels }
    ensures marks { result.halves ≡ marks_left (state_of t.old l) levels }
    ensures valid { Good (state_of t.new result.live) }
{
    let mut x = Outcome {
        live: l,
        note: None,
        halves: reading::no_halves(),
    };
    for i in 0..3 {
        let n = x.live;
        if edge(t, n.levels, levels, i) {
            x = input(t, x, i);
        }
    }
    x
}

// Whether a freeze with a config lasts at a level.
fn lasts_at(c: Config, high: bool) -> bool
    ensures { result ≡ lasts c high }
{
    match c {
        Config::Low => !high,
        Config::High => high,
        Config::Rising => false,
        Config::Falling => false,
    }
}

// Whether input i + 1 holds the shown value.
fn holds(t: &[i32; 104], levels: u8, i: usize) -> bool
    requires { i < 3 }
    ensures { result ≡ freezes (input_at t.now i) (high_at levels i) }
{
    if settings::freezes_at(t, i) {
        return lasts_at(settings::config_at(t, i), high_at(levels, i));
    }
    false
}

// Whether any input holds the shown value.
pub fn is_frozen(t: &[i32; 104], levels: u8) -> bool
    ensures { result ≡ frozen t.now levels }
{
    holds(t, levels, 0) || holds(t, levels, 1) || holds(t, levels, 2)
}

// The shown value after an event: the result, or held.
pub fn shown_after(held: bool, shown: i32, res: i32) -> i32
    ensures { result ≡ shown_by held shown res }
{
    if held {
        return shown;
    }
    res
}
