// The front door: load, step and advance, the outputs, and a telegram diagnosed and built. Whoever drives a panel calls this crate.
// Uses `events`, `state`, `inputs` for the commands and the freeze, `reading` for what is accepted and read, `settings`, `switching` and `ssi`, and the error and drive enums of
// `measurement` and `analog`.
#![tactic(auto)]

ghost use Rattle.std.specs.Prelude.{◌≡◌, false};
ghost use Rattle.driverecord.specs.DriveRecord.{present_of};
ghost use Rattle.driverecord.specs.Numbers.{Number, Numbers};
ghost use Rattle.state.specs.State.{state_of, set_switches, set_recorded};
ghost use Rattle.state.specs.Refusal.{no_note};
ghost use Rattle.state.specs.Valid.{Good};
ghost use Rattle.parameters.specs.Valid.{Valid};
ghost use Rattle.reading.specs.Reading.{no_halves};
ghost use Rattle.switching.specs.Switching.{all_ticked};
ghost use Rattle.panel.specs.Load.{loaded_of};
ghost use Rattle.panel.specs.Step.{answer_of, answer_by, outputs_in, switches_after, settled_of, on_telegram, on_levels, step_of};
ghost use Rattle.panel.specs.StepWay.{answer_after};
ghost use Rattle.panel.specs.Telegrams.{diagnosed_of, built_by};

use analog::Drive;
use events::Event;
use measurement::Error;
use reading::Halves;
use ssi::{Built, Diagnosis};
use state::{Live, Outcome, Refusal, State};
use switching::Switch;

// The numbers of an answer's note and marks, so that who calls this crate needs none below it.
pub use reading::halves_number;
pub use state::{note_number, note_of};

// The answer to an event.
#[derive(Clone, Copy)]
pub struct Answer {
    // The new state.
    pub state: State,
    // The result, 0 under an error.
    pub result: i32,
    // The shown value, held by a freeze.
    pub shown: i32,
    pub error: Option<Error>,
    // The levels of outputs 1 to 4, true for high.
    pub outputs: [bool; 4],
    pub drive: Drive,
    // The refusal of the event or of its lowest refused input.
    pub note: Option<Refusal>,
    // Where a half decided in the result that the event worked out.
    pub halves: Halves,
}

// The levels of the outputs that a table and its switches give.
pub fn outputs(t: &[i32; 104], switches: [Switch; 4]) -> [bool; 4]
    ensures { result ≡ outputs_in t.now switches }
{
    switching::output::outputs(settings::preselections(t), switches)
}

// The answer that a state gives, with a note and marks.
pub fn answered(s: State, note: Option<Refusal>, halves: Halves) -> Answer
    ensures { result ≡ answer_of s note halves }
{
    let l = s.live;
    let switches = l.switches;
    let levels = outputs(&s.table, switches);
    let reading = l.reading;
    let error = reading.error;
    let drive = reading.drive;
    Answer {
        state: s,
        result: reading.result,
        shown: l.shown,
        error: error,
        outputs: levels,
        drive: drive,
        note: note,
        halves: halves,
    }
}

// The switches after an event: worked out once a telegram was accepted.
fn switches_after(seen: bool, t: &[i32; 104], res: i32, switches: [Switch; 4]) -> [Switch; 4]
    ensures { result ≡ switches_after seen t.now res switches }
{
    if !seen {
        return switches;
    }
    switching::switch_all(settings::preselections(t), res, switches)
}

// What an event does before switching and display.
#[derive(Clone, Copy)]
struct Begun {
    live: Live,
    note: Option<Refusal>,
    halves: Halves,
    // Whether switching and display follow: not after a refusal or a tick.
    settles: bool,
}

// A refused event: nothing changes.
fn refused(l: Live, why: Refusal) -> Begun
    ensures { result ≡ record { live = l; note = Some why; halves = no_halves; settles = false } }
{
    Begun {
        live: l,
        note: Some(why),
        halves: reading::no_halves(),
        settles: false,
    }
}

// A telegram: refused with 11, or read and recorded.
fn on_telegram(t: &[i32; 104], l: Live, telegram: u32) -> Begun
    requires { Good (state_of t.now l) }
    ensures { answer_after t.now result ≡ on_telegram (state_of t.now l) telegram }
{
    if !reading::accepts(t, telegram) {
        return refused(l, Refusal::BitAbove);
    }
    let was = l.basis;
    let b = reading::basis_after(t, was, telegram);
    let m = reading::read(t, b);
    let r = m.reading;
    let next = state::recorded(state::received(l, b, r));
    Begun {
        live: next,
        note: None,
        halves: m.halves,
        settles: true,
    }
}

// Levels: refused with 10, or their commands run, and what they leave recorded.
fn on_levels(t: &mut [i32; 104], l: Live, levels: u8) -> Begun
    requires { Good (state_of t.old l) }
    ensures { answer_after t.new result ≡ on_levels (state_of t.old l) levels }
{
    if 7 < levels {
        return refused(l, Refusal::LevelsAbove);
    }
    let x = inputs::act(t, l, levels);
    let n = x.live;
    let next = state::recorded(state::with_levels(n, levels));
    Begun {
        live: next,
        note: x.note,
        halves: x.halves,
        settles: true,
    }
}

// A tick: pulses are used up, and the record is brought up to date.
fn on_tick(l: Live, ms: u16) -> Begun
    requires { Numbers l.driven × Number (present_of l.reading.drive) }
    ensures { result ≡ record { live = set_recorded (set_switches l (all_ticked ms l.switches)); note = no_note; halves = no_halves; settles = false } }
{
    let switches = l.switches;
    let next = state::recorded(state::with_switches(l, switching::tick_all(ms, switches)));
    let settles = false;
    Begun {
        live: next,
        note: None,
        halves: reading::no_halves(),
        settles,
    }
}

// An event before switching and display, which do not look at the record.
fn begin(t: &mut [i32; 104], l: Live, e: Event) -> Begun
    requires { Good (state_of t.old l) }
    ensures { answer_after t.new result ≡ step_of (state_of t.old l) e }
{
    match e {
        Event::Telegram(w) => on_telegram(t, l, w),
        Event::Levels(x) => on_levels(t, l, x),
        Event::Tick(ms) => on_tick(l, ms),
    }
}

// Switching and display, which end a telegram or levels event.
fn settle(t: &[i32; 104], l: Live) -> Live
    ensures { state_of t.now result ≡ settled_of (state_of t.now l) }
{
    let reading = l.reading;
    let was = l.switches;
    let switches = switches_after(l.seen, t, reading.result, was);
    let held = inputs::is_frozen(t, l.levels);
    let shown = inputs::shown_after(held, l.shown, reading.result);
    state::settled(l, switches, shown)
}

// An event, with the table changed in place.
pub fn advance(t: &mut [i32; 104], l: Live, e: Event) -> Outcome
    requires { Good (state_of t.old l) }
    ensures is { answer_by t.new result ≡ step_of (state_of t.old l) e }
    ensures valid { Good (state_of t.new result.live) }
{
    let b = begin(t, l, e);
    let live = b.live;
    if b.settles {
        let last = settle(t, live);
        return Outcome {
            live: last,
            note: b.note,
            halves: b.halves,
        };
    }
    Outcome {
        live: live,
        note: b.note,
        halves: b.halves,
    }
}

// An event.
pub fn step(s: State, e: Event) -> Answer
    requires { Good s }
    ensures is { result ≡ step_of s e }
    ensures valid { Good result.state }
{
    let mut table = s.table;
    let l = s.live;
    let x = advance(&mut table, l, e);
    let live = x.live;
    answered(State { table, live }, x.note, x.halves)
}

// What loading a table answers.
#[derive(Clone, Copy)]
pub struct Loaded {
    // Why the table is refused, none where it loads.
    pub refusal: Option<parameters::Refusal>,
    // The fresh state of the table, or of the defaults where it is refused.
    pub state: State,
}

// Loads a table.
pub fn load(words: &[i32]) -> Loaded
    ensures is { result ≡ loaded_of words.now }
    ensures valid { Good result.state }
{
    let l = parameters::load(words);
    let table = l.table;
    let s = state::fresh(table);
    Loaded {
        refusal: l.refusal,
        state: s,
    }
}

// The diagnosis of a telegram under a table: turns and place within the turn, or 11.
pub fn diagnose(t: &[i32; 104], telegram: u32) -> Diagnosis
    requires { Valid t.now }
    ensures { result ≡ diagnosed_of t.now telegram }
{
    ssi::diagnose(settings::layout(t), settings::bits_per_turn(t), telegram)
}

// The telegram of a position under a table, its error bit at the error level exactly when the error is asked for; or 17 or 18.
pub fn build(t: &[i32; 104], position: u32, error: bool) -> Built
    requires { Valid t.now }
    ensures { result ≡ built_by t.now position error }
{
    ssi::build(settings::layout(t), position, error)
}
