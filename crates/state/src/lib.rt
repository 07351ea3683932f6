// The state of a panel: the table in force and the live values beside it; its fresh state, a telegram taken, and the result worked out again.
// Uses `reading` for what a reading is, `switching` for the switches, `driverecord` for the record of the drive, and the error and drive enums of `measurement` and
// `analog`. It knows no input and no command.
#![tactic(auto)]

ghost use Rattle.std.specs.Prelude.{cond, ◌≡◌};
ghost use Rattle.std.specs.Int.Signed.{lt_z};
ghost use Rattle.state.specs.State.{fresh_of, set_levels, set_basis, set_reading, set_read, set_shown, set_switches, set_driven, set_recorded};
ghost use Rattle.driverecord.specs.DriveRecord.{present_of};
ghost use Rattle.driverecord.specs.Numbers.{Number, Numbers};
ghost use Rattle.state.specs.Extremes.{widened_of};
ghost use Rattle.state.specs.Refusal.{refusal_number, note_number, note_of};

use driverecord::DriveRecord;
use reading::{Basis, Halves, Reading};
use switching::Switch;

// The least and the greatest error-free result.
#[derive(Clone, Copy)]
pub struct Extremes {
    // Whether there is one.
    // Kept: a flag beside the two, since an Option of both would take fewer values than callers may hand over.
    pub any: bool,
    pub least: i32,
    pub greatest: i32,
}

// What events change beside the table.
#[derive(Clone, Copy)]
pub struct Live {
    // The levels of the inputs, input 1 the lowest bit.
    pub levels: u8,
    // Whether a telegram was accepted.
    pub seen: bool,
    // What the result of the last accepted telegram starts from.
    pub basis: Basis,
    // Its result, error, code and drive.
    pub reading: Reading,
    // The shown value.
    pub shown: i32,
    pub extremes: Extremes,
    // Present, lowest and highest drive.
    pub driven: DriveRecord,
    // The four preselections' conditions, pulses and locks.
    pub switches: [Switch; 4],
}

#[derive(Clone, Copy)]
pub struct State {
    // The table in force.
    pub table: [i32; 104],
    pub live: Live,
}

// Why an event, a command or a burst is refused.
#[derive(Clone, Copy, Debug, PartialEq, Eq)]
pub enum Refusal {
    // Levels above 7.
    LevelsAbove,
    // A telegram with a bit above N.
    BitAbove,
    // A reset whose offset would be out of range.
    OffsetOutOfRange,
    // A reset or a teach with no result to take.
    NothingToTake,
    // A burst of more than 1,024 telegrams.
    BurstTooLong,
    // By another number. The engine gives none of these; an answer that a caller puts together may have any.
    Other(u8),
}

impl Refusal {
    // Its number.
    pub fn number(self) -> u8
        ensures { result ≡ refusal_number self }
    {
        match self {
            Refusal::LevelsAbove => 10,
            Refusal::BitAbove => 11,
            Refusal::OffsetOutOfRange => 12,
            Refusal::NothingToTake => 13,
            Refusal::BurstTooLong => 21,
            Refusal::Other(number) => number,
        }
    }
}

// What an event or a command leaves beside the table.
#[derive(Clone, Copy)]
pub struct Outcome {
    pub live: Live,
    // The refusal of the event or of its lowest refused input.
    pub note: Option<Refusal>,
    // Where a half decided in the result that it worked out.
    pub halves: Halves,
}

// The state of a loaded table before the first event.
pub fn fresh(table: [i32; 104]) -> State
    ensures { result ≡ fresh_of table }
{
    let off = switching::fresh();
    State {
        table: table,
        live: Live {
            levels: 0,
            seen: false,
            basis: Basis {
                start: 0,
                last: 0,
                reported: false,
                counted: false,
            },
            reading: Reading {
                result: 0,
                error: None,
                code: 0,
                drive: analog::Drive::Off,
            },
            shown: 0,
            extremes: Extremes {
                any: false,
                least: 0,
                greatest: 0,
            },
            driven: driverecord::fresh(),
            switches: [off; 4],
        },
    }
}

// The number of a note, 0 for none.
pub fn note_number(note: Option<Refusal>) -> u8
    ensures { result ≡ note_number note }
{
    match note {
        None => 0,
        Some(r) => r.number(),
    }
}

// The note of a number: each number has one, 0 none.
#[tactic(auto, unfolding(crate::specs::Refusal::note_of))]
pub fn note_of(number: u8) -> Option<Refusal>
    ensures is { result ≡ note_of number }
    ensures back { note_number result ≡ number }
{
    match number {
        0 => None,
        10 => Some(Refusal::LevelsAbove),
        11 => Some(Refusal::BitAbove),
        12 => Some(Refusal::OffsetOutOfRange),
        13 => Some(Refusal::NothingToTake),
        21 => Some(Refusal::BurstTooLong),
        _ => Some(Refusal::Other(number)),
    }
}

// The lower of two results.
fn lower(a: i32, b: i32) -> i32
    ensures { result ≡ cond (lt_z a b) a b }
{
    b.min(a)
}

// The higher of two results.
fn higher(a: i32, b: i32) -> i32
    ensures { result ≡ cond (lt_z b a) a b }
{
    a.max(b)
}

// Least and greatest with one more reading.
fn widened(x: Extremes, r: Reading) -> Extremes
    ensures { result ≡ widened_of x r }
{
    if r.error.is_some() {
        return x;
    }
    if x.any {
        return Extremes {
            any: true,
            least: lower(r.result, x.least),
            greatest: higher(r.result, x.greatest),
        };
    }
    Extremes {
        any: true,
        least: r.result,
        greatest: r.result,
    }
}

// The result worked out again: its reading, and least and greatest with it.
pub fn reread(l: Live, r: Reading) -> Live
    ensures { result ≡ set_read l r }
{
    let x = widened(l.extremes, r);
    with_reading(l, r, x)
}

// An accepted telegram taken: what its result starts from, its reading, and least and greatest with it.
pub fn received(l: Live, b: Basis, r: Reading) -> Live
    ensures { result ≡ set_read (set_basis l b) r }
{
    let x = widened(l.extremes, r);
    let mut n = l;
    n.seen = true;
    n.basis = b;
    n.reading = r;
    n.extremes = x;
    n
}

// Another reading, with least and greatest.
pub fn with_reading(l: Live, reading: Reading, extremes: Extremes) -> Live
    ensures { result ≡ set_reading l reading extremes }
{
    let mut n = l;
    n.reading = reading;
    n.extremes = extremes;
    n
}

// Other levels.
pub fn with_levels(l: Live, levels: u8) -> Live
    ensures { result ≡ set_levels l levels }
{
    let mut n = l;
    n.levels = levels;
    n
}

// Other switches.
pub fn with_switches(l: Live, switches: [Switch; 4]) -> Live
    ensures { result ≡ set_switches l switches }
{
    let mut n = l;
    n.switches = switches;
    n
}

// The switches and the shown value that an event ends with.
pub fn settled(l: Live, switches: [Switch; 4], shown: i32) -> Live
    ensures { result ≡ set_shown (set_switches l switches) shown }
{
    let mut n = l;
    n.switches = switches;
    n.shown = shown;
    n
}

// Another record of the drive.
pub fn with_record(l: Live, driven: DriveRecord) -> Live
    ensures { result ≡ set_driven l driven }
{
    let mut n = l;
    n.driven = driven;
    n
}

// The record brought up to date with the drive, as each accepted event ends.
pub fn recorded(l: Live) -> Live
    requires { Numbers l.driven × Number (present_of l.reading.drive) }
    ensures { result ≡ set_recorded l }
{
    let was = l.driven;
    let reading = l.reading;
    let drive = reading.drive;
    with_record(l, driverecord::updated(was, drive))
}
