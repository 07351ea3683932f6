// The parameter table of the panel indicator: its rows, the meaning of its slots, and loading it with checks 1 to 9.
// It may use the crate `integers` only.
#![tactic(auto)]

ghost use Rattle.std.specs.Prelude.{◌≡◌, ◌<◌};
ghost use Rattle.integers.specs.Int.{P};
ghost use Rattle.parameters.specs.Slots.{word_at, nat_at, with_word, with_offset, with_preselection};
ghost use Rattle.parameters.specs.Refusals.{refusal_number, refusal_slot};
ghost use Rattle.parameters.specs.Load.{refused_as, load_of};

mod checks; // checks.rt: checks 3 to 9
pub mod rows; // rows.rt: ranges and defaults, check 2
pub mod slots; // slots.rt: the slots by name

// The word in a slot.
pub fn word(t: &[i32; 104], slot: usize) -> i32
    requires { slot < 104 }
    ensures { result ≡ word_at t.now slot }
{
    t[slot]
}

// A word that is not negative as a number, 0 for a negative one.
fn unsigned(x: i32) -> u32
    ensures { result ≡ P x }
{
    u32::try_from(x).unwrap_or(0)
}

// The number in a slot.
pub fn natural(t: &[i32; 104], slot: usize) -> u32
    requires { slot < 104 }
    ensures { result ≡ nat_at t.now slot }
{
    unsigned(t[slot])
}

// The table with one slot changed; a slot behind the last changes nothing.
pub fn changed(t: [i32; 104], slot: usize, x: i32) -> [i32; 104]
    ensures { result ≡ with_word t slot x }
{
    let mut next = t;
    if slot < 104 {
        next[slot] = x;
    }
    next
}

// Stores the offset.
pub fn store_offset(t: &mut [i32; 104], x: i32)
    ensures { t.new ≡ with_offset t.old x }
{
    t[slots::OFFSET] = x;
}

// Stores preselection k + 1.
pub fn store_preselection(t: &mut [i32; 104], k: usize, x: i32)
    requires { k < 4 }
    ensures { t.new ≡ with_preselection t.old k x }
{
    t[slots::PRESELECTION + slots::PRESELECTION_STRIDE * k] = x;
}

// Why a table is refused: the first of the checks 1 to 9 that fails.
#[derive(Clone, Copy, PartialEq, Eq)]
pub enum Refusal {
    // 1: not 104 words.
    Length,
    // 2: the lowest slot out of range.
    Slot(usize),
    // 3: B > H or H > N.
    Field,
    // 4: the error bit is above N, or from B to H.
    ErrorBit,
    // 5: the analog start equals the end.
    Span,
    // 6: linearization is on, and the used x do not strictly rise.
    Points,
    // 7: one quadrant, and point 1 is not (0, 0).
    Origin,
    // 8: freeze with config 2 or 3.
    Freeze,
    // 9: two preselections on one output, polarities differ.
    Polarity,
}

impl Refusal {
    // The number of the check.
    pub fn number(self) -> u32
        ensures { result ≡ refusal_number self }
    {
        match self {
            Refusal::Length => 1,
            Refusal::Slot(_) => 2,
            Refusal::Field => 3,
            Refusal::ErrorBit => 4,
            Refusal::Span => 5,
            Refusal::Points => 6,
            Refusal::Origin => 7,
            Refusal::Freeze => 8,
            Refusal::Polarity => 9,
        }
    }

    // The slot that check 2 names, else 0.
    pub fn slot(self) -> usize
        ensures { result ≡ refusal_slot self }
    {
        match self {
            Refusal::Slot(slot) => slot,
            _ => 0,
        }
    }
}

// What loading answers.
#[derive(Clone, Copy)]
pub struct Loaded {
    // Why the table is refused, none where it loads.
    pub refusal: Option<Refusal>,
    // The table, or the defaults where it is refused.
    pub table: [i32; 104],
}

// A refusal, with the defaults as filler.
fn refused(refusal: Refusal) -> Loaded
    ensures { result ≡ refused_as refusal }
{
    Loaded {
        refusal: Some(refusal),
        table: rows::defaults(),
    }
}

// Loads a table, or refuses it with the first of the checks 1 to 9 that fails.
pub fn load(words: &[i32]) -> Loaded
    ensures { result ≡ load_of words.now }
{
    let Ok(table) = <[i32; 104]>::try_from(words) else {
        return refused(Refusal::Length);
    };
    if let Some(slot) = rows::lowest_out(&table) {
        return refused(Refusal::Slot(slot));
    }
    if let Some(refusal) = checks::conflict(&table) {
        return refused(refusal);
    }
    Loaded {
        refusal: None,
        table,
    }
}
