// The events of the engine, and the log that carries them: its words become events one at a time, so that a log may have any length.
// It uses no other crate.
#![tactic(auto)]

mod parts;

ghost use Rattle.std.specs.Prelude.{◌≡◌};
ghost use Rattle.events.specs.Words.{word_at};
ghost use Rattle.events.specs.Bytes.{least_first};
ghost use Rattle.events.specs.Log.{fresh_pending, half_waiting, refusal_number, number_told, refusal_of, kept, refused, happened, ordered_of, taken_of, end_of};

use parts::Kind;

// What the engine works on.
#[derive(Clone, Copy)]
pub enum Event {
    // A telegram, as the encoder sends it.
    Telegram(u32),
    // The levels of the three inputs, input 1 the lowest bit.
    Levels(u8),
    // Time that has passed, in ms.
    Tick(u16),
}

// What is kept from one word of the log to the next.
#[derive(Clone, Copy)]
pub struct Pending {
    // Whether the word before was an upper half, which waits for its lower half.
    // Kept: a flag beside the half, since an Option would take fewer values than callers may hand over.
    pub waiting: bool,
    // The upper half, 0 where none is waiting.
    pub upper: u16,
}

impl Pending {
    // The upper half that waits for its lower half, if one does.
    fn half(self) -> Option<u16>
        ensures { result ≡ half_waiting self }
    {
        if self.waiting { Some(self.upper) } else { None }
    }
}

// Why a log is refused, which ends it.
#[derive(Clone, Copy, Debug, PartialEq, Eq)]
pub enum Refusal {
    // A reserved bit is set.
    Reserved,
    // A half of a telegram without its other half directly beside it.
    OutOfOrder,
    // Bytes are left over behind the last whole word.
    LeftOver,
    // By another number. No log is refused so; a run that a caller puts together may have ended by any.
    Other(u8),
}

impl Refusal {
    // Its number.
    pub fn number(self) -> u8
        ensures { result ≡ refusal_number self }
    {
        match self {
            Refusal::Reserved => 14,
            Refusal::OutOfOrder => 15,
            Refusal::LeftOver => 16,
            Refusal::Other(number) => number,
        }
    }
}

// The refusal of a number: each number has one, 0 none.
#[tactic(auto, unfolding(crate::specs::Log::refusal_of))]
pub fn refusal_of(number: u8) -> Option<Refusal>
    ensures is { result ≡ refusal_of number }
    ensures back { number_told result ≡ number }
{
    match number {
        0 => None,
        14 => Some(Refusal::Reserved),
        15 => Some(Refusal::OutOfOrder),
        16 => Some(Refusal::LeftOver),
        _ => Some(Refusal::Other(number)),
    }
}

// The answer to one word.
#[derive(Clone, Copy)]
pub struct AfterWord {
    // What is kept for the next word.
    pub pending: Pending,
    // What the word gives: an event, or none yet where the upper half of a telegram is kept.
    pub taken: Result<Option<Event>, Refusal>,
}

// Before the first word: no half is waiting.
pub fn fresh() -> Pending
    ensures { result ≡ fresh_pending }
{
    Pending {
        waiting: false,
        upper: 0,
    }
}

// A word of four bytes, the lowest first.
pub fn word_at(b0: u8, b1: u8, b2: u8, b3: u8) -> u32
    ensures { result ≡ word_at b0 b1 b2 b3 }
{
    u32::from_le_bytes([b0, b1, b2, b3])
}

// The four bytes of a word, the lowest first.
pub fn bytes_of(w: u32) -> [u8; 4]
    ensures { result ≡ least_first w }
{
    w.to_le_bytes()
}

// A word that is refused.
fn refuse(refusal: Refusal) -> AfterWord
    ensures { result ≡ refused refusal }
{
    AfterWord {
        pending: fresh(),
        taken: Err(refusal),
    }
}

// A word that gives an event.
fn give(event: Event) -> AfterWord
    ensures { result ≡ happened event }
{
    AfterWord {
        pending: fresh(),
        taken: Ok(Some(event)),
    }
}

// A word that is the upper half of a telegram.
fn keep(upper: u16) -> AfterWord
    ensures { result ≡ kept upper }
{
    AfterWord {
        pending: Pending {
            waiting: true,
            upper,
        },
        taken: Ok(None),
    }
}

// A word directly after the upper half `upper`.
fn after_upper(upper: u16, w: u32) -> AfterWord
    ensures { result ≡ ordered_of (kept upper).pending w }
{
    match parts::kind_of(w) {
        Kind::Lower => give(Event::Telegram(parts::telegram(upper, parts::half(w)))),
        _ => refuse(Refusal::OutOfOrder),
    }
}

// A word elsewhere.
fn elsewhere(w: u32) -> AfterWord
    ensures { result ≡ ordered_of fresh_pending w }
{
    match parts::kind_of(w) {
        Kind::Tick => give(Event::Tick(parts::ms(w))),
        Kind::Levels => give(Event::Levels(parts::levels(w))),
        Kind::Upper => keep(parts::half(w)),
        Kind::Lower => refuse(Refusal::OutOfOrder),
    }
}

// One word of the log.
pub fn take(p: Pending, w: u32) -> AfterWord
    ensures { result ≡ taken_of p w }
{
    if parts::reserved_set(w) {
        return refuse(Refusal::Reserved);
    }
    match p.half() {
        Some(upper) => after_upper(upper, w),
        None => elsewhere(w),
    }
}

// The end of the log after its last whole word, with the number of bytes left over.
pub fn end(p: Pending, left_over: usize) -> Result<(), Refusal>
    ensures { result ≡ end_of p left_over }
{
    if left_over != 0 {
        return Err(Refusal::LeftOver);
    }
    match p.half() {
        Some(_) => Err(Refusal::OutOfOrder),
        None => Ok(()),
    }
}
