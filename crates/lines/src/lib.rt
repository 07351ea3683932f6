// The lines that panelrun prints, each put into a buffer that the caller lends, at a place, with the place behind it as the answer.
// Uses `text` to put them, and `panel`, `state`, `events`, `measurement` and `analog` for what a line tells.
#![tactic(auto)]

ghost use Rattle.std.specs.Prelude.{◌≡◌, ◌∷◌, [], ◌++◌, ◌+◌, ◌≤◌, length};
ghost use Rattle.decimal.specs.Decimal.{largest};
ghost use Rattle.text.specs.Marks.{space};
ghost use Rattle.text.specs.Put.{Put};
ghost use Rattle.panel.specs.Step.{answer_by};
ghost use Rattle.lines.specs.Lines.{kind_letter, level_digit, outs_text, analog_text, next_count, count_more, header_line, event_line, load_line, end_line};
ghost use Rattle.lines.specs.LineLaws.{longest};
ghost use Rattle.lines.specs.Fields.{value_fields, drive_fields, answer_text, refusal_fields};

use analog::Drive;
use events::Event;
use state::{Live, Outcome};

// The letter of an event's kind.
fn kind_letter(e: Event) -> u8
    ensures { result ≡ kind_letter e }
{
    match e {
        Event::Telegram(_) => b'T',
        Event::Levels(_) => b'I',
        Event::Tick(_) => b'C',
    }
}

// The digit of an output's level, 1 for high; or of a mark, 1 for yes.
pub fn level_digit(high: bool) -> u8
    ensures { result ≡ level_digit high }
{
    b'0' + u8::from(high)
}

// Puts the letter of an event's kind, and a space.
fn put_kind(out: &mut [u8], at: usize, e: Event) -> usize
    requires { at + 2 ≤ length out.old }
    ensures { Put out.old at (kind_letter e ∷ space ∷ []) result out.new }
{
    let text = [kind_letter(e), b' '];
    text::put_bytes(out, at, &text)
}

// Puts the levels of the outputs, and a space.
fn put_outs(out: &mut [u8], at: usize, outs: [bool; 4]) -> usize
    requires { at + 5 ≤ length out.old }
    ensures { Put out.old at (outs_text outs ++ (space ∷ [])) result out.new }
{
    let text = [
        level_digit(outs[0]),
        level_digit(outs[1]),
        level_digit(outs[2]),
        level_digit(outs[3]),
        b' ',
    ];
    text::put_bytes(out, at, &text)
}

// Puts the analog code, or off, and a space.
fn put_analog(out: &mut [u8], at: usize, drive: Drive, code: i32) -> usize
    requires { at + 20 ≤ length out.old }
    ensures { Put out.old at (analog_text drive code ++ (space ∷ [])) result out.new }
{
    match drive {
        Drive::Off => text::put_bytes(out, at, b"off "),
        Drive::Volts(_) => text::put_word(out, at, code, b' '),
        Drive::Milliamps(_) => text::put_word(out, at, code, b' '),
    }
}

// Puts the result, the shown value and the error, each with a space.
fn put_values(out: &mut [u8], at: usize, l: Live) -> usize
    requires { at + 60 ≤ length out.old }
    ensures { Put out.old at (value_fields l) result out.new }
{
    let reading = l.reading;
    let error = reading.error;
    let p1 = text::put_word(out, at, reading.result, b' ');
    let p2 = text::put_word(out, p1, l.shown, b' ');
    text::put_natural(out, p2, measurement::error_number(error) as u64, b' ')
}

// Puts the outputs, the analog code and the note, and ends the line.
fn put_drives(out: &mut [u8], at: usize, t: &[i32; 104], o: Outcome) -> usize
    requires { at + 46 ≤ length out.old }
    ensures { Put out.old at (drive_fields t.now o) result out.new }
{
    let l = o.live;
    let switches = l.switches;
    let reading = l.reading;
    let drive = reading.drive;
    let p1 = put_outs(out, at, panel::outputs(t, switches));
    let p2 = put_analog(out, p1, drive, reading.code);
    text::put_natural(out, p2, state::note_number(o.note) as u64, b'\n')
}

// Puts what stands on a line from the result to the note, and ends the line.
pub fn put_answer(out: &mut [u8], at: usize, t: &[i32; 104], o: Outcome) -> usize
    requires { at + 88 ≤ length out.old }
    ensures { Put out.old at (answer_text (answer_by t.now o)) result out.new }
{
    let l = o.live;
    let p1 = put_values(out, at, l);
    put_drives(out, p1, t, o)
}

// The largest number that is printed.
const LARGEST: u64 = 999_999_999_999_999_999;

// The count after one more event; it stays at the largest number that is printed.
#[tactic(auto, unfolding(crate::specs::Lines::next_count))]
pub fn next_count(n: u64) -> u64
    ensures { result ≡ next_count n }
{
    n.saturating_add(1).min(LARGEST)
}

// The count after `k` more events; it stays there too.
#[tactic(auto, unfolding(crate::specs::Lines::count_more))]
pub fn count_more(n: u64, k: u32) -> u64
    ensures { result ≡ count_more n k }
{
    let more = k as u64;
    n.saturating_add(more).min(LARGEST)
}

// Puts the first line, which names the fields.
pub fn header_line(out: &mut [u8], at: usize) -> usize
    requires { at + longest ≤ length out.old }
    ensures { Put out.old at header_line result out.new }
{
    text::put_bytes(out, at, b"event kind result shown error outs analog note\n")
}

// Puts the line of an event, with its count and what it leaves: the table and the outcome beside it.
pub fn event_line(
    out: &mut [u8],
    at: usize,
    count: u64,
    e: Event,
    t: &[i32; 104],
    o: Outcome,
) -> usize
    requires { (at + longest ≤ length out.old) × (count ≤ largest) }
    ensures { Put out.old at (event_line count e (answer_by t.now o)) result out.new }
{
    let p1 = text::put_natural(out, at, count, b' ');
    let p2 = put_kind(out, p1, e);
    put_answer(out, p2, t, o)
}

// Puts a load's number and slot, and ends the line.
// Kept: the parameters take any number and slot, also those of a start (`answers::put_start`); a `Refusal` would ask more of callers.
pub fn put_refusal(out: &mut [u8], at: usize, refusal: u32, slot: usize) -> usize
    requires { (at + 40 ≤ length out.old) × (slot ≤ largest) }
    ensures { Put out.old at (refusal_fields refusal slot) result out.new }
{
    let p1 = text::put_natural(out, at, refusal as u64, b' ');
    text::put_natural(out, p1, slot as u64, b'\n')
}

// Puts the line of a refused table.
pub fn load_line(out: &mut [u8], at: usize, refusal: u32, slot: usize) -> usize
    requires { (at + longest ≤ length out.old) × (slot ≤ largest) }
    ensures { Put out.old at (load_line refusal slot) result out.new }
{
    let p1 = text::put_bytes(out, at, b"load ");
    put_refusal(out, p1, refusal, slot)
}

// Puts the last line.
pub fn end_line(out: &mut [u8], at: usize, refusal: u8) -> usize
    requires { at + longest ≤ length out.old }
    ensures { Put out.old at (end_line refusal) result out.new }
{
    let p1 = text::put_bytes(out, at, b"end ");
    text::put_natural(out, p1, refusal as u64, b'\n')
}
