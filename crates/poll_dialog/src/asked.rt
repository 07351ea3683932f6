// One line of poller: what it asks for. Uses `text` for words and `script` for numbers.
// A WORD IS ADDED by a variant of `Asked`, its reason, its function, one `if` of `named`, and a message in `messages`.
ghost use Rattle.std.specs.Prelude.{◌≡◌};
ghost use Rattle.text.specs.Words.{words_of};
ghost use Rattle.poll_dialog.specs.Asked.{join_in, report_in, pick_in, named_of, asked_of, reason_number};

use text::words;

// The most bytes that a line has, its carriage return not counted.
const LONGEST: usize = 1024;

// The highest address that a line names.
const LAST_ADDRESS: u32 = 65535;

// Why a line is no command: its length, its first word, or what stands behind that word.
#[derive(Clone, Copy)]
pub(crate) enum Reason {
    TooLong,
    NoSuchWord,
    BadJoin,
    BadReport,
    BadPick,
}

impl Reason {
    // The number of a reason.
    pub(crate) fn number(self) -> u8
        ensures { result ≡ reason_number self }
    {
        match self {
            Reason::TooLong => 0,
            Reason::NoSuchWord => 1,
            Reason::BadJoin => 2,
            Reason::BadReport => 3,
            Reason::BadPick => 4,
        }
    }
}

// What a line asks for.
#[derive(Clone, Copy)]
pub(crate) enum Asked {
    // Nothing: no word, or a remark.
    Blank,
    // It is no command; `messages` has the message of the reason.
    Wrong(Reason),
    // A panel at this address joins the line.
    Join(u32),
    // The panel at this address reports, true for an error.
    Report(u32, bool),
    // The panel that is polled next.
    Pick,
}

// What `join` and these words ask for.
#[tactic(auto, unfolding(crate::specs::Asked::join_in))]
fn join(s: &[u8]) -> Asked
    ensures { result ≡ join_in (words_of s.now) }
{
    match script::natural(words::only(s), LAST_ADDRESS) {
        Some(a) => Asked::Join(a),
        None => Asked::Wrong(Reason::BadJoin),
    }
}

// What `report` and these words ask for.
fn report(s: &[u8]) -> Asked
    ensures { result ≡ report_in (words_of s.now) }
{
    let n = script::natural(words::word(s), LAST_ADDRESS);
    let v = script::natural(words::only(words::rest(s)), 1);
    match (n, v) {
        (Some(a), Some(e)) => Asked::Report(a, e == 1),
        _ => Asked::Wrong(Reason::BadReport),
    }
}

// What `pick` and these words ask for.
fn pick(s: &[u8]) -> Asked
    ensures { result ≡ pick_in (words_of s.now) }
{
    let extra = words::word(s);
    if extra.len() == 0 {
        return Asked::Pick;
    }
    Asked::Wrong(Reason::BadPick)
}

// The table of words: what a first word and what stands behind it ask for.
fn named(w: &[u8], s: &[u8]) -> Asked
    ensures { result ≡ named_of w.now (words_of s.now) }
{
    if words::same(w, b"join") {
        return join(s);
    }
    if words::same(w, b"report") {
        return report(s);
    }
    if words::same(w, b"pick") {
        return pick(s);
    }
    Asked::Wrong(Reason::NoSuchWord)
}

// What a line asks for. The line comes without its newline; a carriage return at its end is taken off.
pub(crate) fn read(line: &[u8]) -> Asked
    ensures { result ≡ asked_of line.now }
{
    let t = words::trimmed(line);
    if LONGEST < t.len() {
        return Asked::Wrong(Reason::TooLong);
    }
    if t.len() == 0 {
        return Asked::Blank;
    }
    if t[0] == b'#' {
        return Asked::Blank;
    }
    let w = words::word(t);
    if w.len() == 0 {
        return Asked::Blank;
    }
    named(w, words::rest(t))
}
