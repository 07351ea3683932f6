// A log run to its lines, a piece at a time: the table from its bytes, the events stepped, their lines put into a lent buffer.
// Uses `integers` for signed words, `events` for the log's words, `panel` for the steps on the values of `state`, and `lines` for what is printed.
#![tactic(auto)]

ghost use Rattle.std.specs.Prelude.{◌≡◌, ◌+◌, ◌*◌, ◌≤◌, is_none, length, eqb};
ghost use Rattle.events.specs.Bytes.{words_in};
ghost use Rattle.events.specs.Log.{end_number};
ghost use Rattle.lines.specs.Lines.{end_line};
ghost use Rattle.lines.specs.LineLaws.{longest};
ghost use Rattle.text.specs.Put.{Put};
ghost use Rattle.panel.specs.Load.{loaded_of};
ghost use Rattle.state.specs.Valid.{Good};
ghost use Rattle.logrun.specs.Input.{table_bytes, table_of};
ghost use Rattle.logrun.specs.Output.{opening_text};
ghost use Rattle.logrun.specs.Pieces.{goes_on, piece_text};
ghost use Rattle.logrun.specs.Progress.{start_of, course_of, progress_of, after_taken, text_taken, word_fed, word_text, words_fed, words_text, finished_of, Ready};

use events::{Event, Pending, Refusal};
use integers::twos_complement;
use panel::Loaded;
use state::{Live, State};

// The bytes of a table.
pub const TABLE_BYTES: usize = 416;

// How far a run has come.
#[derive(Clone, Copy)]
pub struct Progress {
    // The state of the panel.
    pub state: State,
    // The upper half that may be waiting.
    pub pending: Pending,
    // How many events there were.
    pub count: u64,
    // The refusal that ended the log, none while it runs.
    pub refusal: Option<Refusal>,
}

// How far a run has come, beside the table.
#[derive(Clone, Copy)]
struct Course {
    // The live values of the panel.
    live: Live,
    // The upper half that may be waiting.
    pending: Pending,
    // How many events there were.
    count: u64,
    // The refusal that ended the log, none while it runs.
    refusal: Option<Refusal>,
}

// What words of the log give.
#[derive(Clone, Copy)]
struct Printed<T> {
    // The run after them, as a progress or a course.
    run: T,
    // Where the lines end in the buffer.
    end: usize,
}

// What a piece of the log gives.
#[derive(Clone, Copy)]
pub struct Piece {
    // The run after it.
    pub progress: Progress,
    // Where the lines end in the buffer.
    pub end: usize,
    // Whether the run goes on behind it.
    pub more: bool,
}

// What the table gives.
#[derive(Clone, Copy)]
pub struct Opened {
    // The run before the first word, of the defaults where the table is refused.
    pub progress: Progress,
    // Whether the table loads.
    pub loaded: bool,
    // Where the line ends in the buffer.
    pub end: usize,
}

// The words of a table.
fn table_of(bytes: &[u8]) -> [i32; 104]
    requires { table_bytes ≤ length bytes.now }
    ensures { result ≡ table_of bytes.now }
{
    let mut t = [0i32; 104];
    for (k, word) in bytes[..TABLE_BYTES].chunks_exact(4).enumerate() {
        t[k] = twos_complement::signed(events::word_at(word[0], word[1], word[2], word[3]));
    }
    t
}

// Loads the table from the start of the input; fewer bytes than a table has are refused with 1.
pub fn load(bytes: &[u8]) -> Loaded
    ensures is { result ≡ loaded_of (table_of bytes.now) }
    ensures valid { Good result.state }
{
    if bytes.len() < TABLE_BYTES {
        return panel::load(&[0i32; 1]);
    }
    let t = table_of(bytes);
    panel::load(&t)
}

// The run before the first word.
pub fn start(s: State) -> Progress
    requires { Good s }
    ensures is { result ≡ start_of s }
    ensures ready { Ready result }
{
    Progress {
        state: s,
        pending: events::fresh(),
        count: 0,
        refusal: None,
    }
}

// Loads the table from the start of the input, and puts the header, or the line of its refusal.
pub fn open(bytes: &[u8], out: &mut [u8]) -> Opened
    requires { longest ≤ length out.old }
    ensures is { result.progress ≡ start_of (loaded_of (table_of bytes.now)).state }
    ensures loads { result.loaded ≡ is_none (loaded_of (table_of bytes.now)).refusal }
    ensures text { Put out.old 0 (opening_text (loaded_of (table_of bytes.now))) result.end out.new }
    ensures ready { Ready result.progress }
    ensures within { result.end ≤ length out.new }
{
    let l = load(bytes);
    let s = l.state;
    let p = start(s);
    match l.refusal {
        None => {
            let end = lines::header_line(out, 0);
            Opened {
                progress: p,
                loaded: true,
                end,
            }
        }
        Some(refusal) => {
            let end = lines::load_line(out, 0, refusal.number(), refusal.slot());
            Opened {
                progress: p,
                loaded: false,
                end,
            }
        }
    }
}

// A run's course, of its progress.
fn course_of(p: Progress) -> Course
    ensures { result ≡ course_of p }
{
    let s = p.state;
    let live = s.live;
    let pending = p.pending;
    Course {
        live,
        pending,
        count: p.count,
        refusal: p.refusal,
    }
}

// A run's progress, of its table and its course.
fn progress_of(table: [i32; 104], c: Course) -> Progress
    ensures { result ≡ progress_of table c }
{
    let live = c.live;
    let pending = c.pending;
    Progress {
        state: State { table, live },
        pending,
        count: c.count,
        refusal: c.refusal,
    }
}

// An event: the panel steps, and the line is put.
fn event(
    t: &mut [i32; 104],
    c: Course,
    pending: Pending,
    e: Event,
    out: &mut [u8],
    at: usize,
) -> Printed<Course>
    requires { Ready (progress_of t.old c) × (at + longest ≤ length out.old) }
    ensures is { progress_of t.new result.run ≡ after_taken (progress_of t.old c) pending (Ok (Some e)) }
    ensures text { Put out.old at (text_taken (progress_of t.old c) (Ok (Some e))) result.end out.new }
{
    let count = lines::next_count(c.count);
    let l = c.live;
    let o = panel::advance(t, l, e);
    let live = o.live;
    let end = lines::event_line(out, at, count, e, t, o);
    Printed {
        run: Course {
            live,
            pending,
            count,
            refusal: None,
        },
        end,
    }
}

// A word that has no line: an upper half, or a word that is refused.
fn quiet(c: Course, pending: Pending, refusal: Option<Refusal>, at: usize) -> Printed<Course>
    ensures { result ≡ record { run = record { live = c.live; pending = pending; count = c.count; refusal = refusal }; end = at } }
{
    let live = c.live;
    Printed {
        run: Course {
            live,
            pending,
            count: c.count,
            refusal,
        },
        end: at,
    }
}

// One word of the log, its line put at `at`.
fn take(t: &mut [i32; 104], c: Course, w: u32, out: &mut [u8], at: usize) -> Printed<Course>
    requires { Ready (progress_of t.old c) × (at + longest ≤ length out.old) }
    ensures is { progress_of t.new result.run ≡ word_fed (progress_of t.old c) w }
    ensures text { Put out.old at (word_text (progress_of t.old c) w) result.end out.new }
    ensures ready { Ready (progress_of t.new result.run) }
{
    if c.refusal.is_some() {
        return Printed { run: c, end: at };
    }
    let s = events::take(c.pending, w);
    match s.taken {
        Ok(Some(e)) => event(t, c, s.pending, e, out, at),
        Ok(None) => quiet(c, s.pending, None, at),
        Err(refusal) => quiet(c, s.pending, Some(refusal), at),
    }
}

// The whole words of a piece of the log, their lines put at the start of the buffer.
fn words(t: &mut [i32; 104], c: Course, bytes: &[u8], out: &mut [u8]) -> Printed<Course>
    requires { Ready (progress_of t.old c) × (32 * length bytes.now ≤ length out.old) }
    ensures is { progress_of t.new result.run ≡ words_fed (progress_of t.old c) (words_in bytes.now) }
    ensures text { Put out.old 0 (words_text (progress_of t.old c) (words_in bytes.now)) result.end out.new }
    ensures ready { Ready (progress_of t.new result.run) }
    ensures within { result.end ≤ length out.new }
{
    let mut course = c;
    let mut end: usize = 0;
    for word in bytes.chunks_exact(4) {
        let w = events::word_at(word[0], word[1], word[2], word[3]);
        let r = take(t, course, w, out, end);
        course = r.run;
        end = r.end;
    }
    Printed { run: course, end }
}

// The whole words of a piece of the log, from the run so far.
fn feed(p: Progress, bytes: &[u8], out: &mut [u8]) -> Printed<Progress>
    requires { Ready p × (32 * length bytes.now ≤ length out.old) }
    ensures is { result.run ≡ words_fed p (words_in bytes.now) }
    ensures text { Put out.old 0 (words_text p (words_in bytes.now)) result.end out.new }
    ensures ready { Ready result.run }
    ensures within { result.end ≤ length out.new }
{
    let s = p.state;
    let mut table = s.table;
    let r = words(&mut table, course_of(p), bytes, out);
    Printed {
        run: progress_of(table, r.run),
        end: r.end,
    }
}

// How the run ends, with the bytes left over behind the last whole word.
fn finished(p: Progress, left_over: usize) -> Result<(), Refusal>
    ensures { result ≡ finished_of p left_over }
{
    match p.refusal {
        Some(refusal) => Err(refusal),
        None => events::end(p.pending, left_over),
    }
}

// The number of an end, 0 where it is no refusal.
fn number_of(end: Result<(), Refusal>) -> u8
    ensures { result ≡ end_number end }
{
    match end {
        Ok(()) => 0,
        Err(refusal) => refusal.number(),
    }
}

// The last line.
pub fn finish(p: Progress, left_over: usize, out: &mut [u8], at: usize) -> usize
    requires { at + longest ≤ length out.old }
    ensures text { Put out.old at (end_line (end_number (finished_of p left_over))) result out.new }
    ensures within { result ≤ length out.new }
{
    lines::end_line(out, at, number_of(finished(p, left_over)))
}

// A piece of the log, read into a room of `full` bytes: the lines of its whole words, and the last line where the run ends in it, by a
// refusal or because the piece is not full. The last line stands behind the others.
pub fn run_piece(p: Progress, bytes: &[u8], full: usize, out: &mut [u8]) -> Piece
    requires { Ready p × (32 * length bytes.now + longest ≤ length out.old) }
    ensures is { result.progress ≡ words_fed p (words_in bytes.now) }
    ensures goes { result.more ≡ goes_on «full» p bytes.now }
    ensures text { Put out.old 0 (piece_text «full» p bytes.now) result.end out.new }
    ensures ready { Ready result.progress }
    ensures within { result.end ≤ length out.new }
{
    let f = feed(p, bytes, out);
    let next = f.run;
    let end = f.end;
    if next.refusal.is_none() & (full <= bytes.len()) {
        return Piece {
            progress: next,
            end,
            more: true,
        };
    }
    let last = finish(next, bytes.len() % 4, out, end);
    Piece {
        progress: next,
        end: last,
        more: false,
    }
}
