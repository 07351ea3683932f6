// The language of the gate's runs: one line in, what it prints out, and what is kept between lines. The meaning of a line is one definition, `Sheet`.
// Uses `script` for lines that console has too, `logrun` for runs, `panel`, `settings` and `ssi` for questions, `lines` and `text` for what is written;
// `ports` to read and write.
#![tactic(auto)]

mod log_words; // log_words.rt: the words of a log, and a table, as bytes
mod orders; // orders.rt: the word that a line begins with
pub mod reader; // reader.rt: lines from an input

ghost use Rattle.std.specs.Prelude.{◌≡◌, ◌+◌, ◌*◌, ◌≤◌, is_none, length, take};
ghost use Rattle.lines.specs.LineLaws.{longest};
ghost use Rattle.logrun.specs.Progress.{Ready, start_of};
ghost use Rattle.logrun.specs.Input.{table_of};
ghost use Rattle.logrun.specs.Output.{opening_text};
ghost use Rattle.panel.specs.Load.{loaded_of};
ghost use Rattle.parameters.specs.Valid.{Valid};
ghost use Rattle.script.specs.Commands.{command_of};
ghost use Rattle.ssi.specs.Telegram.{number_told};
ghost use Rattle.text.specs.Put.{Put};
ghost use Rattle.sheet.specs.Sheet.{room, fresh_sheet, with_table, with_given, with_run, wrong_line, headed, heading_text, after_start, start_text, after_piece, piece_of, after_log, log_text, after_end, end_text, numbers_text, results_text, build_text, read_text, diagnose_text, extremes_text, question_text, asked_text, after_cut, cut_text, after_event, event_text, after_plain, plain_text, after_word, word_text, after_line, line_text};

use events::Event;
use log_words::{is_log, put_log, put_table};
use logrun::{Opened, Progress};
use orders::{Question, Word};
use script::{Command, frames};
use ssi::Refusal;
use state::{Extremes, State};
use text::words;

// What is kept between lines.
#[derive(Clone, Copy)]
pub struct Sheet {
    // The table of the next start.
    pub table: [i32; 104],
    // How many of its bytes the next start is given.
    pub given: usize,
    // The run; before the first start one of the defaults, as a filler.
    pub progress: Progress,
    // Whether the run awaits more of its log.
    pub running: bool,
}

// What a line leaves.
#[derive(Clone, Copy)]
pub struct Said {
    // What is kept.
    pub sheet: Sheet,
    // Where what is printed ends in the buffer.
    pub end: usize,
}

// Before the first line: the defaults, and no run.
pub fn fresh() -> Sheet
    ensures is { result ≡ fresh_sheet }
    ensures ready { Ready result.progress }
{
    let table = parameters::rows::defaults();
    let s = state::fresh(table);
    Sheet {
        table,
        given: logrun::TABLE_BYTES,
        progress: logrun::start(s),
        running: false,
    }
}

fn with_table(s: Sheet, table: [i32; 104]) -> Sheet
    ensures { result ≡ with_table s table }
{
    Sheet { table, ..s }
}

fn with_given(s: Sheet, given: usize) -> Sheet
    ensures { result ≡ with_given s given }
{
    Sheet { given, ..s }
}

fn with_run(s: Sheet, progress: Progress, running: bool) -> Sheet
    ensures { result ≡ with_run s progress running }
{
    Sheet {
        progress,
        running,
        ..s
    }
}

// A line that is none.
fn wrong(out: &mut [u8]) -> usize
    requires { longest ≤ length out.old }
    ensures { Put out.old 0 wrong_line result out.new }
{
    text::put_bytes(out, 0, b"? no such line\n")
}

// A run's name: the line is printed, and the table is the defaults again.
fn heading(s: Sheet, line: &[u8], out: &mut [u8]) -> Said
    requires { length line.now + 1 ≤ length out.old }
    ensures is { result.sheet ≡ headed s }
    ensures text { Put out.old 0 (heading_text line.now) result.end out.new }
{
    let p1 = text::put_bytes(out, 0, line);
    let end = text::put_bytes(out, p1, b"\n");
    let progress = s.progress;
    let sheet = Sheet {
        table: parameters::rows::defaults(),
        given: logrun::TABLE_BYTES,
        progress,
        running: false,
    };
    Said { sheet, end }
}

// The first n bytes of a table, or all of them where there are no more, as panelrun takes them.
fn opened(bytes: &[u8], n: usize, out: &mut [u8]) -> Opened
    requires { longest ≤ length out.old }
    ensures is { result.progress ≡ start_of (loaded_of (table_of (take n bytes.now))).state }
    ensures loads { result.loaded ≡ is_none (loaded_of (table_of (take n bytes.now))).refusal }
    ensures text { Put out.old 0 (opening_text (loaded_of (table_of (take n bytes.now)))) result.end out.new }
{
    logrun::open(&bytes[..n.min(bytes.len())], out)
}

// The table's bytes, or as many of them as are given, are loaded.
fn start(s: Sheet, out: &mut [u8]) -> Said
    requires { longest ≤ length out.old }
    ensures is { result.sheet ≡ after_start s }
    ensures text { Put out.old 0 (start_text s) result.end out.new }
{
    let mut bytes = [0u8; 416];
    let t = s.table;
    put_table(&mut bytes, &t);
    let n = s.given;
    let o = opened(&bytes, n, out);
    let progress = o.progress;
    let end = o.end;
    let sheet = with_run(s, progress, o.loaded);
    Said { sheet, end }
}

// A piece of the log, where a run awaits it.
fn piece(s: Sheet, bytes: &[u8], full: usize, out: &mut [u8]) -> Said
    requires { Ready s.progress × (32 * length bytes.now + longest ≤ length out.old) }
    ensures is { result.sheet ≡ after_piece «full» s bytes.now }
    ensures text { Put out.old 0 (piece_of «full» s bytes.now) result.end out.new }
{
    if !s.running {
        return Said { sheet: s, end: 0 };
    }
    let p = s.progress;
    let r = logrun::run_piece(p, bytes, full, out);
    let next = r.progress;
    let end = r.end;
    let sheet = with_run(s, next, r.more);
    Said { sheet, end }
}

// `log` and words: a full piece.
fn log(s: Sheet, line: &[u8], out: &mut [u8]) -> Said
    requires { Ready s.progress × (room ≤ length out.old) }
    ensures is { result.sheet ≡ after_log s line.now }
    ensures text { Put out.old 0 (log_text s line.now) result.end out.new }
{
    let t = words::rest(line);
    if is_log(t) {
        let mut bytes = [0u8; 400];
        let n = put_log(&mut bytes, t);
        return piece(s, &bytes[..n], 0, out);
    }
    let end = wrong(out);
    Said { sheet: s, end }
}

// `end` and bytes: the last piece, which is not full.
fn last(s: Sheet, line: &[u8], out: &mut [u8]) -> Said
    requires { Ready s.progress × (room ≤ length out.old) }
    ensures is { result.sheet ≡ after_end s line.now }
    ensures text { Put out.old 0 (end_text s line.now) result.end out.new }
{
    let f = frames::frame(line);
    let bytes = f.bytes;
    let n = f.length;
    piece(s, &bytes[..n], 301, out)
}

// Puts three numbers.
fn put_numbers(out: &mut [u8], at: usize, a: u32, b: u32, c: u32) -> usize
    requires { at + 60 ≤ length out.old }
    ensures { Put out.old at (numbers_text a b c) result out.new }
{
    let p1 = text::put_natural(out, at, a as u64, b' ');
    let p2 = text::put_natural(out, p1, b as u64, b' ');
    text::put_natural(out, p2, c as u64, b'\n')
}

// Puts whether there are a least and a greatest result, and they.
fn put_results(out: &mut [u8], at: usize, any: u32, least: i32, greatest: i32) -> usize
    requires { at + 60 ≤ length out.old }
    ensures { Put out.old at (results_text any least greatest) result out.new }
{
    let p1 = text::put_natural(out, at, any as u64, b' ');
    let p2 = text::put_word(out, p1, least, b' ');
    text::put_word(out, p2, greatest, b'\n')
}

// The number of a refusal, 0 for none.
fn number_told(refusal: Option<Refusal>) -> u32
    ensures { result ≡ number_told refusal }
{
    match refusal {
        None => 0,
        Some(r) => r.number(),
    }
}

// The telegram of a position under a table.
fn build(t: &[i32; 104], position: u32, error: bool, out: &mut [u8]) -> usize
    requires { Valid t.now × (longest ≤ length out.old) }
    ensures { Put out.old 0 (build_text t.now position error) result out.new }
{
    let b = panel::build(t, position, error);
    let p1 = text::put_bytes(out, 0, b"build ");
    put_numbers(out, p1, position, number_told(b.refusal), b.telegram)
}

// What a telegram says under a table.
fn content(t: &[i32; 104], telegram: u32, out: &mut [u8]) -> usize
    requires { Valid t.now × (longest ≤ length out.old) }
    ensures { Put out.old 0 (read_text t.now telegram) result out.new }
{
    let r = ssi::content_of(settings::layout(t), telegram);
    let p1 = text::put_bytes(out, 0, b"read ");
    put_numbers(out, p1, number_told(r.refusal), r.position, r.error as u32)
}

// The diagnosis of a telegram under a table.
fn diagnosis(t: &[i32; 104], telegram: u32, out: &mut [u8]) -> usize
    requires { Valid t.now × (longest ≤ length out.old) }
    ensures { Put out.old 0 (diagnose_text t.now telegram) result out.new }
{
    let d = panel::diagnose(t, telegram);
    let p1 = text::put_bytes(out, 0, b"diagnose ");
    put_numbers(out, p1, number_told(d.refusal), d.turns, d.place)
}

// Least and greatest.
fn extremes(x: Extremes, out: &mut [u8]) -> usize
    requires { longest ≤ length out.old }
    ensures { Put out.old 0 (extremes_text x) result out.new }
{
    let p1 = text::put_bytes(out, 0, b"extremes ");
    put_results(out, p1, x.any as u32, x.least, x.greatest)
}

// Least and greatest of the run.
fn extremes_of(s: Sheet) -> Extremes
    ensures { result ≡ s.progress.state.live.extremes }
{
    let p = s.progress;
    let state = p.state;
    let live = state.live;
    live.extremes
}

// The table in force.
fn in_force(s: Sheet) -> [i32; 104]
    ensures { result ≡ s.progress.state.table }
{
    let p = s.progress;
    let state = p.state;
    state.table
}

// A question under a table.
fn answer(t: &[i32; 104], q: Question, n: u32, out: &mut [u8]) -> usize
    requires { Valid t.now × (longest ≤ length out.old) }
    ensures { Put out.old 0 (question_text t.now q n) result out.new }
{
    match q {
        Question::Build => build(t, n, false, out),
        Question::Fault => build(t, n, true, out),
        Question::Read => content(t, n, out),
        Question::Diagnose => diagnosis(t, n, out),
    }
}

// A question, whose number stands behind its word.
fn asked(s: Sheet, q: Question, line: &[u8], out: &mut [u8]) -> usize
    requires { Ready s.progress × (longest ≤ length out.old) }
    ensures { Put out.old 0 (asked_text s q line.now) result out.new }
{
    let n = script::natural(words::only(words::rest(line)), 4294967295);
    match n {
        Some(k) => {
            let table = in_force(s);
            answer(&table, q, k, out)
        }
        None => wrong(out),
    }
}

// A line that a sheet has no use for: it is told, and changes nothing.
fn unknown(s: Sheet, out: &mut [u8]) -> Said
    requires { longest ≤ length out.old }
    ensures is { result.sheet ≡ s }
    ensures text { Put out.old 0 wrong_line result.end out.new }
{
    Said {
        sheet: s,
        end: wrong(out),
    }
}

// `cut` and a number.
fn cut(s: Sheet, line: &[u8], out: &mut [u8]) -> Said
    requires { longest ≤ length out.old }
    ensures is { result.sheet ≡ after_cut s line.now }
    ensures text { Put out.old 0 (cut_text line.now) result.end out.new }
{
    let n = script::natural(words::only(words::rest(line)), 4294967295);
    match n {
        Some(k) => Said {
            sheet: with_given(s, k as usize),
            end: 0,
        },
        None => Said {
            sheet: s,
            end: wrong(out),
        },
    }
}

// An event that the panel is stepped with directly.
fn event(s: Sheet, e: Event, out: &mut [u8]) -> Said
    requires { Ready s.progress × (longest ≤ length out.old) }
    ensures is { result.sheet ≡ after_event s e }
    ensures text { Put out.old 0 (event_text s e) result.end out.new }
{
    let p = s.progress;
    let before = p.state;
    let mut table = before.table;
    let l = before.live;
    let o = panel::advance(&mut table, l, e);
    let live = o.live;
    let count = lines::next_count(p.count);
    let end = lines::event_line(out, 0, count, e, &table, o);
    let pending = p.pending;
    let progress = Progress {
        state: State { table, live },
        pending,
        count,
        refusal: None,
    };
    let sheet = with_run(s, progress, s.running);
    Said { sheet, end }
}

// A line of `script`.
fn plain(s: Sheet, line: &[u8], out: &mut [u8]) -> Said
    requires { Ready s.progress × (longest ≤ length out.old) }
    ensures is { result.sheet ≡ after_plain s (command_of line.now) }
    ensures text { Put out.old 0 (plain_text s (command_of line.now)) result.end out.new }
{
    let command = script::read(line);
    match command {
        Command::Blank => Said { sheet: s, end: 0 },
        Command::Slot(slot, z) => {
            let table = s.table;
            Said {
                sheet: with_table(s, parameters::changed(table, slot, z)),
                end: 0,
            }
        }
        Command::Start => start(s, out),
        Command::Telegram(w) => event(s, Event::Telegram(w), out),
        Command::Levels(x) => event(s, Event::Levels(x), out),
        Command::Tick(ms) => event(s, Event::Tick(ms), out),
        Command::Wrong(_) => unknown(s, out),
        Command::Node(_) => unknown(s, out),
        Command::Halves => unknown(s, out),
        Command::Record => unknown(s, out),
        Command::Burst => unknown(s, out),
        Command::Frame => unknown(s, out),
    }
}

// What a line's first word asks for, done.
fn done(s: Sheet, line: &[u8], word: Word, out: &mut [u8]) -> Said
    requires { Ready s.progress × (length line.now ≤ 1024) × (room ≤ length out.old) }
    ensures is { result.sheet ≡ after_word s line.now word }
    ensures text { Put out.old 0 (word_text s line.now word) result.end out.new }
{
    match word {
        Word::Plain => plain(s, line, out),
        Word::Heading => heading(s, line, out),
        Word::Log => log(s, line, out),
        Word::End => last(s, line, out),
        Word::Cut => cut(s, line, out),
        Word::Extremes => Said {
            sheet: s,
            end: extremes(extremes_of(s), out),
        },
        Word::Asked(q) => Said {
            sheet: s,
            end: asked(s, q, line, out),
        },
    }
}

// One line, without its newline: what is kept after it, and what is printed, at the start of the buffer.
pub fn line(s: Sheet, bytes: &[u8], out: &mut [u8]) -> Said
    requires { Ready s.progress × (room ≤ length out.old) }
    ensures is { result.sheet ≡ after_line s bytes.now }
    ensures text { Put out.old 0 (line_text s bytes.now) result.end out.new }
    ensures ready { Ready result.sheet.progress }
    ensures within { result.end ≤ length out.new }
{
    if 1024 < bytes.len() {
        return Said {
            sheet: s,
            end: wrong(out),
        };
    }
    let word = orders::named(words::word(bytes));
    done(s, bytes, word, out)
}
