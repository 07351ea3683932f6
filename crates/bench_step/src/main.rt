// Runs the events of a log through `panel::advance` again and again, for bench/run to time, and prints a sum over all answers.
// Standard input: an input of panelrun with at most 8,192 words of log. Argument: how often the log is run.
// Uses `logrun` and `events` to read the input, `panel` for the steps on the values of `state`, `runs` for the words that stand for events, `measurement` and `analog` for error and drive, `driverecord` for the record,
// `timing` for the argument and the sum, and `ports` to read.
#![tactic(auto)]

ghost use Rattle.std.specs.Prelude.{◌*◌, ◌≤◌, length};
ghost use Rattle.state.specs.State.{state_of};
ghost use Rattle.state.specs.Valid.{Good};

use analog::Drive;
use events::Event;
use state::{Live, Outcome, State};
use timing::{Summed, raised, record_part, rounds};

// The word that stands for an event.
fn word_of(e: Event) -> u64 {
    match e {
        Event::Telegram(w) => 0x2_0000_0000 + w as u64,
        Event::Levels(l) => 0x1_0000_0000 + l as u64,
        Event::Tick(ms) => ms as u64,
    }
}

// The events of a log, as words that stand for them; says how many they are.
fn collect(log: &[u8], events: &mut [u64]) -> usize
    requires { length log.now ≤ 4 * length events.old }
    ensures { result ≤ length events.new }
{
    let mut pending = events::fresh();
    let mut count: usize = 0;
    for word in log.chunks_exact(4) {
        let w = events::word_at(word[0], word[1], word[2], word[3]);
        let s = events::take(pending, w);
        pending = s.pending;
        if let Ok(Some(e)) = s.taken {
            events[count] = word_of(e);
            count += 1;
        }
    }
    count
}

// A number for each kind of drive, by its size.
fn drive_part(d: Drive) -> u64
    ensures { result ≤ 5 }
{
    match d {
        Drive::Off => 1,
        Drive::Volts(x) => 2 + u64::from(5.0 < x),
        Drive::Milliamps(x) => 4 + u64::from(12.0 < x),
    }
}

// The levels of the outputs as a number.
fn outs_part(outs: [bool; 4]) -> u64
    ensures { result ≤ 15 }
{
    u64::from(outs[0]) + 2 * u64::from(outs[1]) + 4 * u64::from(outs[2]) + 8 * u64::from(outs[3])
}

// What an answer adds to the sum.
fn part(t: &[i32; 104], o: Outcome) -> u64 {
    let l = o.live;
    let reading = l.reading;
    let error = reading.error;
    let drive = reading.drive;
    let switches = l.switches;
    let values = raised(reading.result) + 3 * raised(l.shown);
    let rest = 7 * outs_part(panel::outputs(t, switches)) + 11 * drive_part(drive);
    let told = 13 * u64::from(state::note_number(o.note))
        + 17 * u64::from(reading::halves_number(o.halves));
    values + rest + 5 * u64::from(measurement::error_number(error)) + told
}

// One run of the events. The record is added when it has ended, so that its upkeep is timed and not its reading.
fn run_once(t: &mut [i32; 104], x: Summed<Live>, words: &[u64]) -> Summed<Live>
    requires { Good (state_of t.old x.live) }
    ensures { Good (state_of t.new result.live) }
{
    let mut live = x.live;
    let mut sum = x.sum;
    for w in words {
        let o = panel::advance(t, live, runs::event_of(*w));
        sum = sum.wrapping_add(part(t, o));
        live = o.live;
    }
    let driven = live.driven;
    Summed {
        live,
        sum: sum.wrapping_add(record_part(driven)),
    }
}

// The sum over the answers to the events, run again and again.
fn repeated(s: State, words: &[u64], rounds: u64) -> u64
    requires { Good s }
{
    let mut table = s.table;
    let l = s.live;
    let mut x = Summed { live: l, sum: 0 };
    for _ in 0..rounds {
        x = run_once(&mut table, x, words);
    }
    x.sum
}

fn main(rt: HostRuntime) {
    let mut input = rt.stdin();
    let mut output = rt.stdout();
    let mut table = [0u8; 416];
    let n = ports::read_full(&mut input, &mut table);
    let l = logrun::load(&table[..n]);
    let mut log = [0u8; 32768];
    let m = ports::read_full(&mut input, &mut log);
    let mut words = [0u64; 8192];
    let count = collect(&log[..m], &mut words);
    let s = l.state;
    let sum = repeated(s, &words[..count], rounds(&rt));
    timing::tell(&mut output, sum);
}
