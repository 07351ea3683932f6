// Runs: lists of events from the fresh state of a loaded table, and what holds of every one.
// Uses `panel` and the crates below it.
#![tactic(auto)]

ghost use Rattle.std.specs.Prelude.{◌≡◌};
ghost use Rattle.state.specs.Valid.{Good};
ghost use Rattle.runs.specs.Run.{last_of, answers_of};
ghost use Rattle.runs.specs.Words.{event_of, events_in};
ghost use Rattle.runs.specs.Ran.{ran_of, Promised};

use events::Event;
use panel::Answer;

// The event that a word stands for: above its lower 32 bits the kind, as in a log: 0 tick, 1 levels, else telegram.
pub fn event_of(w: u64) -> Event
    ensures { result ≡ event_of w }
{
    match w / 4294967296 {
        0 => Event::Tick((w % 65536) as u16),
        1 => Event::Levels((w % 256) as u8),
        _ => Event::Telegram((w % 4294967296) as u32),
    }
}

// The answer to the last of a list of events, from the answer before them.
// Kept: the list is words and no events, as `events_in` of Words has it, which the clauses of `run` name.
fn run_on(a: Answer, log: &[u64]) -> Answer
    requires { Good a.state }
    ensures is { result ≡ last_of a (answers_of a.state (events_in log.now)) }
    ensures valid { Good result.state }
{
    let mut last = a;
    for w in log {
        let s = last.state;
        last = panel::step(s, event_of(*w));
    }
    last
}

// What a run answers.
#[derive(Clone, Copy)]
pub struct Ran {
    // Why the table is refused, none where it loads.
    pub refusal: Option<parameters::Refusal>,
    // The answer to the last event; what the fresh state answers where there is none, of the defaults where the table is refused.
    pub answer: Answer,
}

// Loads a table and runs a list of events from its fresh state; a refused table runs none.
pub fn run(table: &[i32], log: &[u64]) -> Ran
    ensures is { result ≡ ran_of table.now (events_in log.now) }
    ensures demand3 { Promised table.now (events_in log.now) result }
{
    let l = panel::load(table);
    let s = l.state;
    let first = panel::answered(s, None, reading::no_halves());
    if l.refusal.is_some() {
        return Ran {
            refusal: l.refusal,
            answer: first,
        };
    }
    let last = run_on(first, log);
    Ran {
        refusal: None,
        answer: last,
    }
}
