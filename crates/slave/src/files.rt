// What the inputs of the slave do: a line of TABLE to a table, a line of EVENTS and a frame to a panel.
// Uses the commands of `script`, the slots of `parameters`, `events` and `panel` for events, and `framing` and `registers` for frames, on the values of `state`.
ghost use Rattle.std.specs.Prelude.{◌≡◌, ◌≤◌, IfSome};
ghost use Rattle.state.specs.Valid.{Good};
ghost use Rattle.modbus.specs.Replies.{longest_reply};
ghost use Rattle.slave.specs.Files.{listed_of, moved_of, stepped_of, replied_of};

use events::Event;
use framing::Collector;
use modbus::replies::Reply;
use script::Command;
use state::State;

// A panel after a frame.
#[derive(Clone, Copy)]
pub struct Replied {
    // The panel.
    pub state: State,
    // The reply's bytes, none where no reply is due.
    pub reply: Reply,
}

// A table after a line; none where the line is none of TABLE.
pub fn table_line(t: [i32; 104], c: Command) -> Option<[i32; 104]>
    ensures { result ≡ listed_of t c }
{
    match c {
        Command::Blank => Some(t),
        Command::Slot(n, z) => Some(parameters::changed(t, n, z)),
        _ => None,
    }
}

// A panel after an event.
fn moved(s: State, e: Event) -> State
    requires { Good s }
    ensures is { result ≡ moved_of s e }
    ensures valid { Good result }
{
    let mut table = s.table;
    let l = s.live;
    let o = panel::advance(&mut table, l, e);
    let live = o.live;
    State { table, live }
}

// A panel after a line; none where the line is none of EVENTS.
pub fn event_line(s: State, c: Command) -> Option<State>
    requires { Good s }
    ensures is { result ≡ stepped_of s c }
    ensures valid { IfSome result (λ x. Good x) }
{
    match c {
        Command::Blank => Some(s),
        Command::Telegram(w) => Some(moved(s, Event::Telegram(w))),
        Command::Levels(l) => Some(moved(s, Event::Levels(l))),
        Command::Tick(ms) => Some(moved(s, Event::Tick(ms))),
        _ => None,
    }
}

// The frame that the serial line holds.
pub fn frame(node: u8, s: State, line: &Collector) -> Replied
    requires { Good s }
    ensures is { result ≡ replied_of node s line.now }
    ensures valid { Good result.state }
    ensures fits { result.reply.length ≤ longest_reply }
{
    let mut table = s.table;
    let l = s.live;
    let n = line.held_length();
    let r = registers::answer(node, &mut table, l, &line.bytes[..n]);
    let live = r.live;
    let reply = r.reply;
    Replied {
        state: State { table, live },
        reply,
    }
}
