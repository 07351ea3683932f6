// The panel as a Modbus slave on a serial line: `slave NODE TABLE [EVENTS]`, the line on standard input and output.
// TABLE has `slot` lines, EVENTS `t`, `i` and `c` lines. Uses `framing` to find frames, `registers` to start and to answer on the values of `state`,
// `script` for lines, `parameters` for the defaults, `decimal` for NODE, and `ports` to read and write.
#![tactic(auto)]

ghost use Rattle.std.specs.Prelude.{◌≡◌, ◌≤◌};
ghost use Rattle.state.specs.Valid.{Good};
ghost use Rattle.modbus.specs.Replies.{longest_reply};
ghost use Rattle.slave.specs.Files.{listed_of, after_line};

use framing::Collector;
use modbus::replies::Reply;
use script::Command;
use state::State;
use std::env::Env;
use std::fs::File;
use std::io::{IsTerminal, Read, Stderr, Stdin, Stdout};
use stream::Stream;

mod files; // files.rt: what a line of TABLE or EVENTS and a frame do
mod stream; // stream.rt: the lines of a file or a terminal

// What the slave reads and writes.
#[derive(Drop)]
struct Wires {
    // The serial line.
    input: Stdin,
    output: Stdout,
    // Where it says what is wrong.
    errors: Stderr,
    // The file of EVENTS, if there is one.
    events: Option<File>,
}

// The slave between two reads of the serial line.
#[derive(Clone, Copy)]
struct Slave {
    // Its node address.
    node: u8,
    // Its panel.
    state: State,
    // The lines of EVENTS.
    events: Stream,
    // The bytes of the serial line since its last frame.
    line: Collector,
}

// The table after a line of TABLE; one that is wrong is told, and gives none.
fn take_row(
    words: [i32; 104],
    command: Command,
    lines: &Stream,
    errors: &mut Stderr,
) -> Option<[i32; 104]>
    ensures { result ≡ listed_of words command }
{
    let next = files::table_line(words, command);
    if next.is_none() {
        lines.refuse(b"TABLE", errors);
    }
    next
}

// The table that a file of `slot` lines gives: what is not named is the default. None where a line is refused or a read fails, which is told.
fn read_table(mut file: File, path: &[u8], errors: &mut Stderr) -> Option<[i32; 104]> {
    let mut words = parameters::rows::defaults();
    let mut s = Stream::fresh();
    for _ in 0..u64::MAX {
        match s.next(&mut file) {
            Ok(Some(command)) => words = take_row(words, command, &s, errors)?,
            Ok(None) => return Some(words),
            Err(e) => {
                ports::write_failure(errors, path, e);
                return None;
            }
        }
    }
    Some(words)
}

// Writes a reply at once, and says whether it went out.
fn send(reply: Reply, output: &mut Stdout) -> bool
    requires { reply.length ≤ longest_reply }
{
    let n = reply.length;
    ports::write_all(output, &reply.bytes[..n])
}

impl Slave {
    // Takes a line of EVENTS; one that is wrong is told, and changes nothing.
    fn take_event(&mut self, command: Command, errors: &mut Stderr)
        requires { Good self.old.state }
        ensures is { self.new ≡ record self.old { state = after_line self.old.state command } }
        ensures valid { Good self.new.state }
    {
        match files::event_line(self.state, command) {
            Some(state) => self.state = state,
            None => self.events.refuse(b"EVENTS", errors),
        }
    }

    // Takes all lines of EVENTS that are there.
    fn drain(&mut self, file: &mut File, errors: &mut Stderr)
        requires { Good self.old.state }
        ensures node { self.new.node ≡ self.old.node }
        ensures line { self.new.line ≡ self.old.line }
        ensures valid { Good self.new.state }
    {
        for _ in 0..u64::MAX {
            match self.events.next(file) {
                Ok(Some(command)) => self.take_event(command, errors),
                _ => return,
            }
        }
    }

    // The same where there may be no EVENTS.
    fn take_events(&mut self, wires: &mut Wires)
        requires { Good self.old.state }
        ensures node { self.new.node ≡ self.old.node }
        ensures line { self.new.line ≡ self.old.line }
        ensures valid { Good self.new.state }
    {
        if let Some(file) = &mut wires.events {
            self.drain(file, &mut wires.errors);
        }
    }

    // Answers the frame that the serial line holds, from the panel after the events that are there. Says whether the reply went out.
    fn answer(&mut self, wires: &mut Wires) -> bool
        requires { Good self.old.state }
        ensures { Good self.new.state }
    {
        self.take_events(wires);
        let r = files::frame(self.node, self.state, &self.line);
        self.state = r.state;
        send(r.reply, &mut wires.output)
    }

    // Takes bytes of the line; a frame that has ended is answered. Says whether the last reply went out.
    fn take_bytes(&mut self, bytes: &[u8], wires: &mut Wires) -> bool
        requires { Good self.old.state }
        ensures { Good self.new.state }
    {
        let mut more = true;
        let mut at: usize = 0;
        while at < bytes.len() {
            at = self.line.feed(self.node, bytes, at);
            if self.line.ended {
                more = self.answer(wires);
            }
        }
        more
    }

    // Takes a silence of the line: a terminal only pauses, a file has ended. The events are taken here too, so that they do not pile up while
    // nobody asks, and a wrong line is named soon.
    fn take_silence(&mut self, wires: &mut Wires) -> bool
        requires { Good self.old.state }
        ensures { Good self.new.state }
    {
        self.take_events(wires);
        self.line.silence();
        let more = !self.line.ended || self.answer(wires);
        wires.input.is_terminal() && more
    }

    // One read of the line. Says whether the slave goes on.
    fn read(&mut self, wires: &mut Wires) -> bool
        requires { Good self.old.state }
        ensures { Good self.new.state }
    {
        let mut bytes = [0u8; 256];
        match wires.input.read(&mut bytes) {
            Ok(0) => self.take_silence(wires),
            Ok(n) => self.take_bytes(&bytes[..n], wires),
            Err(_) => false,
        }
    }
}

// Serves the line to its end, a read a turn. There are more turns than any line uses up.
fn serve(node: u8, state: State, wires: &mut Wires)
    requires { Good state }
{
    let mut slave = Slave {
        node,
        state,
        events: Stream::fresh(),
        line: Collector::fresh(),
    };
    for _ in 0..u64::MAX {
        if !slave.read(wires) {
            return;
        }
    }
}

// Serves with the events of argument 3, or with none.
fn open_events(node: u8, state: State, rt: HostRuntime)
    requires { Good state }
{
    let mut wires = Wires {
        input: rt.stdin(),
        output: rt.stdout(),
        errors: rt.stderr(),
        events: None,
    };
    if !ports::has_arg(&rt, 3) {
        serve(node, state, &mut wires);
        return;
    }
    let mut path = [0u8; 4096];
    let n = ports::arg(&rt, 3, &mut path);
    match ports::open_read(&rt, &path[..n]) {
        Ok(file) => {
            wires.events = Some(file);
            serve(node, state, &mut wires);
        }
        Err(e) => ports::write_failure(&mut wires.errors, &path[..n], e),
    }
}

// Starts the panel, or says why it does not start.
fn start(node: u32, words: [i32; 104], rt: HostRuntime) {
    let l = registers::start(node, &words);
    if let Some(refusal) = l.refusal {
        let mut errors = rt.stderr();
        ports::write_all(&mut errors, b"slave: start ");
        ports::print_decimal(&mut errors, refusal.number() as u64);
        ports::write_all(&mut errors, b" ");
        ports::print_decimal(&mut errors, refusal.slot() as u64);
        ports::write_all(&mut errors, b"\n");
        return;
    }
    let s = l.state;
    open_events(node as u8, s, rt);
}

// A number from 0 to 65535; another one stands for 0, which is no node address either.
fn limited(z: i64) -> u32 {
    u16::try_from(z).map_or(0, u32::from)
}

// The node address of argument 1; 0 where it is no number.
fn node<E: Env>(env: &E) -> u32 {
    let mut word = [0u8; 32];
    let n = ports::arg(env, 1, &mut word);
    decimal::parse(&word[..n]).map_or(0, limited)
}

fn main(rt: HostRuntime) {
    let mut errors = rt.stderr();
    if !ports::has_arg(&rt, 2) {
        ports::write_all(&mut errors, b"slave: usage: slave NODE TABLE [EVENTS]\n");
        return;
    }
    let mut path = [0u8; 4096];
    let n = ports::arg(&rt, 2, &mut path);
    match ports::open_read(&rt, &path[..n]) {
        Ok(file) => {
            if let Some(words) = read_table(file, &path[..n], &mut errors) {
                start(node(&rt), words, rt);
            }
        }
        Err(e) => ports::write_failure(&mut errors, &path[..n], e),
    }
}
