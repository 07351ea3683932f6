// The panel as a Modbus slave: a start with a node address, and the answer to one frame.
// Uses `modbus` for the bytes, `panel` to load, `parameters` for the table, and `state`.
#![tactic(auto)]

ghost use Rattle.std.specs.Prelude.{◌≡◌, [], ◌≤◌};
ghost use Rattle.state.specs.State.{state_of};
ghost use Rattle.state.specs.Valid.{Good};
ghost use Rattle.modbus.specs.Replies.{packed, longest_reply};
ghost use Rattle.modbus.specs.Request.{frame_number};
ghost use Rattle.parameters.specs.Valid.{Valid};
ghost use Rattle.registers.specs.Start.{is_node, start_number, start_slot, started_of};
ghost use Rattle.registers.specs.Serve.{word_in, sent, unchanged_by, written_of, request_of, served_of, served_by};

use modbus::replies::Reply;
use modbus::{Demand, Exception, Request, replies};
use state::{Live, State};

// The lowest and the highest node address.
const LOWEST_NODE: u32 = 1;

const HIGHEST_NODE: u32 = 247;

// Why a panel does not start.
#[derive(Clone, Copy, PartialEq, Eq)]
pub enum StartRefusal {
    // 33: no node address; tested before the load.
    Node,
    // A check of the load.
    Table(parameters::Refusal),
}

impl StartRefusal {
    // Its number.
    pub fn number(self) -> u32
        ensures { result ≡ start_number self }
    {
        match self {
            StartRefusal::Node => 33,
            StartRefusal::Table(refusal) => refusal.number(),
        }
    }

    // The slot that check 2 of the load names, else 0.
    pub fn slot(self) -> usize
        ensures { result ≡ start_slot self }
    {
        match self {
            StartRefusal::Node => 0,
            StartRefusal::Table(refusal) => refusal.slot(),
        }
    }
}

// What a start answers.
#[derive(Clone, Copy)]
pub struct Started {
    // Why nothing starts, none where the panel does.
    pub refusal: Option<StartRefusal>,
    // The fresh state of the table, or of the defaults where nothing starts.
    pub state: State,
}

// What a frame leaves beside the table.
#[derive(Clone, Copy)]
pub struct Response {
    // The live values after it.
    pub live: Live,
    // The reply's bytes, none where no reply is due.
    pub reply: Reply,
    // Why the frame was refused, if it was.
    pub refusal: Option<modbus::Refusal>,
    // Whether a write was carried out, so that the panel started afresh.
    pub afresh: bool,
}

impl Response {
    // The number of the frame's refusal; 0 where it was not refused.
    pub fn number(&self) -> u8
        ensures { result ≡ frame_number self.now.refusal }
    {
        match self.refusal {
            Some(refusal) => u8::from(refusal),
            None => 0,
        }
    }
}

// Whether a number is a node address.
#[tactic(auto, unfolding(crate::specs::Start::is_node))]
fn is_node(node: u32) -> bool
    ensures { result ≡ is_node node }
{
    (LOWEST_NODE..=HIGHEST_NODE).contains(&node)
}

// Starts a panel: 33 for another node address, then the load.
pub fn start(node: u32, words: &[i32]) -> Started
    ensures is { result ≡ started_of node words.now }
    ensures valid { Good result.state }
{
    if is_node(node) {
        let l = panel::load(words);
        return Started {
            refusal: l.refusal.map(StartRefusal::Table),
            state: l.state,
        };
    }
    Started {
        refusal: Some(StartRefusal::Node),
        state: state::fresh(parameters::rows::defaults()),
    }
}

// The word that starts at a register: the shown value, or the word of a slot in force; 0 where there is none.
fn word_in(t: &[i32; 104], shown: i32, register: u16) -> i32
    requires { Valid t.now }
    ensures { result ≡ word_in t.now shown register }
{
    if register == modbus::SHOWN_REGISTER {
        return shown;
    }
    let slot = usize::from(register / 2);
    if slot < 104 {
        return parameters::word(t, slot);
    }
    0
}

// A reply where one is due.
#[tactic(auto, unfolding(crate::specs::Serve::sent))]
fn send(due: bool, reply: Reply) -> Reply
    ensures { result ≡ sent due reply }
{
    if due { reply } else { replies::no_reply() }
}

// A frame that changes nothing.
fn unchanged(l: Live, reply: Reply, refusal: Option<modbus::Refusal>) -> Response
    ensures { result ≡ unchanged_by l reply refusal }
{
    Response {
        live: l,
        reply,
        refusal,
        afresh: false,
    }
}

// A write: the table in force with one slot changed is loaded and started afresh, or refused.
fn write(node: u8, t: &mut [i32; 104], l: Live, due: bool, register: u16, z: i32) -> Response
    ensures { served_by t.new result ≡ written_of node (state_of t.old l) due register z }
{
    let slot = usize::from(register / 2);
    let next = parameters::changed(*t, slot, z);
    let x = panel::load(&next);
    if x.refusal.is_some() {
        return unchanged(
            l,
            send(
                due,
                replies::exception_reply(node, modbus::WRITE, u8::from(Exception::Value)),
            ),
            None,
        );
    }
    let s = x.state;
    let live = s.live;
    *t = next;
    Response {
        live,
        reply: send(due, replies::write_reply(node, register)),
        refusal: None,
        afresh: true,
    }
}

// What a frame asks, done.
fn request(node: u8, t: &mut [i32; 104], l: Live, d: Demand) -> Response
    requires { Valid t.old }
    ensures { served_by t.new result ≡ request_of node (state_of t.old l) d.reply d.request }
{
    let due = d.reply;
    let asked = d.request;
    match asked {
        Request::Broken => unchanged(l, replies::no_reply(), Some(modbus::Refusal::BrokenFrame)),
        Request::Ignored => unchanged(l, replies::no_reply(), None),
        Request::Exception(function, exception) => {
            unchanged(
                l,
                send(
                    due,
                    replies::exception_reply(node, function, u8::from(exception)),
                ),
                None,
            )
        }
        Request::Read(register) => {
            let z = word_in(t, l.shown, register);
            unchanged(l, send(due, replies::read_reply(node, z)), None)
        }
        Request::Write(register, z) => write(node, t, l, due, register, z),
    }
}

// The answer to one frame, with the table changed in place.
pub fn answer(node: u8, t: &mut [i32; 104], l: Live, frame: &[u8]) -> Response
    requires { Good (state_of t.old l) }
    ensures is { served_by t.new result ≡ served_of node (state_of t.old l) frame.now }
    ensures valid { Good (state_of t.new result.live) }
    ensures fits { result.reply.length ≤ longest_reply }
{
    let d = modbus::asked(node, frame);
    request(node, t, l, d)
}
