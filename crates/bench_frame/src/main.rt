// Serves frames by `registers::answer` again and again, for bench/run to time, and prints a sum over all answers.
// Standard input: a table as panelrun has it, then frames, each behind its length of 2 bytes, lowest first; at most 512 KiB of them. Argument: how often they are served.
// Uses `registers` for the answers to `modbus` frames on the values of `state`, `logrun` for the table, `timing` for the argument and the sum, and `ports` to read.
#![tactic(auto)]

ghost use Rattle.std.specs.Prelude.{◌≡◌, ◌≤◌, length};
ghost use Rattle.state.specs.State.{state_of};
ghost use Rattle.state.specs.Valid.{Good};

use modbus::replies::Reply;
use state::{Live, State};
use timing::{Summed, mixed, rounds};

// The node that serves.
const NODE: u8 = 1;

// Room for the frames.
fn frame_room() -> [u8; 524288]
    ensures { 524288 ≡ length result }
{
    [0; 524288]
}

// The sum after the bytes of a reply.
fn with_bytes(sum: u64, bytes: &[u8]) -> u64 {
    let mut s = sum;
    for b in bytes {
        s = mixed(s, u64::from(*b));
    }
    s
}

// The sum after an answer: its bytes, then its number.
fn with_answer(sum: u64, reply: Reply, refusal: u8) -> u64
    requires { reply.length ≤ 9 }
{
    let bytes = reply.bytes;
    let n = reply.length;
    mixed(with_bytes(sum, &bytes[..n]), u64::from(refusal))
}

// One frame.
fn serve(t: &mut [i32; 104], x: Summed<Live>, frame: &[u8]) -> Summed<Live>
    requires { Good (state_of t.old x.live) }
    ensures { Good (state_of t.new result.live) }
{
    let l = x.live;
    let r = registers::answer(NODE, t, l, frame);
    let live = r.live;
    let reply = r.reply;
    Summed {
        live,
        sum: with_answer(x.sum, reply, r.number()),
    }
}

// All frames once; one that is cut off at the end is left out.
fn serve_all(t: &mut [i32; 104], x: Summed<Live>, frames: &[u8]) -> Summed<Live>
    requires { Good (state_of t.old x.live) }
    ensures { Good (state_of t.new result.live) }
{
    let mut y = x;
    let mut left = frames;
    while let [low, high, rest @ ..] = left {
        let n = usize::from(u16::from_le_bytes([*low, *high]));
        if rest.len() < n {
            return y;
        }
        let (frame, others) = rest.split_at(n);
        y = serve(t, y, frame);
        left = others;
    }
    y
}

// The sum over the answers to the frames, served again and again.
fn repeated(s: State, frames: &[u8], rounds: u64) -> u64
    requires { Good s }
{
    let mut table = s.table;
    let l = s.live;
    let mut x = Summed { live: l, sum: 0 };
    for _ in 0..rounds {
        x = serve_all(&mut table, x, frames);
    }
    x.sum
}

fn main(rt: HostRuntime) {
    let mut input = rt.stdin();
    let mut output = rt.stdout();
    let mut table = [0u8; 416];
    let n = ports::read_full(&mut input, &mut table);
    let l = logrun::load(&table[..n]);
    let mut frames = frame_room();
    let m = ports::read_full(&mut input, &mut frames);
    let s = l.state;
    let sum = repeated(s, &frames[..m], rounds(&rt));
    timing::tell(&mut output, sum);
}
