// A dialog over an input and an output: lines are read as they come, and each is answered before the next input is waited for.
// Uses `script` for the lines of the input, and `ports` to read and write.
#![tactic(auto)]

ghost use Rattle.std.specs.Prelude.{◌≡◌, ◌^◌, ◌<◌, ◌≤◌, List, ℕ, [], length, IfSome, IfNone};
ghost use Rattle.std.specs.Io.KnownBytes.{Consumes};
ghost use Rattle.script.specs.Collector.{most, collected};
ghost use Rattle.script.specs.Talk.{answered_of, answered_at, talked_all};
ghost use Rattle.talk.specs.Ends.{Heard, finished, Ran};

use script::collector;
use script::collector::{Collector, Extent};
use std::io::{Read, Write};

// A dialog. A line's answer has room in ROOM bytes.
pub trait Dialog<const ROOM: usize> {
    // What is kept between its lines.
    type State: Copy;

    // What a line makes of it.
    ghost after: { Self.State → List ℕ → Self.State };

    // What is kept before the first line.
    ghost first: { Self.State };

    // Its validity, which each line asks for and leaves again.
    ghost Ready: { Self.State → Type 0 };

    // Before the first line.
    fn fresh() -> Self::State
        ensures is { result ≡ first }
        ensures ready { Ready result };

    // One line, without its newline, changes what is kept, in place, since it is large. Says where its answer ends, which stands at the start of the buffer.
    fn line(s: &mut Self::State, line: &[u8], out: &mut [u8; ROOM]) -> usize
        requires { Ready s.old }
        ensures is { s.new ≡ after s.old line.now }
        ensures ready { Ready s.new }
        ensures within { result ≤ ROOM };

    // The room fits in memory.
    ghost fits: { ROOM < 2 ^ 63 };
}

// What is kept between the pieces of the input.
#[derive(Clone, Copy)]
struct Talk<S> {
    // What is kept between lines.
    state: S,
    // The bytes since the last newline.
    collector: Collector,
}

// A line that has ended: it is answered.
fn answer<const ROOM: usize, D: Dialog<ROOM>, W: Write>(
    s: &mut D::State,
    bytes: &[u8],
    x: Extent,
    output: &mut W,
)
    requires { D.Ready s.old × (most ≤ length bytes.now) }
    ensures is { s.new ≡ answered_of D.after s.old (collected bytes.now x) }
    ensures ready { D.Ready s.new }
{
    let n = collector::held(x);
    let mut out = [0u8; ROOM];
    let end = D::line(s, &bytes[..n], &mut out);
    ports::write_all(output, &out[..end]);
}

// What is kept behind a byte: a line that it ends is answered.
fn take<const ROOM: usize, D: Dialog<ROOM>, W: Write>(
    s: &mut D::State,
    bytes: &[u8],
    x: Extent,
    output: &mut W,
)
    requires { D.Ready s.old × (most ≤ length bytes.now) }
    ensures is { s.new ≡ answered_at D.after s.old (collected bytes.now x) }
    ensures ready { D.Ready s.new }
{
    if x.ended {
        answer::<ROOM, D, W>(s, bytes, x, output);
    }
}

// The bytes of a piece of the input.
fn take_all<const ROOM: usize, D: Dialog<ROOM>, W: Write>(
    t: Talk<D::State>,
    bytes: &[u8],
    output: &mut W,
) -> Talk<D::State>
    requires { D.Ready t.state }
    ensures is { (result.state, result.collector) ≡ talked_all D.after (t.state, t.collector) bytes.now }
    ensures ready { D.Ready result.state }
{
    let l = t.collector;
    let mut held = l.bytes;
    let mut x = collector::extent_of(l);
    let mut s = t.state;
    for b in bytes {
        x = collector::push(&mut held, x, *b);
        take::<ROOM, D, W>(&mut s, &held, x, output);
    }
    Talk {
        state: s,
        collector: collector::kept(held, x),
    }
}

// The end of the input: a last line without a newline counts too.
fn finish<const ROOM: usize, D: Dialog<ROOM>, W: Write>(
    t: Talk<D::State>,
    output: &mut W,
) -> D::State
    requires { D.Ready t.state }
    ensures { result ≡ finished D.after (t.state, t.collector) }
{
    let l = t.collector;
    let mut last = t.state;
    if collector::pending(l) {
        let bytes = l.bytes;
        answer::<ROOM, D, W>(&mut last, &bytes, collector::extent_of(l), output);
    }
    last
}

// Reads what is there and answers the lines that end in it; none where the input has ended.
fn hear<const ROOM: usize, D: Dialog<ROOM>, R: Read, W: Write>(
    t: Talk<D::State>,
    input: &mut R,
    output: &mut W,
) -> Option<Talk<D::State>>
    requires { D.Ready t.state }
    ensures is { IfSome result (λ u. Heard D.after (R.remaining input.old) (R.remaining input.new) (t.state, t.collector) (u.state, u.collector)) }
    ensures ready { IfSome result (λ u. D.Ready u.state) }
    ensures end { IfNone result (Consumes (R.remaining input.old) (R.remaining input.new) []) }
{
    let mut buffer = [0u8; 4096];
    let n = ports::read_some(input, &mut buffer);
    if n == 0 {
        return None;
    }
    Some(take_all::<ROOM, D, W>(t, &buffer[..n], output))
}

// Runs a dialog to the end of the input; says what is kept then. The pieces of the input are counted by a number that no input uses up.
pub fn run<const ROOM: usize, D: Dialog<ROOM>, R: Read, W: Write>(
    input: &mut R,
    output: &mut W,
) -> D::State
    ensures { Ran D.after D.first (R.remaining input.old) (R.remaining input.new) result }
{
    let mut t = Talk {
        state: D::fresh(),
        collector: collector::fresh(),
    };
    for _ in 0..u64::MAX {
        let Some(next) = hear::<ROOM, D, R, W>(t, input, output) else {
            break;
        };
        t = next;
    }
    finish::<ROOM, D, W>(t, output)
}
