// Runs a log: table and log from standard input, lines to standard output, in pieces of fixed size.
// Uses `logrun` for all that is printed, and `ports` to read and write.
#![tactic(auto)]

ghost use Rattle.logrun.specs.Progress.{Ready};

use logrun::Progress;
use std::io::{Read, Write};

// The bytes of a piece of the log, whole words.
const PIECE: usize = 8192;

// The bytes that a piece prints at most: 32 a byte, and the last line of 128.
const PRINTED: usize = 262272;

// Runs the log to its end, a piece a turn. There are more turns than any log uses up.
fn run<R: Read, W: Write>(p: Progress, reader: &mut R, writer: &mut W)
    requires { Ready p }
{
    let mut q = p;
    let mut input = [0u8; PIECE];
    let mut output = [0u8; PRINTED];
    for _ in 0..u64::MAX {
        let n = ports::read_full(reader, &mut input);
        let r = logrun::run_piece(q, &input[..n], PIECE, &mut output);
        let end = r.end;
        if !(ports::write_all(writer, &output[..end]) & r.more) {
            return;
        }
        q = r.progress;
    }
}

fn main(rt: HostRuntime) {
    let mut reader = rt.stdin();
    let mut writer = rt.stdout();
    let mut table = [0u8; 416];
    let n = ports::read_full(&mut reader, &mut table);
    let mut line = [0u8; 128];
    let o = logrun::open(&table[..n], &mut line);
    let end = o.end;
    ports::write_all(&mut writer, &line[..end]);
    if o.loaded {
        let p = o.progress;
        run(p, &mut reader, &mut writer);
    }
}
