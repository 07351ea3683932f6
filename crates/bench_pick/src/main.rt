// Steps of a dispatcher again and again, for bench/run to time, and a sum over what they answer (paper 02, K12).
// Standard input: steps of 2 bytes, kind and address, at most 4,096; a single byte that is left over is left out. Kind 0 is a pick, 1 a join, 2 a report of none, 3 a report of an error; another does nothing.
// The first 64 steps are run once, those behind them as often as the argument says.
// Uses `dispatcher` for the steps, `timing` for the argument and the sum, and `ports` to read.
#![tactic(auto)]

use dispatcher::Dispatcher;
use timing::{mixed, rounds};

// The bytes of the steps that are run once.
const FIRST: usize = 128;

// One step.
fn step(d: &mut Dispatcher, sum: u64, kind: u8, address: u8) -> u64 {
    let a = u32::from(address);
    let n = match kind {
        0 => d.pick().unwrap_or(0),
        1 => dispatcher::number_of(d.register(a)),
        2 | 3 => dispatcher::number_of(d.report(a, kind == 3)),
        _ => return sum,
    };
    mixed(sum, u64::from(n))
}

// The steps of some bytes.
fn steps(d: &mut Dispatcher, sum: u64, bytes: &[u8]) -> u64 {
    let mut n = sum;
    for pair in bytes.chunks_exact(2) {
        n = step(d, n, pair[0], pair[1]);
    }
    n
}

// The steps of some bytes again and again.
fn repeated(d: &mut Dispatcher, sum: u64, bytes: &[u8], rounds: u64) -> u64 {
    let mut n = sum;
    for _ in 0..rounds {
        n = steps(d, n, bytes);
    }
    n
}

// The sum over the steps of the bytes.
fn timed(bytes: &[u8], rounds: u64) -> u64 {
    let mut d = dispatcher::fresh();
    let (first, last) = bytes.split_at(FIRST.min(bytes.len()));
    let sum = steps(&mut d, 0, first);
    repeated(&mut d, sum, last, rounds)
}

fn main(rt: HostRuntime) {
    let mut input = rt.stdin();
    let mut output = rt.stdout();
    let mut bytes = [0u8; 8192];
    let n = ports::read_full(&mut input, &mut bytes);
    let sum = timed(&bytes[..n], rounds(&rt));
    timing::tell(&mut output, sum);
}
