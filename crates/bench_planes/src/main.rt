// Turns words by `bitplanes::turn` again and again, there and back, for bench/run to time, and prints a sum over what is left at the end.
// Standard input: words of 4 bytes, the lowest first, at most 4,096; what is behind them is left out. Argument: how often they are turned there and back.
// Uses `bitplanes` for the turning, `events` for the words, `timing` for the argument and the sum, and `ports` to read.
#![tactic(auto)]

ghost use Rattle.std.specs.Prelude.{◌≡◌, ◌≤◌, length};

use bitplanes::TooShort;
use timing::{mixed, rounds};

// The words that are turned, at most.
const WORDS: usize = 4096;

// Their bytes.
const BYTES: usize = 16384;

// The words of the bytes, as many as there is room for.
fn put_words(bytes: &[u8], words: &mut [u32]) {
    for (word, four) in words.iter_mut().zip(bytes.chunks_exact(4)) {
        *word = events::word_at(four[0], four[1], four[2], four[3]);
    }
}

// x turned into y and y into x again and again: the numbers of the last two added, 0 for no rounds.
fn repeated(x: &mut [u32], y: &mut [u32], rounds: u64) -> u64 {
    let mut last: u64 = 0;
    for _ in 0..rounds {
        let there = number_of(bitplanes::turn(x, y));
        let back = number_of(bitplanes::turn(y, x));
        last = u64::from(there) + u64::from(back);
    }
    last
}

// The number of an answer, 0 where there is none.
fn number_of(answer: Result<(), TooShort>) -> u8 {
    answer.err().map_or(0, |refusal| refusal.number())
}

// The sum over words.
fn sum_of(words: &[u32]) -> u64 {
    words.iter().fold(0, |s, word| mixed(s, u64::from(*word)))
}

// The words of the bytes turned there and back in x and y, and the sum over what y has then and over the last numbers.
fn timed(bytes: &[u8], x: &mut [u32], y: &mut [u32], rounds: u64) -> u64
    requires { (length bytes.now ≤ 16384) × ((4096 ≡ length x.old) × (4096 ≡ length y.old)) }
{
    let n = bytes.len() / 4;
    put_words(bytes, &mut x[..n]);
    let last = repeated(&mut x[..n], &mut y[..n], rounds);
    mixed(sum_of(&y[..n]), last)
}

fn main(rt: HostRuntime) {
    let mut input = rt.stdin();
    let mut output = rt.stdout();
    let mut bytes = [0u8; BYTES];
    let n = ports::read_full(&mut input, &mut bytes);
    let mut x = [0u32; WORDS];
    let mut y = [0u32; WORDS];
    let sum = timed(&bytes[..n], &mut x, &mut y, rounds(&rt));
    timing::tell(&mut output, sum);
}
