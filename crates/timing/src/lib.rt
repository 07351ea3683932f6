// What the programs that bench/run times share: how often they run, and the parts of the sums that they print.
// Uses `decimal` for the argument, `driverecord` for the record, and `ports` to read and write.
#![tactic(auto)]

ghost use Rattle.std.specs.Prelude.{◌≡◌, ◌++◌, ◌∷◌, [], ◌≤◌, List, ℕ, true};
ghost use Rattle.std.specs.Fmt.{decimal};
ghost use Rattle.std.specs.Io.KnownBytes.{Appends};
ghost use Rattle.driverecord.specs.Numbers.{Numbers};
ghost use Rattle.timing.specs.Sums.{rounds_of, mixed_of, raised_of, record_part_of};

use driverecord::DriveRecord;
use std::env::Env;
use std::io::Write;

// What the rounds have come to.
#[derive(Clone, Copy)]
pub struct Summed<S> {
    // What the next answer is made from.
    pub live: S,
    // The sum over the answers so far.
    pub sum: u64,
}

// The number of a word that is not negative, else 0.
fn count(word: &[u8]) -> u64
    ensures { result ≡ rounds_of word.now }
{
    match decimal::parse(word) {
        Some(z) => u64::try_from(z).unwrap_or(0),
        None => 0,
    }
}

// How often a program runs: the number of its first argument, 0 where it is none.
pub fn rounds<E: Env>(env: &E) -> u64
    ensures { (word : List ℕ) × (result ≡ rounds_of word) }
{
    let mut word = [0u8; 32];
    let n = ports::arg(env, 1, &mut word);
    count(&word[..n])
}

// 31 times the sum and a number, modulo 2^64.
pub fn mixed(sum: u64, n: u64) -> u64
    ensures { result ≡ mixed_of sum n }
{
    sum.wrapping_mul(31).wrapping_add(n)
}

// A signed word as a number that is not negative.
pub fn raised(z: i32) -> u64
    ensures is { result ≡ raised_of z }
    ensures bound { result ≤ 4294967295 }
{
    u64::from(z.abs_diff(i32::MIN))
}

// A word as a number of 64 bits.
fn wide(w: u32) -> u64
    ensures { (result ≡ w) × (result ≤ 4294967295) }
{
    u64::from(w)
}

// The record of the drive as a number: the bits of its floats, and its mark.
pub fn record_part(d: DriveRecord) -> u64
    requires { Numbers d }
    ensures is { result ≡ record_part_of d }
    ensures bound { result ≤ 343597383600 }
{
    let floats = wide(d.present.to_bits()) + wide(d.lowest.to_bits()) + wide(d.highest.to_bits());
    19 * floats + 23 * wide(d.empty)
}

// Writes a sum and a newline; says whether both went out.
pub fn tell<W: Write>(output: &mut W, sum: u64) -> bool
    ensures { result ≡ true → Appends (W.contents output.old) (W.contents output.new) (decimal sum ++ 10 ∷ []) }
{
    let told = ports::print_decimal(output, sum);
    ports::write_all(output, b"\n") && told
}
