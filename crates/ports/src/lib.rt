// Reading and writing as the programs do it, over any reader and writer: what fails counts as the end of an input, and as `false` of an output.
// Uses the standard library alone.
#![tactic(auto)]

mod numbers; // numbers.rt: numbers as text
mod start; // start.rt: arguments, and files that they name

ghost use Rattle.std.specs.Prelude.{◌≡◌, ◌≤◌, true, length, take};
ghost use Rattle.std.specs.Io.KnownBytes.{Appends, Consumes};
ghost use Rattle.ports.specs.Moved.{WritesFront};

pub use numbers::{print_decimal, print_hex_8};
pub use start::{arg, has_arg, open_read, write_failure};
use std::io::{Read, Write};

// Reads once, what is there; says how many bytes it put at the start of buf, none at the end and where the read fails.
pub fn read_some<R: Read>(input: &mut R, buf: &mut [u8]) -> usize
    ensures bound { result ≤ length buf.new }
    ensures prefix { result ≡ length (take result buf.new) }
    ensures bytes { Consumes (R.remaining input.old) (R.remaining input.new) (take result buf.new) }
{
    input.read(buf).unwrap_or(0)
}

// Reads until buf is full, the input ends or a read fails; says how many bytes it put at the start of buf. With no room it does not read.
// Kept: no slice is gone over that a `for` could name: each turn goes on by as many bytes as its read took, and the input may end before buf does.
pub fn read_full<R: Read>(input: &mut R, buf: &mut [u8]) -> usize
    ensures bound { result ≤ length buf.new }
    ensures prefix { result ≡ length (take result buf.new) }
    ensures bytes { Consumes (R.remaining input.old) (R.remaining input.new) (take result buf.new) }
{
    let mut done: usize = 0;
    while done < buf.len() {
        let n = read_some(input, &mut buf[done..]);
        if n == 0 {
            break;
        }
        done += n;
    }
    done
}

// Writes once; says how many bytes went out, none where the write fails.
fn write_some<W: Write>(output: &mut W, bytes: &[u8]) -> usize
    ensures bound { result ≤ length bytes.now }
    ensures bytes { Appends (W.contents output.old) (W.contents output.new) (take result bytes.now) }
{
    output.write(bytes).unwrap_or(0)
}

// Writes all bytes and says `true`, or stops at the first write that takes none or fails, and says `false`. With no bytes it does not write.
// Kept: std's `write_all` does not promise `front`, and goes on after a write that was broken off; and nobody asks why bytes did not go out.
pub fn write_all<W: Write>(output: &mut W, bytes: &[u8]) -> bool
    ensures all { result ≡ true → Appends (W.contents output.old) (W.contents output.new) bytes.now }
    ensures front { WritesFront (W.contents output.old) (W.contents output.new) bytes.now }
{
    let mut done: usize = 0;
    while done < bytes.len() {
        let n = write_some(output, &bytes[done..]);
        if n == 0 {
            return false;
        }
        done += n;
    }
    true
}

#[cfg(test)]
mod tests; // tests.rt
