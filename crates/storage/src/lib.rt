// An input stored to an output, in pieces of whole groups, so that an input may have any length.
// Uses `recorder` for what is stored, and `ports` to read and write.
#![tactic(auto)]

use std::io::{Read, Write};

// The bytes of a piece: 64 groups of 32 words.
const PIECE: usize = 8192;

// Stores the input to its end, a piece a turn; the last one is shorter. The turns are counted down from a number that no input uses up.
// Kept: turns counted down, no `for`, which ends whatever its body does, so that no edit of it could store an endless input for ever (must-fail/runs_on).
pub fn run<R: Read, W: Write>(reader: &mut R, writer: &mut W) {
    let mut input = [0; PIECE];
    let mut output = [0; PIECE];
    let mut turns = u64::MAX;
    while turns > 0 {
        let n = ports::read_full(reader, &mut input);
        if recorder::turn(&input[..n], &mut output).is_err() {
            return;
        }
        if !(ports::write_all(writer, &output[..n]) & (n == PIECE)) {
            return;
        }
        turns -= 1;
    }
}
