// Lists of the lengths that were recorded from the model in tools/model: turned, turned again, and refused. What it prints is compared with the model's text.
// Uses `bitplanes` for the turning, and `ports` to write.
#![tactic(auto)]

ghost use Rattle.std.specs.Prelude.{◌≡◌, ◌+◌, ◌≤◌, length};

use bitplanes::TooShort;
use std::io::Write;

// What every word of an output holds before.
const BEFORE: u32 = 0xc0ff_ee00;

// The words of the longest list, and two behind it.
const ROOM: usize = 1002;

// The word behind x of a list: 1,664,525 x + 1,013,904,223 modulo 2^32.
fn next(x: u32) -> u32 {
    x.wrapping_mul(1664525).wrapping_add(1013904223)
}

// A list: each word from the one before, the first from 1.
fn put_list(words: &mut [u32]) {
    let mut x: u32 = 1;
    for word in words {
        x = next(x);
        *word = x;
    }
}

// Whether every word is as before.
fn untouched(words: &[u32]) -> bool {
    words.iter().all(|word| *word == BEFORE)
}

// A word in eight hex digits.
fn print_word<W: Write>(word: u32, printer: &mut W) {
    ports::print_hex_8(printer, word as u64);
}

// Words, eight a line.
fn print_words<W: Write>(words: &[u32], printer: &mut W) {
    for line in words.chunks(8) {
        print_words_of_line(line, printer);
        ports::write_all(printer, b"\n");
    }
}

// The words of a line, with spaces between.
fn print_words_of_line<W: Write>(line: &[u32], printer: &mut W) {
    for (i, word) in line.iter().enumerate() {
        if i > 0 {
            ports::write_all(printer, b" ");
        }
        print_word(*word, printer);
    }
}

// The number of an answer, 0 where there is none.
fn number_of(answer: Result<(), TooShort>) -> u64 {
    answer
        .err()
        .map_or(0, |refusal| u64::from(refusal.number()))
}

// A word of text, a number, and the end of the line.
fn print_line<W: Write>(text: &[u8], n: u64, printer: &mut W) {
    ports::write_all(printer, text);
    ports::print_decimal(printer, n);
    ports::write_all(printer, b"\n");
}

// What an output that is shorter by one word is left as.
fn refused<W: Write>(input: &[u32], output: &mut [u32], printer: &mut W) {
    output.fill(BEFORE);
    print_line(
        b"short ",
        number_of(bitplanes::turn(input, output)),
        printer,
    );
    if untouched(output) {
        ports::print_decimal(printer, output.len() as u64);
        ports::write_all(printer, b" words as they were\n");
    } else {
        ports::write_all(printer, b"written\n");
    }
}

// A list of n words: turned into an output with two words more, and turned again.
fn turned<W: Write>(
    n: usize,
    input: &mut [u32],
    output: &mut [u32],
    again: &mut [u32],
    printer: &mut W,
)
    requires { (length input.old ≡ n) × ((length output.old ≡ n + 2) × (length again.old ≡ n + 2)) }
{
    print_line(b"length ", n as u64, printer);
    put_list(input);
    ports::write_all(printer, b"input\n");
    print_words(input, printer);
    output.fill(BEFORE);
    print_line(
        b"turned ",
        number_of(bitplanes::turn(input, output)),
        printer,
    );
    print_words(output, printer);
    again.fill(BEFORE);
    print_line(
        b"again ",
        number_of(bitplanes::turn(&output[..n], again)),
        printer,
    );
    print_words(again, printer);
}

// A case of n words.
fn case<W: Write>(
    n: usize,
    input: &mut [u32],
    output: &mut [u32],
    again: &mut [u32],
    printer: &mut W,
)
    requires { (n ≤ 1000) × ((1002 ≡ length input.old) × ((1002 ≡ length output.old) × (1002 ≡ length again.old))) }
{
    let end = n + 2;
    turned(
        n,
        &mut input[..n],
        &mut output[..end],
        &mut again[..end],
        printer,
    );
    if n > 0 {
        let short = n - 1;
        refused(&input[..n], &mut output[..short], printer);
    }
}

fn main(rt: HostRuntime) {
    let mut printer = rt.stdout();
    let mut input = [BEFORE; ROOM];
    let mut output = [BEFORE; ROOM];
    let mut again = [BEFORE; ROOM];
    case(0, &mut input, &mut output, &mut again, &mut printer);
    case(1, &mut input, &mut output, &mut again, &mut printer);
    case(31, &mut input, &mut output, &mut again, &mut printer);
    case(32, &mut input, &mut output, &mut again, &mut printer);
    case(33, &mut input, &mut output, &mut again, &mut printer);
    case(64, &mut input, &mut output, &mut again, &mut printer);
    case(1000, &mut input, &mut output, &mut again, &mut printer);
}
