// Hex digits: read in either case. Bytes are written as two upper-case digits each, words of 32 bits as eight.
ghost use Rattle.std.specs.Prelude.{◌≡◌, true, ◌∷◌, ◌+◌, ◌*◌, ◌%◌, ◌≤◌, ◌<◌, length};
ghost use Rattle.text.specs.Marks.{space};
ghost use Rattle.text.specs.Hex.{hex_digit, all_hex, is_hex, hex_of, hex_letter, hex_pair, spaced_pairs, hex_text, hex_in};
ghost use Rattle.text.specs.HexList.{are_hex};
ghost use Rattle.text.specs.Words.{words_of};
ghost use Rattle.text.specs.Put.{Put};

use crate::words::Words;

// What a byte stands for as a hex digit; none for a byte that is none.
#[tactic(auto, unfolding(crate::specs::Hex::hex_digit))]
fn digit(b: u8) -> Option<u8>
    ensures { result ≡ hex_digit b }
{
    match b {
        b'0'..=b'9' => Some(b - b'0'),
        b'A'..=b'F' => Some(b - 55),
        b'a'..=b'f' => Some(b - 87),
        _ => None,
    }
}

// Whether every byte is a hex digit.
fn all_hex(s: &[u8]) -> bool
    ensures { result ≡ all_hex s.now }
{
    s.iter().all(|b| digit(*b).is_some())
}

// Whether a word is from `least` to `most` hex digits.
pub fn is_hex(s: &[u8], least: usize, most: usize) -> bool
    ensures { result ≡ is_hex least most s.now }
{
    least <= s.len() && (s.len() <= most && all_hex(s))
}

// Whether the words of a text are at most `count` numbers of so many hex digits.
pub fn are_hex(s: &[u8], count: usize, least: usize, most: usize) -> bool
    ensures { result ≡ are_hex count least most (words_of s.now) }
{
    for (n, w) in (Words { text: s }).enumerate() {
        if n == count || !is_hex(w, least, most) {
            return false;
        }
    }
    true
}

// The number that hex digits stand for.
pub fn value(s: &[u8]) -> u32
    requires { is_hex 1 8 s.now ≡ true }
    ensures { result ≡ hex_of s.now }
{
    let mut v: u32 = 0;
    for b in s {
        v = v * 16 + u32::from(digit(*b).unwrap_or(16));
    }
    v
}

// The upper-case digit of a number below 16.
fn letter(n: u8) -> u8
    requires { n < 16 }
    ensures { result ≡ hex_letter n }
{
    if n < 10 {
        return b'0' + n;
    }
    55 + n
}

// Puts a byte as two digits.
fn put_pair(out: &mut [u8], at: usize, b: u8) -> usize
    requires { at + 2 ≤ length out.old }
    ensures { Put out.old at (hex_pair b) result out.new }
{
    let digits = [letter(b / 16), letter(b % 16)];
    crate::put_bytes(out, at, &digits)
}

// Puts a space and a byte as two digits.
fn put_spaced(out: &mut [u8], at: usize, b: u8) -> usize
    requires { at + 3 ≤ length out.old }
    ensures { Put out.old at (space ∷ hex_pair b) result out.new }
{
    let digits = [b' ', letter(b / 16), letter(b % 16)];
    crate::put_bytes(out, at, &digits)
}

// Puts bytes as two digits each, with a space before each.
fn put_rest(out: &mut [u8], at: usize, bytes: &[u8]) -> usize
    requires { at + 3 * length bytes.now ≤ length out.old }
    ensures { Put out.old at (spaced_pairs bytes.now) result out.new }
{
    let mut p = at;
    for b in bytes {
        p = put_spaced(out, p, *b);
    }
    p
}

// Puts bytes as two digits each, parted by a space, and says where they end.
pub fn put(out: &mut [u8], at: usize, bytes: &[u8]) -> usize
    requires { at + 3 * length bytes.now ≤ length out.old }
    ensures { Put out.old at (hex_text bytes.now) result out.new }
{
    let Some((first, rest)) = bytes.split_first() else {
        return at;
    };
    let p = put_pair(out, at, *first);
    put_rest(out, p, rest)
}

// The last digit of a number.
fn last(n: u32) -> u8
    ensures { result ≡ hex_letter (n % 16) }
{
    letter((n % 16) as u8)
}

// Puts a number as eight digits.
pub fn put_eight(out: &mut [u8], at: usize, n: u32) -> usize
    requires { at + 8 ≤ length out.old }
    ensures { Put out.old at (hex_in 8 n) result out.new }
{
    let digits = [
        last(n / 0x10000000),
        last(n / 0x1000000),
        last(n / 0x100000),
        last(n / 0x10000),
        last(n / 0x1000),
        last(n / 0x100),
        last(n / 0x10),
        last(n),
    ];
    crate::put_bytes(out, at, &digits)
}
