// Words of 32 bits as bytes, lowest byte first: a table's, and those of a log, which a line gives as hex digits. Uses `integers`, `events` and `text`.
ghost use Rattle.std.specs.Prelude.{◌≡◌, true, map, ◌+◌, ◌≤◌, length};
ghost use Rattle.integers.specs.TwosComplement.{bits_of};
ghost use Rattle.text.specs.Put.{Put};
ghost use Rattle.text.specs.Words.{words_of};
ghost use Rattle.text.specs.HexList.{hexes_of};
ghost use Rattle.events.specs.Bytes.{least_first, bytes_of};
ghost use Rattle.sheet.specs.LogWords.{is_log};

use integers::twos_complement;
use text::hex;
use text::words::Words;

// Puts a word as four bytes.
fn put_word(out: &mut [u8], at: usize, w: u32) -> usize
    requires { at + 4 ≤ length out.old }
    ensures { Put out.old at (least_first w) result out.new }
{
    let bytes = events::bytes_of(w);
    text::put_bytes(out, at, &bytes)
}

// Puts the words of a table at the start of a buffer.
pub fn put_table(out: &mut [u8], t: &[i32]) -> usize
    requires { (416 ≤ length out.old) × (length t.now ≡ 104) }
    ensures { Put out.old 0 (bytes_of (map bits_of t.now)) result out.new }
{
    let mut p: usize = 0;
    for z in t {
        p = put_word(out, p, twos_complement::bits(*z));
    }
    p
}

// Whether the words of a text are at most 100 numbers of 1 to 8 hex digits.
pub fn is_log(s: &[u8]) -> bool
    ensures { result ≡ is_log (words_of s.now) }
{
    hex::are_hex(s, 100, 1, 8)
}

// Puts the words of a log at the start of a buffer.
pub fn put_log(out: &mut [u8], s: &[u8]) -> usize
    requires { (400 ≤ length out.old) × (is_log (words_of s.now) ≡ true) }
    ensures { Put out.old 0 (bytes_of (hexes_of (words_of s.now))) result out.new }
{
    let mut p: usize = 0;
    for w in (Words { text: s }) {
        p = put_word(out, p, hex::value(w));
    }
    p
}
