// Texts put into a buffer that the caller lends, at a place, with the place behind them as the answer; and texts taken apart.
// Uses `decimal` for numbers.
#![tactic(auto)]

ghost use Rattle.std.specs.Prelude.{◌∷◌, [], ◌++◌, ◌+◌, ◌≤◌, length};
ghost use Rattle.integers.specs.Int.{Within};
ghost use Rattle.decimal.specs.Decimal.{largest, text_of};
ghost use Rattle.text.specs.Marks.{number};
ghost use Rattle.text.specs.Put.{Put};

pub mod hex;
pub mod words;

// Puts bytes.
pub fn put_bytes(out: &mut [u8], at: usize, bytes: &[u8]) -> usize
    requires { at + length bytes.now ≤ length out.old }
    ensures { Put out.old at bytes.now result out.new }
{
    let end = at + bytes.len();
    out[at..end].copy_from_slice(bytes);
    end
}

// Puts the text of z and then one byte.
fn put_number(out: &mut [u8], at: usize, z: i64, after: u8) -> usize
    requires { (at + 20 ≤ length out.old) × Within largest z }
    ensures { Put out.old at (text_of z ++ (after ∷ [])) result out.new }
{
    let n = decimal::write(&mut out[at..], z);
    let end = at + n;
    out[end] = after;
    end + 1
}

// Puts the text of a number that is not negative and then one byte.
pub fn put_natural(out: &mut [u8], at: usize, n: u64, after: u8) -> usize
    requires { (at + 20 ≤ length out.old) × (n ≤ largest) }
    ensures { Put out.old at (number n ++ (after ∷ [])) result out.new }
{
    put_number(out, at, n as i64, after)
}

// Puts the text of a signed word and then one byte.
pub fn put_word(out: &mut [u8], at: usize, z: i32, after: u8) -> usize
    requires { at + 20 ≤ length out.old }
    ensures { Put out.old at (text_of z ++ (after ∷ [])) result out.new }
{
    put_number(out, at, z as i64, after)
}
