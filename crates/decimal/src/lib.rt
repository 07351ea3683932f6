// Whole numbers of at most 18 digits as decimal text: written into a buffer that the caller lends, and read back.
// Uses the laws of `integers`.
#![tactic(auto)]

ghost use Rattle.std.specs.Prelude.{◌≡◌, true, ◌∷◌, ◌++◌, ◌≤◌, length, drop};
ghost use Rattle.integers.specs.Int.{Within};
ghost use Rattle.decimal.specs.Decimal.{largest, minus, digits_of, text_of, value_from, parsed_of};
ghost use Rattle.decimal.specs.ByteSteps.{all_digits, is_natural};

// How many digits n has: the least k above 0 with n below 10 ^ k.
// Kept: no slice is gone over that a `for` could name: the loop ends where the power of ten passes the number.
fn places(n: u64) -> usize
    requires { n ≤ largest }
    ensures { result ≡ length (digits_of n) }
{
    let mut k: usize = 1;
    let mut top: u64 = 10;
    while top <= n {
        top = top * 10;
        k += 1;
    }
    k
}

// Puts the k digits of n at the start of out, the last one first.
// Kept: no slice is gone over that a `for` could name: the loop ends where the number does, and `i` falls with it.
fn spell(out: &mut [u8], n: u64, k: usize)
    requires { (n ≤ largest) × (k ≡ length (digits_of n)) × (k ≤ length out.old) }
    ensures { out.new ≡ digits_of n ++ drop k out.old }
{
    let mut i = k;
    let mut rest = n;
    while rest >= 10 {
        i -= 1;
        out[i] = b'0' + (rest % 10) as u8;
        rest = rest / 10;
    }
    out[0] = b'0' + rest as u8;
}

// Puts the digits of n at the start of out, and says how many they are.
fn write_digits(out: &mut [u8], n: u64) -> usize
    requires { (18 ≤ length out.old) × (n ≤ largest) }
    ensures { (result ≡ length (digits_of n)) × (out.new ≡ digits_of n ++ drop result out.old) }
{
    let k = places(n);
    spell(out, n, k);
    k
}

// Puts the text of z at the start of out, and says how many bytes that is. The bytes after it stay as they are.
pub fn write(out: &mut [u8], z: i64) -> usize
    requires { (19 ≤ length out.old) × Within largest z }
    ensures { (result ≡ length (text_of z)) × (out.new ≡ text_of z ++ drop result out.old) }
{
    let n = z.unsigned_abs();
    if z < 0 {
        let k = write_digits(&mut out[1..], n);
        out[0] = b'-';
        return k + 1;
    }
    write_digits(out, n)
}

// Whether every byte of s is a digit.
fn digits_only(s: &[u8]) -> bool
    ensures { result ≡ all_digits s.now }
{
    s.iter().all(|b| b.is_ascii_digit())
}

// Whether s is one to 18 digits, the first of several not 0.
fn natural(s: &[u8]) -> bool
    ensures { result ≡ is_natural s.now }
{
    let count = s.len();
    if count == 0 || 18 < count {
        return false;
    }
    let first = s[0];
    if first == b'0' {
        return count == 1;
    }
    digits_only(s)
}

// The number that the digits s stand for.
fn value(s: &[u8]) -> u64
    requires { is_natural s.now ≡ true }
    ensures { result ≡ value_from 0 s.now }
{
    let mut v: u64 = 0;
    for b in s {
        v = v * 10 + (*b - b'0') as u64;
    }
    v
}

// What a minus sign and then s is read as. There is no minus zero.
fn negative(s: &[u8]) -> Option<i64>
    ensures { result ≡ parsed_of (minus ∷ s.now) }
{
    if !natural(s) {
        return None;
    }
    let n = value(s);
    if n == 0 {
        return None;
    }
    Some(-(n as i64))
}

// Reads a whole text: the number that it is the text of, or None where it is malformed.
pub fn parse(s: &[u8]) -> Option<i64>
    ensures { result ≡ parsed_of s.now }
{
    if let Some(digits) = s.strip_prefix(b"-") {
        return negative(digits);
    }
    if !natural(s) {
        return None;
    }
    Some(value(s) as i64)
}
