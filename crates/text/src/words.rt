// The words of a text, as parts of it.
ghost use Rattle.std.specs.Prelude.{◌≡◌};
ghost use Rattle.std.specs.Iterator.{YieldsFirstRef, item_count};
ghost use Rattle.decimal.specs.Decimal.{same_text};
ghost use Rattle.text.specs.Words.{words_of, trimmed_of, only_of};
ghost use Rattle.text.specs.WordSteps.{unspaced_of, word_length, word_of, rest_of};

// The words of a text, one after the other.
#[derive(Drop)]
pub struct Words<'a> {
    // What is left of the text.
    pub text: &'a [u8],
}

impl<'a> Iterator for Words<'a> {
    type Item = &'a [u8];

    ghost next_gives = { YieldsFirstRef (λ s. words_of s.text.now) };

    ghost remaining = { item_count (λ s. words_of s.text.now) };

    fn next(&mut self) -> Option<&'a [u8]> {
        let t = unspaced(self.text);
        let (w, behind) = t.split_at(word_length(t));
        if w.is_empty() {
            return None;
        }
        self.text = behind;
        Some(w)
    }
}

// The text from its first byte on that is no space.
fn unspaced(s: &[u8]) -> &[u8]
    ensures { result.now ≡ unspaced_of s.now }
{
    let n = s.iter().position(|b| *b != b' ').unwrap_or(s.len());
    &s[n..]
}

// How many bytes stand before the first space.
fn word_length(s: &[u8]) -> usize
    ensures { result ≡ word_length s.now }
{
    s.iter().position(|b| *b == b' ').unwrap_or(s.len())
}

// The first word, empty where there is none.
pub fn word(s: &[u8]) -> &[u8]
    ensures { result.now ≡ word_of s.now }
{
    let t = unspaced(s);
    let n = word_length(t);
    &t[..n]
}

// What stands behind the first word.
pub fn rest(s: &[u8]) -> &[u8]
    ensures { result.now ≡ rest_of s.now }
{
    let t = unspaced(s);
    let n = word_length(t);
    &t[n..]
}

// The only word of a text, empty where there is none or several.
pub fn only(s: &[u8]) -> &[u8]
    ensures { result.now ≡ only_of (words_of s.now) }
{
    let t = rest(s);
    let extra = word(t);
    if extra.is_empty() {
        return word(s);
    }
    &s[..0]
}

// Whether two texts are the same.
// Kept: a function, since `==` takes no slice beside an array, so that a word in quotes would need `.as_slice()` at each test.
#[tactic(auto, unfolding(decimal::specs::Decimal::same_text))]
pub fn same(a: &[u8], b: &[u8]) -> bool
    ensures { result ≡ same_text a.now b.now }
{
    a == b
}

// A line without a carriage return at its end.
pub fn trimmed(s: &[u8]) -> &[u8]
    ensures { result.now ≡ trimmed_of s.now }
{
    s.strip_suffix(b"\r").unwrap_or(s)
}
