// Telegrams as the recorder stores them: bytes, 4 a word and the lowest first, each full group of 32 words turned into its bit planes.
// Uses `bitplanes` for the turning and `events` for words and their bytes.
#![tactic(auto)]

ghost use Rattle.std.specs.Prelude.{◌≡◌, ◌*◌, length};
ghost use Rattle.events.specs.Bytes.{words_in, bytes_of};
ghost use Rattle.recorder.specs.Recorded.{turned_bytes, stored_into};

use bitplanes::TooShort;

// The bytes of a full group.
const GROUP: usize = 128;

// The words of a full group.
fn words_of(group: &[u8]) -> [u32; 32]
    requires { length group.now ≡ 128 }
    ensures { result ≡ words_in group.now }
{
    let mut words = [0u32; 32];
    for (k, bytes) in group.chunks_exact(4).enumerate() {
        words[k] = events::word_at(bytes[0], bytes[1], bytes[2], bytes[3]);
    }
    words
}

// The bytes of words, over those that were there.
fn put_words(words: &[u32], bytes: &mut [u8])
    requires { length bytes.old ≡ 4 * length words.now }
    ensures { bytes.new ≡ bytes_of words.now }
{
    for (k, word) in words.iter().enumerate() {
        let i = 4 * k;
        bytes[i..i + 4].copy_from_slice(&events::bytes_of(*word));
    }
}

// A full group turned in its place.
fn turn_group(group: &mut [u8])
    requires { length group.old ≡ 128 }
    ensures { group.new ≡ turned_bytes group.old }
{
    let words = words_of(group);
    let mut planes = words;
    bitplanes::turn_group(&mut planes);
    put_words(&planes, group);
}

// The input as it is stored, at the front of the output; what lies behind it stays. Where the output is shorter than the input, nothing is
// written.
pub fn turn(input: &[u8], output: &mut [u8]) -> Result<(), TooShort>
    ensures { (result, output.new) ≡ stored_into input.now output.old }
{
    let n = input.len();
    if output.len() < n {
        return Err(TooShort);
    }
    output[..n].copy_from_slice(input);
    for k in 0..n / GROUP {
        let at = k * GROUP;
        turn_group(&mut output[at..at + GROUP]);
    }
    Ok(())
}
