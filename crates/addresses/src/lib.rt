// A set of addresses, 0 to 255, as four words of 64 bits: whether one is in it, whether none is, one more and one less, and the lowest above one.
// Uses the laws of `bits` and `integers`; knows no panels and no turns.
#![tactic(auto)]

ghost use Rattle.std.specs.Prelude.{◌≡◌};
ghost use Rattle.addresses.specs.Addresses.{nothing, holds, is_empty, including, excluding};
ghost use Rattle.addresses.specs.Search.{lowest_above};

// A set of addresses.
#[derive(Clone, Copy)]
pub struct Addresses {
    // Address a is bit a % 64 of word a / 64.
    pub words: [u64; 4],
}

impl Addresses {
    // The set with no address.
    pub fn new() -> Addresses
        ensures { result ≡ nothing }
    {
        Addresses { words: [0; 4] }
    }

    // Whether an address is in the set.
    pub fn has(&self, a: u8) -> bool
        ensures { result ≡ holds self.now a }
    {
        let i = usize::from(a / 64);
        (self.words[i] >> (a % 64)) % 2 == 1
    }

    // An address more.
    pub fn insert(&mut self, a: u8)
        ensures { self.new ≡ including self.old a }
    {
        let i = usize::from(a / 64);
        self.words[i] |= 1 << (a % 64);
    }

    // An address less.
    pub fn remove(&mut self, a: u8)
        ensures { self.new ≡ excluding self.old a }
    {
        let i = usize::from(a / 64);
        self.words[i] &= !(1 << (a % 64));
    }

    // Whether no address is in the set.
    pub fn is_empty(&self) -> bool
        ensures { result ≡ is_empty self.now }
    {
        self.words == [0; 4]
    }

    // The lowest address of the set above one: word by word, by the zeros below a word's lowest bit.
    // Kept: `above` is a u64, since a narrower type would ask more of callers (what may not change, `lowest_above`).
    pub fn lowest_above(&self, above: u64) -> Option<u8>
        ensures { result ≡ lowest_above (holds self.now) above }
    {
        if 255 <= above {
            return None;
        }
        let mut at = above as usize + 1;
        for i in at / 64..4 {
            let rest = self.words[i] >> (at % 64);
            if rest != 0 {
                let zeros = rest.trailing_zeros() as usize;
                return Some((at + zeros) as u8);
            }
            at = (i + 1) * 64;
        }
        None
    }
}
