// One PC polls up to 32 panels on a line; the dispatcher picks the panel that is polled next (paper 02, K12).
// Uses `addresses` for the panels of a group; knows addresses and reports, no panel and no line. Every value of `Dispatcher` is one, so nothing is asked of it.
#![tactic(auto)]

ghost use Rattle.std.specs.Prelude.{◌≡◌};
ghost use Rattle.dispatcher.specs.Dispatch.{fresh_of, group_of, next_of, kept_of, with_report, address_of, present, panels, refusal_number, number_of, register_of, report_of, pick_of};

use addresses::Addresses;

// The most panels on a line.
const MOST: usize = 32;

// The addresses that a panel may have.
const LOWEST: u32 = 1;

const HIGHEST: u32 = 247;

// Why a call is refused.
#[derive(Clone, Copy, Debug, PartialEq, Eq)]
pub enum Refusal {
    // A panel more than there may be.
    TooMany,
    // There is a panel at the address.
    Present,
    // No panel may have the address, or none is registered there.
    NoPanel,
}

impl Refusal {
    // The number of the refusal.
    pub fn number(self) -> u8
        ensures { result ≡ refusal_number self }
    {
        match self {
            Refusal::TooMany => 28,
            Refusal::Present => 29,
            Refusal::NoPanel => 32,
        }
    }
}

// The number of what registering and reporting answer: 0 where they are not refused.
pub fn number_of(answer: Result<(), Refusal>) -> u8
    ensures { result ≡ number_of answer }
{
    match answer {
        Ok(()) => 0,
        Err(refusal) => refusal.number(),
    }
}

// The panels that are in error, or the ordinary ones: a group, which takes turns.
#[derive(Clone, Copy)]
pub struct Group {
    // Their addresses.
    pub members: Addresses,
    // The address that the group polled last, 0 for none yet.
    // Kept: a word of 64 bits, since an `Option<u8>` would take fewer values than callers may hand over, and leave a gap whose copies wait.
    pub last: u64,
}

// The panels of a line, and where the polling stands.
#[derive(Clone, Copy)]
pub struct Dispatcher {
    // The panels whose last report was of an error.
    pub error: Group,
    // The other ones.
    pub ordinary: Group,
    // 1 where the last poll of all was of a panel in error.
    // Kept: a word of 64 bits, since a bool would take fewer values than callers may hand over, and leave a gap whose copies wait.
    pub faulty: u64,
}

// A dispatcher with no panel.
pub fn fresh() -> Dispatcher
    ensures { result ≡ fresh_of }
{
    let empty = Group {
        members: Addresses::new(),
        last: 0,
    };
    Dispatcher {
        error: empty,
        ordinary: empty,
        faulty: 0,
    }
}

// The address of a panel, where one may have it.
fn address_of(address: u32) -> Result<u8, Refusal>
    ensures { result ≡ address_of address }
{
    if !(LOWEST..=HIGHEST).contains(&address) {
        return Err(Refusal::NoPanel);
    }
    u8::try_from(address).map_err(|_| Refusal::NoPanel)
}

impl Group {
    // The member whose turn it is, if there is one: after the last one polled the next higher, else the lowest.
    fn next(&self) -> Option<u8>
        ensures { result ≡ next_of self.now }
    {
        if self.members.is_empty() {
            return None;
        }
        self.members
            .lowest_above(self.last)
            .or_else(|| self.members.lowest_above(0))
    }
}

impl Dispatcher {
    // The panels in error, or the ordinary ones.
    fn group(&self, error: bool) -> &Group
        ensures { result.now ≡ group_of self.now error }
    {
        if error { &self.error } else { &self.ordinary }
    }

    // A group's member is polled.
    fn keep(&mut self, error: bool, a: u8)
        ensures { self.new ≡ kept_of self.old error a }
    {
        let last = u64::from(a);
        if error {
            self.error.last = last;
            self.faulty = 1;
        } else {
            self.ordinary.last = last;
            self.faulty = 0;
        }
    }

    // Whether a panel is registered at an address.
    fn is_present(&self, a: u8) -> bool
        ensures { result ≡ present self.now a }
    {
        self.error.members.has(a) || self.ordinary.members.has(a)
    }

    // How many panels are registered.
    fn count(&self) -> usize
        ensures { result ≡ panels self.now }
    {
        let mut n = 0;
        for a in 1..=255 {
            if self.is_present(a) {
                n += 1;
            }
        }
        n
    }

    // A panel is in the group that it reports.
    fn put(&mut self, address: u8, error: bool)
        ensures { self.new ≡ with_report self.old address error }
    {
        if error {
            self.ordinary.members.remove(address);
            self.error.members.insert(address);
        } else {
            self.error.members.remove(address);
            self.ordinary.members.insert(address);
        }
    }

    // Registers a panel, ordinary at first; where it is refused, all stays as it is.
    pub fn register(&mut self, address: u32) -> Result<(), Refusal>
        ensures { (self.new, result) ≡ register_of self.old address }
    {
        let a = address_of(address)?;
        if self.is_present(a) {
            return Err(Refusal::Present);
        }
        if MOST <= self.count() {
            return Err(Refusal::TooMany);
        }
        self.ordinary.members.insert(a);
        Ok(())
    }

    // A panel's report, of an error or of none; where it is refused, all stays as it is.
    pub fn report(&mut self, address: u32, error: bool) -> Result<(), Refusal>
        ensures { (self.new, result) ≡ report_of self.old address error }
    {
        let a = address_of(address)?;
        if !self.is_present(a) {
            return Err(Refusal::NoPanel);
        }
        self.put(a, error);
        Ok(())
    }

    // The panel that is polled next, if one is registered. After a poll of one in error the ordinary ones come first, else those in error.
    pub fn pick(&mut self) -> Option<u8>
        ensures { (self.new, result) ≡ pick_of self.old }
    {
        let first = self.faulty != 1;
        if let Some(a) = self.group(first).next() {
            self.keep(first, a);
            return Some(a);
        }
        let second = self.faulty == 1;
        let b = self.group(second).next()?;
        self.keep(second, b);
        Some(b)
    }
}
