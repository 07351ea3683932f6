// The parts of a log word. Bits are numbered 31 to 0. Uses nothing.
ghost use Rattle.std.specs.Prelude.{◌≡◌, ◌≤◌};
ghost use Rattle.events.specs.Words.{bits_of, kind_of, kind_number, reserved_set, ms_of, levels_of, half_of, joined};

// Bits high..low of a word.
fn bits(w: u32, high: u32, low: u32) -> u32
    requires { (low ≤ high) × (high ≤ 31) }
    ensures { result ≡ bits_of high low w }
{
    (w >> low) & (0xffff_ffff >> (31 - (high - low)))
}

// The kind of a word: what it carries.
#[derive(Clone, Copy)]
pub enum Kind {
    // The time of a tick.
    Tick,
    // The levels of the inputs.
    Levels,
    // The upper half of a telegram.
    Upper,
    // The lower half of a telegram.
    Lower,
}

// The kind, by its number.
pub fn kind_of(w: u32) -> Kind
    ensures { kind_number result ≡ kind_of w }
{
    match bits(w, 31, 30) {
        0 => Kind::Tick,
        1 => Kind::Levels,
        2 => Kind::Upper,
        _ => Kind::Lower,
    }
}

// Whether any bit is set that the word's kind reserves.
pub fn reserved_set(w: u32) -> bool
    ensures { result ≡ reserved_set w }
{
    match kind_of(w) {
        Kind::Levels => bits(w, 29, 3) != 0,
        _ => bits(w, 29, 16) != 0,
    }
}

// The ms of a tick.
pub fn ms(w: u32) -> u16
    ensures { result ≡ ms_of w }
{
    let time = bits(w, 15, 0);
    time as u16
}

// The levels of the three inputs.
pub fn levels(w: u32) -> u8
    ensures { result ≡ levels_of w }
{
    bits(w, 2, 0) as u8
}

// The half of a telegram.
pub fn half(w: u32) -> u16
    ensures { result ≡ half_of w }
{
    bits(w, 15, 0) as u16
}

// The telegram of its halves.
pub fn telegram(upper: u16, lower: u16) -> u32
    ensures { result ≡ joined upper lower }
{
    (upper as u32) * 0x1_0000 + (lower as u32)
}
