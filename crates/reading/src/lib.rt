// One reading: a telegram gives what a result starts from, and that gives the result, the error, the analog code, the drive, and where a half decided.
// Uses `settings` for the table, and `ssi`, `roundloop`, `measurement` and `analog`, which it hands the settings to.
#![tactic(auto)]

ghost use Rattle.std.specs.Prelude.{◌≡◌, ◌≤◌, ◌<◌, ◌^◌};
ghost use Rattle.parameters.specs.Valid.{Valid};
ghost use Rattle.measurement.specs.Sound as measurement;
ghost use Rattle.ssi.specs.Sound.{Sound};
ghost use Rattle.ssi.specs.Telegram.{modulus};
ghost use Rattle.reading.specs.Follow.{count_after, held_of, basis_after};
ghost use Rattle.reading.specs.Reading.{accepts_of, code_at, coded_at, drive_at, halves, no_halves, mark, halves_number, in_scaling, in_linearization, in_analog, marks_of, marked_of};
ghost use Rattle.reading.specs.ReadingWay.{basis_by, marked_by};

use analog::{Coded, Drive};
use measurement::{Error, Measured, Measurement, Scaling};
use settings::Span;
use ssi::Layout;

// What a result starts from.
#[derive(Clone, Copy)]
pub struct Basis {
    // What the offset is subtracted from: the position after direction, with a round loop the count.
    pub start: u32,
    // The position after direction that the count was last counted from.
    pub last: u32,
    // Whether the telegram's error bit stands at its error level.
    pub reported: bool,
    // Whether there is a count.
    pub counted: bool,
}

// What a telegram reads as.
#[derive(Clone, Copy)]
pub struct Reading {
    // The result, 0 under an error.
    pub result: i32,
    pub error: Option<Error>,
    // The analog code of the result.
    pub code: i32,
    // The drive of the code, off under an error.
    pub drive: Drive,
}

// Where a half decided.
// Kept: one byte, since three bools are copied slowly on the way of a telegram, and hold fewer values.
#[derive(Clone, Copy, Debug, PartialEq, Eq)]
pub struct Halves {
    // 1 for scaling, 2 for linearization, 4 for the code before it is held, added.
    pub number: u8,
}

impl Halves {
    // Whether one decided in scaling.
    pub fn scaling(self) -> bool
        ensures { result ≡ in_scaling self.number }
    {
        self.number % 2 == 1
    }

    // Whether one decided in linearization.
    pub fn linearization(self) -> bool
        ensures { result ≡ in_linearization self.number }
    {
        self.number / 2 % 2 == 1
    }

    // Whether one decided in the analog code.
    pub fn analog(self) -> bool
        ensures { result ≡ in_analog self.number }
    {
        self.number / 4 % 2 == 1
    }
}

// A reading with its marks.
#[derive(Clone, Copy)]
pub struct Marked {
    pub reading: Reading,
    pub halves: Halves,
}

// Whether a telegram has no bit set above bit N.
pub fn accepts(t: &[i32; 104], telegram: u32) -> bool
    requires { Valid t.now }
    ensures { result ≡ accepts_of t.now telegram }
{
    ssi::accepts(settings::layout(t), telegram)
}

// With a round loop, a telegram under error 3: the count stays, and where it was last counted from.
fn held(b: Basis) -> Basis
    ensures { result ≡ held_of b }
{
    let mut n = b;
    n.reported = true;
    n
}

// The count after one more position.
fn count_after(r: u32, width: u32, b: Basis, p: u32) -> u32
    requires { (1 ≤ r) × (width ≤ 32) }
    ensures { result ≡ count_after r (2 ^ width) b p }
{
    if b.counted {
        return roundloop::counted(width, r, b.start, b.last, p);
    }
    roundloop::first(r, p)
}

// What a result starts from, behind what the telegram before left, by the position and whether the error bit reports.
pub fn basis_by(l: Layout, reverse: u32, r: u32, b: Basis, p: u32, reported: bool) -> Basis
    requires { Sound l × (p < modulus l) }
    ensures { result ≡ basis_by l reverse r b p reported }
{
    let width = ssi::width(l);
    let start = measurement::directed(reverse, width, p);
    if r == 0 {
        return Basis {
            start,
            last: 0,
            reported,
            counted: false,
        };
    }
    if reported {
        return held(b);
    }
    Basis {
        start: count_after(r, width, b, start),
        last: start,
        reported: false,
        counted: true,
    }
}

// The same of an accepted telegram.
pub fn basis_after(t: &[i32; 104], b: Basis, telegram: u32) -> Basis
    requires { Valid t.now }
    ensures { result ≡ basis_after t.now b telegram }
{
    let l = settings::layout(t);
    let p = ssi::position(l, telegram);
    let reported = ssi::error_reported(l, telegram);
    basis_by(
        l,
        settings::direction(t),
        settings::round_loop(t),
        b,
        p,
        reported,
    )
}

// The analog code of a measured result, with its mark.
fn code_of(a: Span, m: Measured) -> Coded
    ensures { result ≡ coded_at a m }
{
    analog::code(a.format, a.start, a.end, m.result)
}

// The drive of a measured result with its code: off under an error.
fn driven(a: Span, m: Measured, code: i32) -> Drive
    requires { code ≡ code_at a m }
    ensures { result ≡ drive_at a m }
{
    if m.error.is_none() {
        return analog::drive_of(a.format, code);
    }
    Drive::Off
}

// No half decided.
pub fn no_halves() -> Halves
    ensures { result ≡ no_halves }
{
    Halves { number: 0 }
}

// A mark's worth, or 0.
fn mark(half: bool, worth: u8) -> u8
    ensures { result ≡ mark half worth }
{
    if half {
        return worth;
    }
    0
}

// The three marks in one number.
fn added(scaling: bool, linearization: bool, analog: bool) -> u8
    ensures { result ≡ halves_number (halves scaling linearization analog) }
{
    mark(scaling, 1) + mark(linearization, 2) + mark(analog, 4)
}

// The marks as one number.
pub fn halves_number(h: Halves) -> u8
    ensures { result ≡ halves_number h }
{
    h.number
}

// The marks of a reading, with that of its code: none under an error.
fn marks(x: Measurement, analog: bool) -> Halves
    ensures { result ≡ marks_of x analog }
{
    if x.measured.error.is_none() {
        return Halves {
            number: added(x.scaling, x.linearization, analog),
        };
    }
    no_halves()
}

// Result, error, code and drive of what a result starts from, and where a half decided, by the settings.
pub fn read_by(s: Scaling, points: &[i32], a: Span, b: Basis) -> Marked
    requires { measurement.Sound s points.now }
    ensures { result ≡ marked_by s points.now a b }
{
    let x = measurement::measure(s, points, b.start, b.reported);
    let m = x.measured;
    let c = code_of(a, m);
    let drive = driven(a, m, c.code);
    let halves = marks(x, c.half);
    let error = m.error;
    let reading = Reading {
        result: m.result,
        error,
        code: c.code,
        drive,
    };
    Marked { reading, halves }
}

// The same under a table.
pub fn read(t: &[i32; 104], b: Basis) -> Marked
    requires { Valid t.now }
    ensures { result ≡ marked_of t.now b }
{
    read_by(
        settings::scaling(t),
        settings::points(t),
        settings::analog_span(t),
        b,
    )
}
