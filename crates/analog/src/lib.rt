// The analog value: the code of a result between analog start and end, and the drive of a code in volts or milliamps, with no rounding float step.
// Uses `integers` for the one rounding division.
#![tactic(auto)]

ghost use Rattle.std.specs.Prelude.{◌≡◌, pos};
ghost use Rattle.analog.specs.AnalogCode.{upper_of, lower_of, fraction, full_scale, lowest, on_scale, coded_of, CodeFits};
ghost use Rattle.analog.specs.Drives.{float_of, drive_of, drive_value, analog_value, Unrounded};
ghost use Rattle.integers.specs.Fraction.{Same, rounded};

use integers::Rounded;

// What the analog line is driven with.
#[derive(Clone, Copy)]
pub enum Drive {
    // 0 V or 0 mA, in every format.
    Off,
    // A voltage, from -10 V to 10 V.
    Volts(f32),
    // A current, up to 20 mA.
    Milliamps(f32),
}

// An analog code.
#[derive(Clone, Copy)]
pub struct Coded {
    // Held to the ends of its format.
    pub code: i32,
    // Whether a half decided, before the code was held.
    pub half: bool,
}

// The upper number of f, its sign turned where the end is below the start.
fn upper(start: i32, end: i32, r: i32) -> i64
    ensures { result ≡ upper_of start end r }
{
    if end < start {
        return start as i64 - r as i64;
    }
    r as i64 - start as i64
}

// The lower number of f: the distance of start and end.
fn lower(start: i32, end: i32) -> i64
    ensures { result ≡ pos (lower_of start end) }
{
    if end < start {
        return start as i64 - end as i64;
    }
    end as i64 - start as i64
}

// The highest code of a format.
fn full_scale(format: u32) -> i64
    ensures { result ≡ pos (full_scale format) }
{
    match format {
        0 => 32767,
        _ => 65535,
    }
}

// The lowest code of a format.
fn lowest_code(format: u32) -> i64
    ensures { result ≡ lowest format }
{
    match format {
        0 => -32767,
        _ => 0,
    }
}

// f on the format's scale, rounded, before it is held.
fn rounded(format: u32, start: i32, end: i32, r: i32) -> Rounded
    ensures { result ≡ rounded (on_scale format (fraction start end r)) }
{
    integers::round_div(full_scale(format) * upper(start, end, r), lower(start, end))
}

// Kept: the format is a number, since `code` takes any one; 2 and above are one format.
// The code of the result r between start and end in an analog format: 0 is ±10 V, 1 is 0..20 mA, 2 and above are 4..20 mA.
pub fn code(format: u32, start: i32, end: i32, r: i32) -> Coded
    ensures { result ≡ coded_of format start end r }
{
    let z = rounded(format, start, end, r);
    let code = z.value.clamp(lowest_code(format), full_scale(format)) as i32;
    let half = z.half;
    Coded { code, half }
}

// Kept: three functions of one line, since one with an offset would add 0 in formats 0 and 1, a step that `float_of` does not have; `Unrounded` and `drive_value` speak of its steps.
// code * 10 / 32768 volts.
fn volts(code: i32) -> f32
    requires { CodeFits 0 code }
    ensures { result ≡ float_of 0 code }
{
    code as f32 * 10.0 / 32768.0
}

// code * 20 / 65536 milliamps.
fn milliamps20(code: i32) -> f32
    requires { CodeFits 1 code }
    ensures { result ≡ float_of 1 code }
{
    code as f32 * 20.0 / 65536.0
}

// code * 16 / 65536 + 4 milliamps.
fn milliamps4(code: i32) -> f32
    requires { CodeFits 2 code }
    ensures { result ≡ float_of 2 code }
{
    code as f32 * 16.0 / 65536.0 + 4.0
}

// The drive of a code in its format. No float step on the way rounds.
pub fn drive_of(format: u32, code: i32) -> Drive
    requires { CodeFits format code }
    ensures is { result ≡ drive_of format code }
    ensures worth { Same (drive_value result) (analog_value format code) }
    ensures unrounded { Unrounded format code }
{
    match format {
        0 => Drive::Volts(volts(code)),
        1 => Drive::Milliamps(milliamps20(code)),
        _ => Drive::Milliamps(milliamps4(code)),
    }
}
