// From a position to the result: direction, offset, round loop, scaling, linearization and the errors.
// Uses `integers` for the rounding division and the remainder; knows plain numbers and the points' words, no slots.
#![tactic(auto)]

ghost use Rattle.std.specs.Prelude.{◌≡◌, Some, ◌+◌, ◌*◌, ◌^◌, ◌≤◌, ◌<◌, pos, length};
ghost use Rattle.integers.specs.Int.{Within};
ghost use Rattle.integers.specs.Fraction.{whole, rounded};
ghost use Rattle.measurement.specs.Curve.{point_at, highest_of, line_value, points_from, four_quadrants, one_quadrant, linearized_by};
ghost use Rattle.measurement.specs.Measure.{error_number, measured, directed_of, distance_of, scaled_by, judged_of, measurement_of};
ghost use Rattle.measurement.specs.Sound.{OnLine, Usable, Linearizable, Sound};

use integers::Rounded;

// What is wrong with a reading.
#[derive(Clone, Copy)]
pub enum Error {
    // The value is above 99,999,999.
    AboveRange,
    // The value is below -99,999,999.
    BelowRange,
    // The telegram's error bit stands at its error level.
    ErrorBit,
}

// The number of an error, 0 for none.
pub fn error_number(e: Option<Error>) -> u32
    ensures { result ≡ error_number e }
{
    match e {
        None => 0,
        Some(Error::AboveRange) => 1,
        Some(Error::BelowRange) => 2,
        Some(Error::ErrorBit) => 3,
    }
}

// The result of a reading, 0 under an error, and what is wrong with it.
// Kept: the pair, no `Result`, since the definition `judged_of` has a result beside each error, 0, which the switches, the shown value and the analog code take.
#[derive(Clone, Copy)]
pub struct Measured {
    pub result: i32,
    pub error: Option<Error>,
}

// A reading, and where a half decided on the way to it, whatever its error.
#[derive(Clone, Copy)]
pub struct Measurement {
    pub measured: Measured,
    // In scaling.
    pub scaling: bool,
    // In linearization.
    pub linearization: bool,
}

// How a position becomes a result: the numbers as the table has them.
// Kept: direction, round loop and linearization are numbers, since `measure` and `directed` take any number there; an enum would ask more.
#[derive(Clone, Copy)]
pub struct Scaling {
    // 1 where the encoder counts the other way.
    pub direction: u32,
    // O, subtracted from the position.
    pub offset: i32,
    // Round loop R, 0 off.
    pub round_loop: u32,
    // Factor and divider, both in 0.00001.
    pub factor: u32,
    pub divider: u32,
    // A, added after the division.
    pub additive: i32,
    // 0 off, 1 one quadrant, 2 four quadrants.
    pub linearization: u32,
    // How many control points are in use.
    pub used: usize,
}

// Step 1, direction: 1 replaces p by (M - p) modulo M, with M = 2 ^ width.
pub fn directed(reverse: u32, width: u32, p: u32) -> u32
    requires { (width ≤ 32) × (p < 2 ^ width) }
    ensures { result ≡ directed_of reverse width p }
{
    if reverse == 1 {
        let m: u64 = 1 << width;
        let q = (m - p as u64) % m;
        return q as u32;
    }
    p
}

// Step 2: the position less the offset, and with a round loop that modulo its length.
fn distance(p: u32, offset: i32, round_loop: u32) -> i64
    ensures { result ≡ distance_of p offset round_loop }
{
    let d = p as i64 - offset as i64;
    if round_loop == 0 {
        return d;
    }
    integers::floor_rem(d, round_loop as i64)
}

// Step 3: the distance times factor by divider, rounded, plus the additive value.
fn scaled(d: i64, factor: u32, divider: u32, additive: i32) -> Rounded
    requires { Within 4394967294 d × (factor ≤ 9999999) }
    ensures { result ≡ scaled_by d factor divider additive }
{
    let q = integers::round_div(d * factor as i64, divider as i64);
    let value = q.value + additive as i64;
    Rounded {
        value,
        half: q.half,
    }
}

// What is measured under an error: the result is 0.
fn faulty(error: Error) -> Measured
    ensures { result ≡ measured (pos 0) (Some error) }
{
    Measured {
        result: 0,
        error: Some(error),
    }
}

// Step 5: the error bit first, then the range.
fn judged(reported: bool, v: i64) -> Measured
    ensures { result ≡ judged_of reported v }
{
    if reported {
        return faulty(Error::ErrorBit);
    }
    if integers::Z < v {
        return faulty(Error::AboveRange);
    }
    if v < -integers::Z {
        return faulty(Error::BelowRange);
    }
    let result = v as i32;
    Measured {
        result,
        error: None,
    }
}

// The x of control point i, counted from 0.
fn x_of(points: &[i32], i: usize) -> i64
    requires { 2 * i < length points.now }
    ensures { result ≡ (point_at points.now i).x }
{
    points[2 * i] as i64
}

// The place of the highest of the first n control points whose x is at most v, counted from 0, or none.
// K3: the search starts at the last used point and goes down; the first point that fits is the highest, and ends it.
fn highest(points: &[i32], n: usize, v: i64) -> Option<usize>
    requires { 2 * n ≤ length points.now }
    ensures { result ≡ highest_of points.now n v }
{
    for i in (0..n).rev() {
        if x_of(points, i) <= v {
            return Some(i);
        }
    }
    None
}

// A whole number, at which no half decides.
fn whole(z: i64) -> Rounded
    ensures { result ≡ rounded (whole z) }
{
    Rounded {
        value: z,
        half: false,
    }
}

// The straight line from (x, y) to (x1, y1) at v: the whole fraction, rounded once.
fn on_line(x: i32, y: i32, x1: i32, y1: i32, v: i64) -> Rounded
    requires { OnLine x y x1 y1 v }
    ensures { result ≡ line_value x y x1 y1 v }
{
    let dx = x1 as i64 - x as i64;
    let dy = y1 as i64 - y as i64;
    let start = y as i64 * dx;
    let rise = (v - x as i64) * dy;
    integers::round_div(start + rise, dx)
}

// From point i on, the highest with x at most v: the line to the next point, or its own y beyond the last.
fn from_point(points: &[i32], n: usize, i: usize, v: i64) -> Rounded
    requires { Usable points.now n × (highest_of points.now n v ≡ Some i) }
    ensures { result ≡ rounded (four_quadrants (points_from points.now 0 n) (whole v)) }
{
    let k = 2 * i;
    if i + 1 == n {
        return whole(points[k + 1] as i64);
    }
    on_line(points[k], points[k + 1], points[k + 2], points[k + 3], v)
}

// Four quadrants: the curve at v, rounded once; before the first point its y.
fn four_quadrants(points: &[i32], n: usize, v: i64) -> Rounded
    requires { Usable points.now n }
    ensures { result ≡ rounded (four_quadrants (points_from points.now 0 n) (whole v)) }
{
    match highest(points, n, v) {
        Some(i) => from_point(points, n, i, v),
        None => whole(points[1] as i64),
    }
}

// One quadrant: a negative v gives minus the value for -v, and its mark.
fn one_quadrant(points: &[i32], n: usize, v: i64) -> Rounded
    requires { Usable points.now n × Within 50000000000000000 v }
    ensures { result ≡ rounded (one_quadrant (points_from points.now 0 n) (whole v)) }
{
    if v < 0 {
        let mirrored = four_quadrants(points, n, 0 - v);
        let value = 0 - mirrored.value;
        let half = mirrored.half;
        return Rounded { value, half };
    }
    four_quadrants(points, n, v)
}

// Step 4: by the mode, 0 off, 1 one quadrant, 2 four.
fn linearized(mode: u32, points: &[i32], n: usize, v: i64) -> Rounded
    requires { Linearizable mode points.now n × Within 50000000000000000 v }
    ensures { result ≡ linearized_by mode (points_from points.now 0 n) v }
{
    match mode {
        0 => whole(v),
        1 => one_quadrant(points, n, v),
        _ => four_quadrants(points, n, v),
    }
}

// Steps 2 to 5: the result and the error of a position after direction, and where a half decided.
pub fn measure(s: Scaling, points: &[i32], p: u32, reported: bool) -> Measurement
    requires { Sound s points.now }
    ensures { result ≡ measurement_of s points.now p reported }
{
    let d = distance(p, s.offset, s.round_loop);
    let v = scaled(d, s.factor, s.divider, s.additive);
    let w = linearized(s.linearization, points, s.used, v.value);
    let measured = judged(reported, w.value);
    Measurement {
        measured,
        scaling: v.half,
        linearization: w.half,
    }
}
