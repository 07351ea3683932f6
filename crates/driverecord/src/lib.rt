// The record of what the analog line was driven with: present, lowest and highest drive.
// Uses `analog` for the drive.
#![tactic(auto)]

ghost use Rattle.std.specs.Prelude.{◌≡◌};
ghost use Rattle.driverecord.specs.DriveRecord.{present_of, empty_at, fresh_record, lower_of, higher_of, widened_by, left_alone, updated_of, emptied};
ghost use Rattle.driverecord.specs.Numbers.{Number, Numbers};

use analog::Drive;

// Present, lowest and highest drive, in the unit of the format.
#[derive(Clone, Copy)]
pub struct DriveRecord {
    // 0 while the drive is off.
    pub present: f32,
    // Since the last clear; 0 while empty.
    pub lowest: f32,
    pub highest: f32,
    // 1 where there is no lowest and no highest, else 0. As wide as a float, so that the four are copied as they are stored.
    pub empty: u32,
}

// Present as given, lowest and highest empty.
fn empty_at(present: f32) -> DriveRecord
    ensures { result ≡ empty_at present }
{
    DriveRecord {
        present,
        lowest: 0.0,
        highest: 0.0,
        empty: 1,
    }
}

// Before the first event: present 0, lowest and highest empty.
pub fn fresh() -> DriveRecord
    ensures { result ≡ fresh_record }
{
    empty_at(0.0)
}

// A clear: lowest and highest empty, until the end of its event.
pub fn empty(r: DriveRecord) -> DriveRecord
    ensures { result ≡ emptied r }
{
    empty_at(r.present)
}

// The lower of two drives.
fn lower(x: f32, y: f32) -> f32
    requires { Number x × Number y }
    ensures { result ≡ lower_of x y }
{
    if x < y {
        return x;
    }
    y
}

// The higher of two drives.
fn higher(x: f32, y: f32) -> f32
    requires { Number x × Number y }
    ensures { result ≡ higher_of x y }
{
    if y < x {
        return x;
    }
    y
}

// With one more drive.
fn widened(r: DriveRecord, p: f32) -> DriveRecord
    requires { Numbers r × Number p }
    ensures { result ≡ widened_by r p }
{
    if r.empty == 1 {
        return DriveRecord {
            present: p,
            lowest: p,
            highest: p,
            empty: 0,
        };
    }
    DriveRecord {
        present: p,
        lowest: lower(p, r.lowest),
        highest: higher(p, r.highest),
        empty: 0,
    }
}

// The drive is off: present is 0, lowest and highest stay.
fn left_alone(r: DriveRecord) -> DriveRecord
    ensures { result ≡ left_alone r }
{
    DriveRecord { present: 0.0, ..r }
}

// Brought up to date with the drive at the end of an event. No float that is compared is a NaN.
pub fn updated(r: DriveRecord, d: Drive) -> DriveRecord
    requires { Numbers r × Number (present_of d) }
    ensures { result ≡ updated_of r d }
{
    match d {
        Drive::Off => left_alone(r),
        Drive::Volts(x) => widened(r, x),
        Drive::Milliamps(x) => widened(r, x),
    }
}
