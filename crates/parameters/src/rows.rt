// The rows of the table, the check of every slot against its row, and the defaults. Uses nothing.
ghost use Rattle.std.specs.Prelude.{◌≡◌};
ghost use Rattle.parameters.specs.Rows.{row_of, row_at, in_range, slot_out_of, default_table};

use std::array;

// A slot's row: the lowest word, the highest word, and the default.
// Kept: fields with names are no plainer, since a row then takes five lines in place of one.
#[derive(Clone, Copy)]
struct Row(i32, i32, i32);

// The hysteresis that all four preselections come with. Paper 02, K1.
const HYSTERESIS_DEFAULT: i32 = 2;

// Every slot's row, in the order of the slots; the points share the last.
const ROWS: [Row; 57] = [
    Row(10, 32, 25), // 0: resolution N
    Row(10, 16, 13), // 1: bits per turn
    Row(0, 1, 0), // 2: format: 0 Gray, 1 binary
    Row(1, 32, 25), // 3: high bit H
    Row(1, 32, 1), // 4: low bit B
    Row(-99_999_999, 99_999_999, 0), // 5: offset O
    Row(0, 1, 0), // 6: direction: 1 reverse
    Row(0, 99_999_999, 0), // 7: round loop R, 0 off
    Row(0, 32, 0), // 8: error bit, 0 none
    Row(0, 1, 1), // 9: level of the error bit that means error
    Row(1, 9_999_999, 100_000), // 10: factor
    Row(1, 9_999_999, 100_000), // 11: divider
    Row(-99_999_999, 99_999_999, 0), // 12: additive value A
    Row(0, 2, 0), // 13: linearization: 0 off, 1 one quadrant, 2 four
    Row(0, 2, 0), // 14: analog: 0 ±10 V, 1 0..20 mA, 2 4..20 mA
    Row(-99_999_999, 99_999_999, 0), // 15: analog start
    Row(-99_999_999, 99_999_999, 10_000), // 16: analog end
    Row(-99_999_999, 99_999_999, 1000), // 17: preselection 1
    Row(0, 6, 0), // 18: its mode
    Row(0, 9999, HYSTERESIS_DEFAULT), // 19: hysteresis
    Row(0, 60_000, 0), // 20: pulse, ms
    Row(0, 4, 1), // 21: target output, 0 none
    Row(0, 1, 0), // 22: polarity: 1 active low
    Row(0, 1, 0), // 23: lock
    Row(0, 1, 0), // 24: start-up suppression
    Row(-99_999_999, 99_999_999, 2000), // 25: preselection 2
    Row(0, 6, 0), // 26: its mode
    Row(0, 9999, HYSTERESIS_DEFAULT), // 27: hysteresis
    Row(0, 60_000, 0), // 28: pulse, ms
    Row(0, 4, 2), // 29: target output, 0 none
    Row(0, 1, 0), // 30: polarity: 1 active low
    Row(0, 1, 0), // 31: lock
    Row(0, 1, 0), // 32: start-up suppression
    Row(-99_999_999, 99_999_999, 3000), // 33: preselection 3
    Row(0, 6, 0), // 34: its mode
    Row(0, 9999, HYSTERESIS_DEFAULT), // 35: hysteresis
    Row(0, 60_000, 0), // 36: pulse, ms
    Row(0, 4, 3), // 37: target output, 0 none
    Row(0, 1, 0), // 38: polarity: 1 active low
    Row(0, 1, 0), // 39: lock
    Row(0, 1, 0), // 40: start-up suppression
    Row(-99_999_999, 99_999_999, 4000), // 41: preselection 4
    Row(0, 6, 0), // 42: its mode
    Row(0, 9999, HYSTERESIS_DEFAULT), // 43: hysteresis
    Row(0, 60_000, 0), // 44: pulse, ms
    Row(0, 4, 4), // 45: target output, 0 none
    Row(0, 1, 0), // 46: polarity: 1 active low
    Row(0, 1, 0), // 47: lock
    Row(0, 1, 0), // 48: start-up suppression
    Row(0, 8, 0), // 49: action of input 1
    Row(0, 3, 2), // 50: its config: 0 low, 1 high, 2 rising, 3 falling
    Row(0, 8, 0), // 51: action of input 2
    Row(0, 3, 2), // 52: its config: 0 low, 1 high, 2 rising, 3 falling
    Row(0, 8, 0), // 53: action of input 3
    Row(0, 3, 2), // 54: its config: 0 low, 1 high, 2 rising, 3 falling
    Row(2, 24, 2), // 55: points in use
    Row(-99_999_999, 99_999_999, 0), // 56..103: points, x then y
];

// Where the row of a slot stands.
fn row_of(slot: usize) -> usize
    ensures { result ≡ row_of slot }
{
    slot.min(56)
}

// The row of a slot.
fn row_at(slot: usize) -> Row
    ensures { result ≡ row_at slot }
{
    ROWS[row_of(slot)]
}

// Whether a word is within the range of a slot.
fn in_range(slot: usize, v: i32) -> bool
    ensures { result ≡ in_range slot v }
{
    let row = row_at(slot);
    (row.0 <= v) & (v <= row.1)
}

// The lowest slot out of range.
pub(crate) fn lowest_out(t: &[i32; 104]) -> Option<usize>
    ensures { result ≡ slot_out_of t.now }
{
    (0..104).find(|slot| !in_range(*slot, t[*slot]))
}

// The default of every slot.
pub fn defaults() -> [i32; 104]
    ensures { result ≡ default_table }
{
    array::from_fn(|slot| row_at(slot).2)
}
