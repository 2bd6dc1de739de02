// Refusals 8 and 9: what a reading's bytes are, and whether they fit the agreement.
#![tactic(auto)]

mod reading;

ghost use Rattle.std.specs.Prelude.{◌≡◌, ◌≤◌, take, length};
ghost use Rattle.csl.specs.Run.{raw_reading, numbers_from};
ghost use Rattle.readings.specs.Values.{values_read};
ghost use Rattle.readings.specs.Taking.{CountIs, RawIs, TypedIs, TakenIs};

use octets::{byte, is_record, kind, signed32, unsigned32};
pub use reading::{MOST_VALUES, Reading};
use records::Agreement;
use records::values::values_ok;

// Why a reading is refused: the bytes are none, or they fit no reading type of the agreement.
#[derive(Clone, Copy, Debug, PartialEq, Eq)]
pub enum Misfit {
    Malformed,
    Untyped,
}

// The bytes of a reading of no values, and of four.
const SHORTEST: usize = 9;

const LONGEST: usize = 25;

// How many values the bytes have, where they are a record of kind 64 with 0 to 4.
#[tactic(auto, using(crate::proofs::Raw::raw_none))]
fn value_count(bytes: &[u8]) -> Option<usize>
    ensures { CountIs bytes.now result }
{
    let n = bytes.len();
    if SHORTEST <= n && n <= LONGEST && is_record(bytes) && kind(bytes) == 64 {
        ((n - SHORTEST) % 4 == 0).then_some((n - SHORTEST) / 4)
    } else {
        None
    }
}

// The n numbers of a reading. (No plainer by `chunks_exact`: the bytes behind byte 9 are to be cut off first, and each
// number is then read at place 0 of a part, which the definition reads at its place.)
fn read_numbers(bytes: &[u8], n: usize) -> [i64; MOST_VALUES]
    requires { n ≤ 4 }
    ensures { (take n result ≡ numbers_from n bytes.now 9) × (length result ≡ 4) }
{
    let mut cells = [0; MOST_VALUES];
    for i in 0..n {
        cells[i] = signed32(bytes, 9 + 4 * i);
    }
    cells
}

// None where refusal 8 is due.
fn raw_reading(bytes: &[u8]) -> Option<Reading>
    ensures { RawIs bytes.now result }
{
    let count = value_count(bytes)?;
    Some(Reading {
        time: unsigned32(bytes, 4),
        tag: byte(bytes, 8),
        cells: read_numbers(bytes, count),
        count,
    })
}

// The values are those of a reading of its type. Type 0 is a time mark.
fn is_typed(agreement: &Agreement<'_>, reading: &Reading) -> bool
    ensures { TypedIs agreement.now reading.now.tag (values_read reading.now) result }
{
    let values = reading.values();
    match agreement.types_wanted(reading.tag) {
        Some(types) => {
            types.len() == values.len() && values_ok(types, values, agreement.parties())
        }
        None => reading.tag == 0 && values.len() == 0,
    }
}

// The reading in the bytes.
pub fn take(agreement: &Agreement<'_>, bytes: &[u8]) -> Result<Reading, Misfit>
    ensures { TakenIs agreement.now bytes.now result }
{
    let reading = raw_reading(bytes).ok_or(Misfit::Malformed)?;
    is_typed(agreement, &reading)
        .then_some(reading)
        .ok_or(Misfit::Untyped)
}
