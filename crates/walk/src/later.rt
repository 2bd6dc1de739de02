// Whether some unit of a table wants a reading and opens later.
ghost use Rattle.std.specs.Prelude.{◌≡◌, List, ℕ, ◌≤◌, length};
ghost use Rattle.csl.specs.Syntax.{Head};
ghost use Rattle.csl.specs.Decode.{clause};
ghost use Rattle.residues.specs.Reduces.{farthest};
ghost use Rattle.cells.specs.Across.{clause_opens_later, some_open_later};
ghost use Rattle.cells.specs.Sights.{flat};
ghost use Rattle.walk.specs.Tree.{Seen, Tree, opens_at};
ghost use Rattle.readings.specs.Values.{values_read};

use crate::clause_at;
use crate::tree::{Units, natural};
use cells::{FIRST_VALUE, Sight, UNIT_CELLS, Values};
use octets::{is_record, kind};
use readings::Reading;
use records::MAIN_DEPTH;
use waits::Wait;

// The clause in the record s waits for this reading, and opens later.
fn clause_opens_later(reading: &Reading, s: &[u8], values: Values<'_>, a: usize) -> bool
    requires { a ≤ farthest }
    ensures { (hs : List Head) (p : ℕ) → result ≡ clause_opens_later reading.now.time reading.now.tag
        (values_read reading.now) (clause hs 23 p s.now) values.entry.cells.now a }
{
    if !is_record(s) {
        return false;
    }
    // a record's kind is decided by its number, a rule of the project
    let at = match kind(s) {
        17 => 5,
        18 => 4,
        _ => return false,
    };
    let wait = Wait {
        bytes: s,
        at,
        values,
        a,
        depth: MAIN_DEPTH - 1,
    };
    wait.opens_later(reading)
}

// A unit waits for this reading, and opens later. (Its cells are a slice, as in `waiting_unit`.)
fn unit_opens_later(agreement: &[u8], reading: &Reading, sight: Sight, unit: &[i64]) -> bool
    requires { (length unit.now ≡ 24) × Seen (length agreement.now) sight unit.now }
    ensures { result ≡ opens_at reading.now agreement.now sight unit.now }
{
    match sight {
        Sight::Waits { params: _, values } => {
            let s = clause_at(agreement, natural(unit, 1));
            let cells = &unit[FIRST_VALUE..FIRST_VALUE + values];
            clause_opens_later(reading, s, Values { cells }, natural(unit, 2))
        }
        Sight::Joins { .. } => false,
    }
}

// Some unit does.
pub fn some_open_later(agreement: &[u8], reading: &Reading, units: Units<'_>) -> bool
    requires near { length agreement.now ≤ farthest }
    requires tree { Tree (length agreement.now) units.sights.now units.cells.now (length units.sights.now) }
    ensures { result ≡ some_open_later reading.now.time reading.now.tag (values_read reading.now) agreement.now
        (length units.entry.sights.now) (flat units.entry.sights.now) units.entry.cells.now }
{
    let cells = units.cells.chunks_exact(UNIT_CELLS);
    units.sights.iter().zip(cells).any(|(sight, unit)| unit_opens_later(
        agreement, reading, *sight, unit,
    ))
}
