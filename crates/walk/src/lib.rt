// The rules at every unit of a table.
#![tactic(auto)]

pub mod ahead;
pub mod later;
mod tree;

ghost use Rattle.std.specs.Prelude.{◌≡◌, ◌+◌, ◌≤◌, length};
ghost use Rattle.csl.specs.Bytes.{part, record_end};
ghost use Rattle.residues.specs.Reduces.{farthest};
ghost use Rattle.residues.specs.Tallies.{Reckons};
ghost use Rattle.waits.specs.Fates.{mode_at};
ghost use Rattle.cells.specs.Across.{unit_reckoned};
ghost use Rattle.walk.specs.Tree.{Waiting, Tree, tree_reckoned};

use activation::{Placed, activate};
use cells::{FIRST_PARAM, FIRST_VALUE, Sight, UNIT_CELLS, Values};
use octets::record_end;
use records::Agreement;
use residues::tallies::join_tallies;
use residues::{Reckoned, join, room_left};
pub use tree::Units;
use tree::natural;
use waits::Event;

// The bytes of the clause at a place.
fn clause_at(agreement: &[u8], place: usize) -> &[u8]
    requires { place ≤ length agreement.now }
    ensures { (result.now ≡ part agreement.now place (record_end agreement.now place))
        × (place + length result.now ≤ length agreement.now) }
{
    let end = record_end(agreement, place);
    &agreement[place..end]
}

// What a waiting unit becomes, with so many party parameters and values in sight. (A unit's 24 cells are a slice: as an
// array, a part of the table would need an `unwrap`. How long the agreement is, is asked by itself: an `Agreement` is
// of any length.)
fn waiting_unit<'a>(
    agreement: &'a Agreement<'a>,
    event: Event<'_>,
    params: usize,
    values: usize,
    unit: &'a [i64],
    out: &mut [i64],
) -> Reckoned
    requires near { length agreement.now ≤ farthest }
    requires waits { (length unit.now ≡ 24) × Waiting (length agreement.now) params values unit.now }
    ensures { Reckons (unit_reckoned (mode_at event.entry) agreement.now params values unit.now) result out.new }
{
    let place = natural(unit, 1);
    let bytes = clause_at(agreement.bytes(), place);
    let params = &unit[FIRST_PARAM..FIRST_PARAM + params];
    let values = Values {
        cells: &unit[FIRST_VALUE..FIRST_VALUE + values],
    };
    let placed = Placed::new(agreement, place, natural(unit, 2), bytes, params, values);
    activate(event, &placed, out)
}

// What becomes of the units, a tree, what runs of it standing at the end of `out`. A join is followed by all of its
// left side, then all of its right: the right side goes first, then the left side into the room that is left.
pub fn across(
    agreement: &Agreement<'_>,
    event: Event<'_>,
    units: Units<'_>,
    out: &mut [i64],
) -> Reckoned
    requires near { length agreement.now ≤ farthest }
    requires tree { Tree (length agreement.now) units.sights.now units.cells.now (length units.sights.now) }
    ensures { Reckons (tree_reckoned (mode_at event.entry) agreement.now (length units.entry.sights.now)
        units.entry.sights.now units.entry.cells.now) result out.new }
{
    let sight = units.sights[0];
    match sight {
        Sight::Waits { params, values } => {
            let unit = &units.cells[..UNIT_CELLS];
            // lent again: the proof's reading of borrows covers no reference that is passed on for a shorter time
            waiting_unit(&*agreement, event, params, values, unit, out)
        }
        Sight::Joins { join: kind, left } => {
            let right = units.part(1 + left, units.sights.len());
            let r = across(agreement, event, right, out);
            let room = room_left(r.outcome, out.len());
            let l = across(agreement, event, units.part(1, 1 + left), &mut out[..room]);
            Reckoned {
                outcome: join(kind, l.outcome, r.outcome, out),
                tally: join_tallies(kind, l.tally, r.tally),
            }
        }
    }
}
