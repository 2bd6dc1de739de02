// What the units of a table come to if only time goes on. They are as a reading left them: no sights of them are known.
ghost use Rattle.std.specs.Prelude.{◌≡◌, [], ◌≤◌, length};
ghost use Rattle.csl.specs.Outcomes.{Residue};
ghost use Rattle.cells.specs.Ahead.{unit_ahead, ahead};
ghost use Rattle.residues.specs.Reduces.{Is, farthest};
ghost use Rattle.walk.specs.Tree.{Waiting};
ghost use Rattle.walk.specs.Ahead.{UnitsOf, SomeUnits, SortIs, ComesTo, Tells};

use crate::tree::natural;
use crate::{clause_at, waiting_unit};
use activation::leads::breach_ahead;
use cells::{FIRST_PARAM, FIRST_VALUE, UNIT_CELLS, Values};
use kinds::Join;
use parties::Breach;
use records::{Agreement, IN_SIGHT};
use residues::{Reduced, join};
use waits::Event;

// The most party parameters in sight.
const MOST_PARAMS: usize = 4;

// What a tree of units comes to, and how many units it has.
#[derive(Clone, Copy, Debug, PartialEq, Eq)]
struct Foretold {
    outcome: Reduced,
    units: usize,
}

// What a waiting unit comes to. All its cells of parameters and of values are lent: zeros stand where nothing is in
// sight. (Most units are obligations: their breach is told straight from the record.)
fn unit_ahead(agreement: &Agreement<'_>, unit: &[i64]) -> Reduced
    requires near { length agreement.now ≤ farthest }
    requires waits { (length unit.now ≡ 24) × Waiting (length agreement.now) 4 16 unit.now }
    ensures { Is (unit_ahead agreement.now unit.now) result [] }
{
    let s = clause_at(agreement.bytes(), natural(unit, 1));
    let params = &unit[FIRST_PARAM..FIRST_PARAM + MOST_PARAMS];
    let values = Values {
        cells: &unit[FIRST_VALUE..UNIT_CELLS],
    };
    match breach_ahead(s, params, values, natural(unit, 2)) {
        Some(breach) => Reduced::Breach(breach),
        None => {
            let event = Event::Forecast;
            waiting_unit(agreement, event, MOST_PARAMS, IN_SIGHT, unit, &mut []).outcome
        }
    }
}

// How a unit of this sort joins two sides; none where it waits.
fn joins(sort: i64) -> Option<Join>
    ensures { SortIs sort result }
{
    // a unit's sort is a number, a rule of the project
    if sort < 20 {
        None
    } else if sort == 20 {
        Some(Join::And)
    } else {
        Some(Join::Or)
    }
}

// What the tree at the front comes to. A join is followed by all of its left side, then all of its right.
fn tree_ahead(agreement: &Agreement<'_>, cells: &[i64]) -> Foretold
    requires near { length agreement.now ≤ farthest }
    requires tree { SomeUnits (length agreement.now) cells.now }
    ensures { (res : Residue) → UnitsOf (length agreement.now) res cells.now → ComesTo agreement.now res cells.now result }
{
    match joins(cells[0]) {
        None => Foretold {
            outcome: unit_ahead(agreement, &cells[..UNIT_CELLS]),
            units: 1,
        },
        Some(kind) => {
            let left = tree_ahead(agreement, &cells[UNIT_CELLS..]);
            let right = tree_ahead(agreement, &cells[UNIT_CELLS * (1 + left.units)..]);
            Foretold {
                outcome: join(kind, left.outcome, right.outcome, &mut []),
                units: 1 + left.units + right.units,
            }
        }
    }
}

// The breach that the residue at the front of cells comes to, or none. Nothing waits on.
pub fn ahead(agreement: &Agreement<'_>, cells: &[i64]) -> Option<Breach>
    requires near { length agreement.now ≤ farthest }
    requires tree { SomeUnits (length agreement.now) cells.now }
    ensures { (res : Residue) → UnitsOf (length agreement.now) res cells.now → Tells (ahead agreement.now res cells.now) result }
{
    match tree_ahead(agreement, cells).outcome {
        Reduced::Breach(breach) => Some(breach),
        _ => None,
    }
}
