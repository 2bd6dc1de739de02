// Units of a table, as a tree: an `and` or `or` unit is followed by all of its left side, then all of its right.
ghost use Rattle.std.specs.Prelude.{◌≡◌, ◌-◌, ◌*◌, ◌≤◌, ◌<◌, pos, length, get_or, take, drop};
ghost use Rattle.cells.specs.Across.{nat_of};

use cells::{Sight, UNIT_CELLS};

// Units, with what is in sight at each: as many as there are sights, at the front of cells. (Two slices: the cells are
// the table's, and what is in sight is found where it is checked.)
#[derive(Clone, Copy)]
pub struct Units<'a> {
    pub sights: &'a [Sight],
    pub cells: &'a [i64],
}

impl<'a> Units<'a> {
    // Those from one to another.
    pub(crate) fn part(self, from: usize, to: usize) -> Units<'a>
        requires { (from ≤ to) × (to ≤ length self.sights.now) × (24 * from ≤ length self.cells.now) × (from ≤ 128) }
        ensures { (result.sights.now ≡ take (to - from) (drop from self.entry.sights.now))
            × (result.cells.now ≡ drop (24 * from) self.entry.cells.now) }
    {
        Units {
            sights: &self.sights[from..to],
            cells: &self.cells[UNIT_CELLS * from..],
        }
    }
}

// The natural number in a unit's cell, 0 where it has none.
pub(crate) fn natural(unit: &[i64], i: usize) -> usize
    requires { i < length unit.now }
    ensures { result ≡ nat_of (get_or unit.now i (pos 0)) }
{
    unit[i].max(0) as usize
}
