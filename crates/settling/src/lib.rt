// A run's table after a reading.
#![tactic(auto)]

ghost use Rattle.std.specs.Prelude.{◌≡◌, cond, not, ◌||◌, ◌++◌, ◌∷◌, [], ◌+◌, ◌*◌, ◌/◌, ◌%◌, ◌≤◌, ◌<◌, pos, length};
ghost use Rattle.std.specs.Prelude.{drop, get_or, take};
ghost use Rattle.std.specs.Option.{ForSome};
ghost use Rattle.csl.specs.Run.{same_numbers};
ghost use Rattle.csl.specs.Table.{padded};
ghost use Rattle.cells.specs.Across.{nat_of};
ghost use Rattle.residues.specs.Reduces.{bits_in};
ghost use Rattle.settling.specs.Settles.{Settles, Whole, ended, gone_on, other_units};

pub mod before;

use cells::{HEAD_CELLS, LAST_MOVED, TABLE_CELLS, UNIT_CELLS};
use kinds::RunState;
use parties::Breach;
use residues::{Reduced, copy, fill};

// The table of a run that ends at `time`, fulfilled or with a breach: a head, and no unit. (Here and below a cell is an
// i64 as in the C interface, and what is counted or a set's bits are a usize.)
fn end_run(table: &mut [i64; TABLE_CELLS], time: i64, breach: Option<Breach>)
    requires { ForSome breach (λ b. b.parties < 65_536) }
    ensures { table.new ≡ padded 3080 (ended time breach) }
{
    let (state, at, parties) = match breach {
        None => (RunState::Fulfilled, 0, 0),
        Some(b) => (RunState::Breached, b.time, b.parties.bits() as i64),
    };
    let head = [i64::from(state), time, at, parties, 0, time, 0, 0];
    fill(table, &head);
}

// The cells are those of the unit. (`==` on the slices takes 132 instructions for a unit, this takes 74. To be arrays,
// parts of a table and a residue would need an `unwrap`.)
fn same(cells: &[i64], unit: &[i64]) -> bool
    requires { (length cells.now ≡ 24) × (length unit.now ≡ 24) }
    ensures { result ≡ same_numbers cells.now unit.now }
{
    cells.iter().zip(unit).all(|(x, y)| x == y)
}

// One unit's 24 cells. They are written where something has altered before them or in them; the answer says so.
#[tactic(auto, using(crate::proofs::Units::sameness, crate::proofs::Units::copied_whole))]
fn put_unit(unit: &mut [i64], cells: &[i64], altered: bool) -> bool
    requires { (length unit.old ≡ 24) × (length cells.now ≡ 24) }
    ensures { (unit.new ≡ cells.now) × (result ≡ (altered || not (same_numbers cells.now unit.old))) }
{
    let altered = altered || !same(cells, unit);
    if altered {
        copy(unit, cells);
    }
    altered
}

// A residue's units go to the front of the table's, unit by unit. The answer is whether something has altered.
// By number: of parts that `chunks_exact_mut` lends a proof knows no cell afterwards.
fn put_units(units: &mut [i64], residue: &[i64], known: bool) -> bool
    requires { (length residue.now % 24 ≡ 0) × (length residue.now ≤ length units.old) }
    ensures { (units.new ≡ residue.now ++ drop (length residue.now) units.old)
        × (result ≡ (known || not (same_numbers residue.now (take (length residue.now) units.old)))) }
{
    let mut altered = known;
    for k in 0..residue.len() / UNIT_CELLS {
        let at = UNIT_CELLS * k;
        altered = put_unit(
            &mut units[at..at + UNIT_CELLS],
            &residue[at..at + UNIT_CELLS],
            altered,
        );
    }
    altered
}

// When the run last moved: at `time`, or when the table says. (Table and time go on as they are: a struct of them would
// lend the table once more.)
fn last_moved(table: &[i64; TABLE_CELLS], time: i64, altered: bool) -> i64
    ensures { result ≡ cond altered time (get_or table.now 5 (pos 0)) }
{
    if altered { time } else { table[LAST_MOVED] }
}

// The table of a run that goes on with a residue's units where so many were in use. It has moved unless they are the
// same, which the answer says; other units in use have altered without looking further.
fn go_on(table: &mut [i64; TABLE_CELLS], used: usize, time: i64, residue: &[i64]) -> bool
    requires { (length residue.now % 24 ≡ 0) × (length residue.now ≤ 3072) × (used ≤ 128) }
    ensures { (table.new ≡ gone_on time used (length residue.now / 24) residue.now table.old)
        × (result ≡ other_units used residue.now table.old) }
{
    let n = residue.len() / UNIT_CELLS;
    let altered = put_units(&mut table[HEAD_CELLS..], residue, n != used);
    table[HEAD_CELLS + UNIT_CELLS * n..].fill(0);
    let moved = last_moved(table, time, altered);
    let units = n as i64;
    let head = [i64::from(RunState::Running), time, 0, 0, units, moved, 0, 0];
    table[..HEAD_CELLS].copy_from_slice(&head);
    altered
}

// Writes the table of a run at `time`, whose residue stands whole at the end of `out`; `used` units were in use before.
// The answer is whether a unit or the state has altered.
pub fn settle(
    table: &mut [i64; TABLE_CELLS],
    used: usize,
    time: i64,
    r: Reduced,
    out: &[i64],
) -> bool
    requires { (used ≤ 128) × Whole r out.now × (time ≡ pos (nat_of time)) × (bits_in r < 65_536) }
    ensures { Settles (nat_of time) used r out.now table.old table.new result }
{
    match r {
        Reduced::Done => {
            end_run(table, time, None);
            true
        }
        Reduced::Breach(b) => {
            end_run(table, time, Some(b));
            true
        }
        Reduced::Running(n) => {
            let from = out.len() - UNIT_CELLS * n;
            go_on(table, used, time, &out[from..])
        }
    }
}
