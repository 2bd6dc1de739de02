// A step by the rules: what an event makes of the main clause or of a table's units, written where a table holds it.
#![tactic(auto)]

ghost use Rattle.std.specs.Prelude.{ℕ, ◌≡◌, ◌≤◌, length};
ghost use Rattle.residues.specs.Tallies.{Reckons};
ghost use Rattle.settling.specs.Before.{read_from, on_copy, Untouched};
ghost use Rattle.reduction.specs.Steps.{room_length, main_reckoned, Due, reckoned, Advances, Tried};

use activation::{Placed, activate};
use cells::{HEAD_CELLS, MOST_UNITS, Sight, TABLE_CELLS, UNIT_CELLS, Values};
use records::Agreement;
use residues::{Reckoned, units_of};
use settling::before::{copy_before, table_before};
use settling::settle;
use waits::Event;
use walk::{Units, across};

// Room for as many units as a table has.
const ALL_ROOM: usize = MOST_UNITS * UNIT_CELLS;

// A residue is first tried in room for so few units: to clear more room costs more than most readings do.
const FEW_UNITS: usize = 16;

// That room.
const FEW_ROOM: usize = FEW_UNITS * UNIT_CELLS;

// A try in too little room: so many units are needed, counted up to 129, and what the step costs.
#[derive(Clone, Copy, Debug, PartialEq, Eq)]
struct Short {
    units: usize,
    cost: usize,
}

// A step that is written: whether a unit or the state altered, a fact of it and no case of its own, and what it costs.
#[derive(Clone, Copy, Debug, PartialEq, Eq)]
pub struct Wrote {
    pub altered: bool,
    pub cost: usize,
}

// A step to more units than a table has, and what it costs.
#[derive(Clone, Copy, Debug, PartialEq, Eq)]
pub struct TooMany {
    pub cost: usize,
}

// A try in too little room that is the last one.
impl From<Short> for TooMany {
    ghost from_gives = { λ short many. many ≡ record { cost = short.cost } };

    fn from(short: Short) -> TooMany {
        TooMany { cost: short.cost }
    }
}

// The main clause activated at the start time; a residue grows downward from the end of out.
fn activate_main(agreement: &Agreement<'_>, out: &mut [i64]) -> Reckoned
    requires { length agreement.now ≤ 16_384 }
    ensures { Reckons (main_reckoned agreement.now) result out.new }
{
    let none = Values { cells: &[] };
    let main = Placed::new(
        agreement,
        agreement.main_place(),
        agreement.start(),
        agreement.main(),
        &[],
        none,
    );
    activate(Event::Activate, &main, out)
}

// What an event makes of the main clause, at the start, or of a table's units; a residue stands at the end of out.
fn reduce(
    agreement: &Agreement<'_>,
    sights: &[Sight],
    table: &[i64; TABLE_CELLS],
    used: usize,
    event: Event<'_>,
    out: &mut [i64],
) -> Reckoned
    requires { (time : ℕ) × Due agreement.now sights.now table.now used time event }
    ensures { Reckons (reckoned agreement.now sights.now table.now used event.entry) result out.new }
{
    if let Event::Activate = event {
        return activate_main(agreement, out);
    }
    let units = Units {
        sights: &sights[..used],
        cells: &table[HEAD_CELLS..],
    };
    across(agreement, event, units, out)
}

// The table is written where the residue's units have room in CELLS cells.
fn advance_in<const CELLS: usize>(
    agreement: &Agreement<'_>,
    sights: &[Sight],
    first: Option<&[i64; TABLE_CELLS]>,
    table: &mut [i64; TABLE_CELLS],
    used: usize,
    time: usize,
    event: Event<'_>,
) -> Result<Wrote, Short>
    requires { Due agreement.now sights.now (read_from first table.old) used time event × (CELLS ≤ room_length) }
    ensures { Tried agreement.now sights.now (read_from first.entry table.old) used time event.entry CELLS table.old
        table.new result }
{
    let mut out = [0i64; CELLS];
    let before = table_before(first, table);
    let x = reduce(agreement, sights, before, used, event, &mut out);
    let cost = x.tally.total();
    let units = units_of(x.outcome);
    if UNIT_CELLS * units > CELLS {
        return Err(Short { units, cost });
    }
    copy_before(first, table);
    let altered = settle(table, used, time as i64, x.outcome, &out);
    Ok(Wrote { altered, cost })
}

// The table that an event leads to is written, and dated by the time, where it has few enough units. It is that of the
// first table's units, where one is lent, or of its own. (What says the step goes on as it is: a struct of it would
// hold three things at one lifetime, to be lent again at each call.)
pub fn advance(
    agreement: &Agreement<'_>,
    sights: &[Sight],
    first: Option<&[i64; TABLE_CELLS]>,
    table: &mut [i64; TABLE_CELLS],
    used: usize,
    time: usize,
    event: Event<'_>,
) -> Result<Wrote, TooMany>
    requires { Due agreement.now sights.now (read_from first table.old) used time event }
    ensures leads { Advances agreement.now sights.now (read_from first.entry table.old) used time event.entry
        (on_copy result (read_from first.entry table.old) table.new) result }
    ensures untouched { Untouched result table.old table.new }
{
    if used <= FEW_UNITS {
        match advance_in::<FEW_ROOM>(agreement, sights, first, table, used, time, event) {
            Ok(wrote) => return Ok(wrote),
            Err(short) if short.units > MOST_UNITS => return Err(short.into()),
            Err(_) => {}
        }
    }
    Ok(advance_in::<ALL_ROOM>(agreement, sights, first, table, used, time, event)?)
}
