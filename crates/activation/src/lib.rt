// The rules: what a clause becomes that is activated, follows a reading or tells its breach.
#![tactic(auto)]

pub mod blames;
pub mod instances;
pub mod leads;
mod parts;
pub mod sites;

ghost use Rattle.std.specs.Prelude.{◌+◌, ◌-◌, ◌≤◌, ◌<◌, length};
ghost use Rattle.arith.specs.Near.{Near};
ghost use Rattle.residues.specs.Tallies.{Reckons};
ghost use Rattle.activation.specs.Leads.{Sided, Acting, OfInstance, does, sides_reckoned, then_reckoned};
ghost use Rattle.activation.specs.Leads.{instance_reckoned};

use crate::blames::blames;
use crate::instances::arguments;
use crate::leads::{leads_to, outline};
use cells::Values;
use kinds::{Join, WaitKind};
use parties::Breach;
use readings::Reading;
use records::Template;
use residues::tallies::join_tallies;
use residues::{Reckoned, Reduced, join, put_unit, room_left};
pub use sites::{Clause, Placed, Site};
use waits::{Event, then_values};

// The most parties of an instance.
const MOST_PARAMS: usize = 4;

// (Shape and Next say what is found, for the one `match` on it: no step is kept. A part of the bytes is two numbers,
// since a Range is not Copy.)

// What a record shows by kinds alone: that there is nothing to do, in so many clauses; an `and` whose one side has
// nothing to do, and the part of its bytes that is the other; a join and where its right side begins; a clause that
// acts.
#[derive(Clone, Copy, Debug, PartialEq, Eq)]
pub enum Shape {
    Ends(usize),
    Goes { from: usize, to: usize },
    Joins { join: Join, right: usize },
    Acts,
}

// What a clause that acts leads to: an end, a breach, a waiting unit of a sort; of an `if` the side that is picked, in
// a part of its bytes; of a late choice the else, in a part of its bytes at a time; a `then` in a part of its bytes,
// with the reading and the wait's last minute; an instance of a template, and where its parties begin.
#[derive(Clone, Copy)]
pub enum Next<'a> {
    Ends,
    Breaks(Breach),
    Waits(WaitKind),
    Picks {
        from: usize,
        to: usize,
    },
    Lapses {
        from: usize,
        to: usize,
        at: usize,
    },
    Takes {
        reading: &'a Reading,
        from: usize,
        to: usize,
        last: i64,
    },
    Unfolds {
        template: usize,
        parties: usize,
    },
}

// What a clause becomes. A residue grows downward from the end of out. (Event, clause and room go on as they are: a
// struct of them would be made anew at each part.)
#[cycle(activation)]
pub fn activate(event: Event<'_>, placed: &Placed<'_>, out: &mut [i64]) -> Reckoned
    ensures { Reckons (does event.entry placed.now.clause) result out.new }
{
    let clause = &placed.clause;
    match outline(clause.bytes, clause.site.depth) {
        Shape::Ends(n) => Reckoned::ended(n),
        Shape::Goes { from, to } => {
            let side = placed.part(from, to, clause.site.a);
            activate(event, &side, out).beside_ended()
        }
        Shape::Joins { join, right } => both(event, placed, join, right, out),
        Shape::Acts => act(event, placed, out),
    }
}

// The same of a clause that acts.
#[cycle(activation)]
fn act(event: Event<'_>, placed: &Placed<'_>, out: &mut [i64]) -> Reckoned
    requires { Acting placed.now.clause.site.depth placed.now.clause.bytes.now }
    ensures { Reckons (does event.entry placed.now.clause) result out.new }
{
    let clause = &placed.clause;
    let site = clause.site;
    match leads_to(event, clause) {
        Next::Ends => Reckoned::ended(1),
        Next::Breaks(breach) => Reckoned::alone(Reduced::Breach(breach)),
        Next::Waits(sort) => {
            let sort = usize::from(sort);
            let unit = put_unit(out, sort, site.place, site.a, clause.params, clause.values);
            Reckoned::alone(unit)
        }
        Next::Picks { from, to } => {
            let side = placed.part(from, to, site.a);
            activate(event, &side, out).reached()
        }
        Next::Takes {
            reading,
            from,
            to,
            last,
        } => taken(reading, placed, from, to, last, out).ended_wait(),
        Next::Lapses { from, to, at } => {
            let otherwise = placed.part(from, to, at);
            activate(event, &otherwise, out).ended_wait()
        }
        Next::Unfolds { template, parties } => unfold(
            event, placed, template, parties, out,
        ).reached(),
    }
}

// A clause with two sides, of which the right one begins at f: the right side first, the left side into the cells
// that are left, the join's unit below both.
#[cycle(activation)]
fn both(event: Event<'_>, placed: &Placed<'_>, kind: Join, f: usize, out: &mut [i64]) -> Reckoned
    requires { Sided placed.now.clause.site.depth (length placed.now.clause.bytes.now) f }
    ensures { Reckons (sides_reckoned event.entry placed.now.clause kind f) result out.new }
{
    let clause = &placed.clause;
    let a = clause.site.a;
    let right = placed.part(f, clause.bytes.len(), a);
    let r = activate(event, &right, out);
    let room = room_left(r.outcome, out.len());
    let left = placed.part(4, f, a);
    let l = activate(event, &left, &mut out[..room]);
    let tally = join_tallies(kind, l.tally, r.tally);
    Reckoned {
        outcome: join(kind, l.outcome, r.outcome, out),
        tally,
    }
}

// The `then` in a part of the clause's bytes: it is activated at the reading's time, and takes no reading.
#[cycle(activation)]
#[inline(never)]
fn taken(
    reading: &Reading,
    placed: &Placed<'_>,
    from: usize,
    to: usize,
    last: i64,
    out: &mut [i64],
) -> Reckoned
    requires { let c = placed.now.clause in (1 ≤ c.site.depth) × (from ≤ to)
        × (to ≤ length c.bytes.now) × Near (c.site.a + 2_000_000_000) last }
    ensures { Reckons (then_reckoned reading.now placed.now.clause from to last) result out.new }
{
    let values = then_values(placed.clause.values, reading, last);
    // lent again: the proof's reading of borrows covers no reference that is passed on for a shorter time
    let then = (&*placed).then(from, to, reading.time, Values { cells: &values });
    activate(Event::Activate, &then, out)
}

// The body of the template that the clause names, an instance whose parties begin at `parties`. It stands apart so that
// its values take no room at each activation.
#[cycle(activation)]
#[inline(never)]
fn unfold(
    event: Event<'_>,
    placed: &Placed<'_>,
    template: usize,
    parties: usize,
    out: &mut [i64],
) -> Reckoned
    requires { OfInstance placed.now.clause template parties }
    ensures { Reckons (instance_reckoned event.entry placed.now.clause template parties) result out.new }
{
    let clause = &placed.clause;
    let named = Template {
        agreement: clause.agreement,
        number: template,
    };
    let values = arguments(
        clause.bytes,
        clause.values.cells,
        clause.site.depth - 1,
        &named,
    );
    let named_parties = &clause.bytes[parties..];
    let mut params = [0; MOST_PARAMS];
    blames(named_parties, clause.params, &mut params);
    // lent again, as in `taken`
    let body = (&*placed).body(
        template,
        &params[..named_parties.len()],
        Values { cells: &values },
    );
    activate(event, &body, out)
}
