// What a clause becomes: fulfilled, a breach, or a residue of units that grows downward from the end of its room.
#![tactic(auto)]

pub mod tallies;

ghost use Rattle.std.specs.Prelude.{◌≡◌, ◌++◌, ◌+◌, ◌≤◌, ◌<◌, pos, length, get_or, drop};
ghost use Rattle.csl.specs.Syntax.{and, or};
ghost use Rattle.csl.specs.Table.{padded};
ghost use Rattle.cells.specs.Reduce.{unit_of, running, earlier, later};
ghost use Rattle.kinds.specs.Kinds.{join_in};
ghost use Rattle.residues.specs.Reduces.{Is, farthest, room_left, JoinIs, BreachIs, units_of};

use cells::{FIRST_PARAM, FIRST_VALUE, MOST_UNITS, UNIT_CELLS, Values};
use kinds::Join;
use parties::Breach;
use std::cmp::Ordering;

// Fulfilled; a breach; a residue of so many units, counted up to 129.
#[derive(Clone, Copy, Debug, PartialEq, Eq)]
pub enum Reduced {
    Done,
    Breach(Breach),
    Running(usize),
}

// What is counted of a clause: whether it is fulfilled as soon as it is activated, the clauses activated with it, and
// those that a reading activates beyond them. Both numbers are counted up to the most that a reading costs. (`once`
// is a fact beside the counts, no case of an enum.)
#[derive(Clone, Copy, Debug, PartialEq, Eq)]
pub struct Tally {
    pub once: bool,
    pub activated: usize,
    pub further: usize,
    ghost few: { (activated ≤ 8_421_376) × (further ≤ 8_421_376) },
}

// What a clause becomes, with what is counted on the way.
#[derive(Clone, Copy, Debug, PartialEq, Eq)]
pub struct Reckoned {
    pub outcome: Reduced,
    pub tally: Tally,
}

// src goes to the front of dst. (Cell by cell: std's `copy_from_slice` is `memmove` once compiled, and the library for
// C needs `memcpy` and `memset` alone from outside.)
pub fn copy(dst: &mut [i64], src: &[i64])
    requires { length src.now ≤ length dst.old }
    ensures { dst.new ≡ src.now ++ drop (length src.now) dst.old }
{
    for i in 0..src.len() {
        dst[i] = src[i];
    }
}

// src goes to the front of dst, with zeros behind it to the end.
pub fn fill(dst: &mut [i64], src: &[i64])
    requires { length src.now ≤ length dst.old }
    ensures { dst.new ≡ padded (length dst.old) src.now }
{
    dst.fill(0);
    copy(dst, src);
}

// A unit's 24 cells. (A slice, as a part of `out` is: to be an array it would need an `unwrap`. Cells are i64 in the C
// interface, and what is counted or found is a usize.)
fn write_unit(
    unit: &mut [i64],
    sort: usize,
    place: usize,
    a: usize,
    params: &[i64],
    values: Values<'_>,
)
    requires { (length unit.old ≡ 24) × (sort ≤ farthest) × (place ≤ farthest) × (a ≤ farthest) × (length params.now ≤ 5) }
    ensures { unit.new ≡ unit_of sort place a params.now values.entry.cells.now }
{
    unit[0] = sort as i64;
    unit[1] = place as i64;
    unit[2] = a as i64;
    fill(&mut unit[FIRST_PARAM..FIRST_VALUE], params);
    fill(&mut unit[FIRST_VALUE..UNIT_CELLS], values.cells);
}

// A waiting unit, at the end of out where there is room. (Its sort is the format's number: a rule of the project has
// kinds as numbers, and a WaitKind would ask more of callers.)
pub fn put_unit(
    out: &mut [i64],
    sort: usize,
    place: usize,
    a: usize,
    params: &[i64],
    values: Values<'_>,
) -> Reduced
    requires { (sort ≤ farthest) × (place ≤ farthest) × (a ≤ farthest) × (length params.now ≤ 5) }
    ensures { Is (running (unit_of sort place a params.now values.entry.cells.now)) result out.new }
{
    if out.len() >= UNIT_CELLS {
        let from = out.len() - UNIT_CELLS;
        write_unit(&mut out[from..], sort, place, a, params, values);
    }
    Reduced::Running(1)
}

// What the right side's residue leaves of len cells for the left side's.
pub fn room_left(r: Reduced, len: usize) -> usize
    ensures { (result ≡ room_left r len) × (result ≤ len) }
{
    match r {
        Reduced::Running(m) => len.saturating_sub(UNIT_CELLS.saturating_mul(m)),
        _ => len,
    }
}

// The earlier of two breaches, or both at once. (It and the later one differ in most cases, and so do the two joins:
// one function for both would be a test in each case.)
fn earlier_breach(l: Breach, r: Breach) -> Breach
    ensures { BreachIs earlier l r result }
{
    match l.time.cmp(&r.time) {
        Ordering::Less => l,
        Ordering::Greater => r,
        Ordering::Equal => Breach {
            time: l.time,
            parties: l.parties | r.parties,
        },
    }
}

// The later of two breaches; the left one where they are at one time.
fn later_breach(l: Breach, r: Breach) -> Breach
    ensures { BreachIs later l r result }
{
    if l.time < r.time { r } else { l }
}

// Units are counted up to so many.
const COUNTED: usize = 129;

// Two residues of n and m units, one below the other at the end of out, become one: the join's unit goes below both
// where there is room, and they are no more than a table holds.
fn put_join(join: Join, n: usize, m: usize, out: &mut [i64]) -> Reduced
    ensures { JoinIs (join_in join) (Reduced.Running n) (Reduced.Running m) out.old result out.new }
{
    let units = n.saturating_add(m).saturating_add(1);
    let cells = UNIT_CELLS.saturating_mul(units);
    let room = out.len().min(UNIT_CELLS * MOST_UNITS);
    if cells > room {
        return Reduced::Running(units.min(COUNTED));
    }
    let from = out.len() - cells;
    let head = [usize::from(join) as i64; 1];
    fill(&mut out[from..from + UNIT_CELLS], &head);
    Reduced::Running(units)
}

fn join_both(l: Reduced, r: Reduced, out: &mut [i64]) -> Reduced
    ensures { JoinIs and l r out.old result out.new }
{
    match (l, r) {
        (Reduced::Done, _) => r,
        (_, Reduced::Done) => l,
        (Reduced::Breach(b), Reduced::Breach(c)) => Reduced::Breach(earlier_breach(b, c)),
        (Reduced::Breach(_), Reduced::Running(_)) => l,
        (Reduced::Running(_), Reduced::Breach(_)) => r,
        (Reduced::Running(n), Reduced::Running(m)) => put_join(Join::And, n, m, out),
    }
}

fn join_either(l: Reduced, r: Reduced, out: &mut [i64]) -> Reduced
    ensures { JoinIs or l r out.old result out.new }
{
    match (l, r) {
        (Reduced::Done, _) => Reduced::Done,
        (_, Reduced::Done) => Reduced::Done,
        (Reduced::Breach(b), Reduced::Breach(c)) => Reduced::Breach(later_breach(b, c)),
        (Reduced::Breach(_), Reduced::Running(_)) => r,
        (Reduced::Running(_), Reduced::Breach(_)) => l,
        (Reduced::Running(n), Reduced::Running(m)) => put_join(Join::Or, n, m, out),
    }
}

// The answer for an `and` or `or` from its sides' answers.
pub fn join(join: Join, l: Reduced, r: Reduced, out: &mut [i64]) -> Reduced
    ensures { JoinIs (join_in join) l r out.old result out.new }
{
    match join {
        Join::And => join_both(l, r, out),
        Join::Or => join_either(l, r, out),
    }
}

pub fn units_of(r: Reduced) -> usize
    ensures { result ≡ units_of r }
{
    match r {
        Reduced::Running(n) => n,
        _ => 0,
    }
}
