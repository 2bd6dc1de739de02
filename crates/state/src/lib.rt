// Refusal 7: the table keeps to its layout and typing, and the state that it shows.
#![tactic(auto)]

ghost use Rattle.std.specs.Prelude.{◌≡◌, true, List, ℕ, ◌≤◌, ◌<◌, length};
ghost use Rattle.csl.specs.Parties.{member, bits_of};
ghost use Rattle.csl.specs.Typing.{join_ok};
ghost use Rattle.kinds.specs.Kinds.{join_in};
ghost use Rattle.cells.specs.declared.Sight.{Sight};
ghost use Rattle.state.specs.Tree.{UnitFirst, UnitIs, TreeRoom, FirstIs, JoinedIs, WalkIs};
ghost use Rattle.state.specs.Shown.{Shows, run_in, HeadAt, TimeIs, FulfilledIs};

use cells::{HEAD_CELLS, LAST_MOVED, LAST_TIME, Sight, TABLE_CELLS, UNIT_CELLS};
use kinds::{Join, RunState, WaitKind};
use parties::{Breach, PartySet};
use places::Accepted;
use records::Agreement;
use units::{number_below, waiting_unit, zeros};

// A count of units, a set of parties and a time are below these.
const COUNTS: usize = 129;

const SETS: usize = 65_536;

const TIMES: usize = 4_294_967_296;

// The first unit: one that waits, or a join.
#[derive(Clone, Copy, Debug, PartialEq, Eq)]
enum First {
    Waits(WaitKind),
    Joins(Join),
}

// A tree of units at the front: how many they are, and its parties.
#[derive(Clone, Copy, Debug, PartialEq, Eq)]
struct Tree {
    units: usize,
    parties: PartySet,
}

// What a table shows: running with so many units, fulfilled, or breached.
#[derive(Clone, Copy, Debug, PartialEq, Eq)]
pub enum State {
    Running(usize),
    Fulfilled,
    Breached(Breach),
}

// 'The two sides of an `or` together have at most one member': of the parties of both sides.
fn join_ok(join: Join, parties: PartySet) -> bool
    ensures { (ps : List ℕ) → ((q : ℕ) → member q ps ≡ true → q < 16) → parties ≡ bits_of ps → result ≡ join_ok (join_in join) ps }
{
    match join {
        Join::And => true,
        Join::Or => parties.count() <= 1,
    }
}

// A join of two sides.
fn read_join(join: Join, left: Tree, right: Tree, sight: &mut Sight) -> Option<Tree>
    requires { (left.units ≤ 128) × (right.units ≤ 128) }
    ensures { JoinedIs join left right sight.new result }
{
    *sight = Sight::Joins {
        join,
        left: left.units,
    };
    let parties = left.parties | right.parties;
    let tree = Tree {
        units: 1 + left.units + right.units,
        parties,
    };
    join_ok(join, parties).then_some(tree)
}

// The first unit, by its kind; a join's other cells are zero.
fn first_unit(cells: &[i64]) -> Option<First>
    requires { 24 ≤ length cells.now }
    ensures { FirstIs cells.now result }
{
    let kind = usize::try_from(cells[0]).ok()?;
    if let Ok(wait) = WaitKind::try_from(kind) {
        return Some(First::Waits(wait));
    }
    let join = Join::try_from(kind).ok()?;
    zeros(&cells[1..UNIT_CELLS]).then_some(First::Joins(join))
}

// Fulfilled: all other cells are zero.
fn fulfilled(table: &[i64; TABLE_CELLS]) -> Option<State>
    ensures { FulfilledIs table.now result }
{
    let is_sound = zeros(&table[2..5]) && zeros(&table[HEAD_CELLS..]);
    is_sound.then_some(State::Fulfilled)
}

// The last reading time; the run last moved from the start to it.
fn last_time(agreement: &Agreement<'_>, table: &[i64; TABLE_CELLS]) -> Option<usize>
    ensures { TimeIs agreement.now table.now result }
{
    let time = number_below(table[LAST_TIME], TIMES)?;
    let moved = number_below(table[LAST_MOVED], TIMES)?;
    let is_sound = (agreement.start()..=time).contains(&moved)
        && zeros(&table[LAST_MOVED + 1..HEAD_CELLS]);
    is_sound.then_some(time)
}

// An accepted agreement at a run's last reading time.
#[derive(Clone, Copy)]
struct Moment<'a> {
    accepted: &'a Accepted<'a>,
    time: usize,
}

impl Moment<'_> {
    // A waiting unit at the front of the cells, and what is in sight there.
    fn read_unit(&self, wait: WaitKind, cells: &[i64], sight: &mut Sight) -> Option<Tree>
        requires { UnitFirst wait cells.now }
        ensures { UnitIs self.now.accepted.now self.now.time cells.now sight.new result }
    {
        let unit = waiting_unit(self.accepted, self.time, wait, &cells[1..UNIT_CELLS])?;
        *sight = unit.sight;
        Some(Tree {
            units: 1,
            parties: unit.parties,
        })
    }

    // The tree at the front of units, as many as there are sights: a unit that waits, or a join with its left side
    // behind it and then its right side.
    fn walk_tree(&self, cells: &[i64], sights: &mut [Sight]) -> Option<Tree>
        requires { TreeRoom (length sights.old) cells.now }
        ensures { WalkIs self.now.accepted.now self.now.time (length sights.old) cells.now sights.new result }
    {
        let (sight, rest) = sights.split_first_mut()?;
        match first_unit(cells)? {
            First::Waits(wait) => self.read_unit(wait, cells, sight),
            First::Joins(join) => {
                let left = self.walk_tree(&cells[UNIT_CELLS..], rest)?;
                let more = &cells[UNIT_CELLS + UNIT_CELLS * left.units..];
                let right = self.walk_tree(more, &mut rest[left.units..])?;
                read_join(join, left, right, sight)
            }
        }
    }

    // Breached: by someone of the main clause, at a time from the start to the last reading time.
    fn breached(&self, table: &[i64; TABLE_CELLS]) -> Option<State>
        requires { HeadAt self.now.accepted.now table.now 3 self.now.time }
        ensures { (sights : List Sight) → Shows (run_in self.now.accepted.now table.now) table.now sights result }
    {
        let when = number_below(table[2], TIMES)?;
        let parties = PartySet::of_bits(number_below(table[3], SETS)?);
        let mains = self.accepted.mains();
        let is_sound = (self.accepted.agreement().start()..=self.time).contains(&when)
            && !parties.is_empty()
            && parties.is_subset(mains)
            && zeros(&table[4..5])
            && zeros(&table[HEAD_CELLS..]);
        let breach = Breach {
            time: table[2],
            parties,
        };
        is_sound.then_some(State::Breached(breach))
    }

    // Running: the units show one residue.
    fn running(&self, table: &[i64; TABLE_CELLS], sights: &mut [Sight]) -> Option<State>
        requires room { 128 ≤ length sights.old }
        requires head_at { HeadAt self.now.accepted.now table.now 1 self.now.time }
        ensures { Shows (run_in self.now.accepted.now table.now) table.now sights.new result }
    {
        if !zeros(&table[2..4]) {
            return None;
        }
        let used = number_below(table[4], COUNTS)?;
        let tree = self.walk_tree(&table[HEAD_CELLS..], &mut sights[..used])?;
        let is_sound = tree.units == used && zeros(&table[HEAD_CELLS + UNIT_CELLS * used..]);
        is_sound.then_some(State::Running(used))
    }
}

// The state that a table shows, where it shows one; a running run's units go into the sights.
pub fn state_of(
    accepted: &Accepted<'_>,
    table: &[i64; TABLE_CELLS],
    sights: &mut [Sight],
) -> Option<State>
    requires { 128 ≤ length sights.old }
    ensures { Shows (run_in accepted.now table.now) table.now sights.new result }
{
    let time = last_time(accepted.agreement(), table)?;
    let moment = Moment { accepted, time };
    match RunState::try_from(table[0]).ok()? {
        RunState::Running => moment.running(table, sights),
        RunState::Fulfilled => fulfilled(table),
        RunState::Breached => moment.breached(table),
    }
}
