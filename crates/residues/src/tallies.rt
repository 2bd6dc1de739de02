// What is counted of a clause, beside what becomes of it.
ghost use Rattle.std.specs.Prelude.{◌≡◌, List, ◌≤◌, min, ℤ};
ghost use Rattle.csl.specs.Cost as csl;
ghost use Rattle.csl.specs.Cost.{both_at_once};
ghost use Rattle.csl.specs.Syntax.{and};
ghost use Rattle.kinds.specs.Kinds.{join_in};
ghost use Rattle.cells.specs.Reduce as cells;
ghost use Rattle.residues.specs.Tallies.{TallyIs, Reckons, Makes, MakesOne, JoinTallies};
ghost use Rattle.residues.specs.Tallies.{most_counted, ended_by};

use crate::{Reckoned, Reduced, Tally};
use kinds::Join;

// No reading costs more, so nothing is counted beyond.
pub const MOST_COUNTED: usize = 8_421_376;

impl Reckoned {
    // Fulfilled, n clauses being activated.
    pub fn ended(n: usize) -> Self
        requires { n ≤ most_counted }
        ensures { (out : List ℤ) → Reckons (ended_by n) result out }
    {
        let tally = Tally {
            once: true,
            activated: n,
            further: 0,
        };
        Reckoned {
            outcome: Reduced::Done,
            tally,
        }
    }

    // One clause that is breached or waits.
    pub fn alone(r: Reduced) -> Self
        ensures { MakesOne r result }
    {
        let tally = Tally {
            once: false,
            activated: 1,
            further: 0,
        };
        Reckoned { outcome: r, tally }
    }

    // A clause that does what another within it does: one more is activated.
    pub fn reached(self) -> Self
        ensures { Makes cells.reaches self result }
    {
        let t = self.tally;
        let tally = Tally {
            once: t.once,
            activated: (t.activated + 1).min(MOST_COUNTED),
            further: t.further,
        };
        Reckoned {
            outcome: self.outcome,
            tally,
        }
    }

    // A wait that a reading ends: all that its `then` or its else activates is beyond itself.
    pub fn ended_wait(self) -> Self
        ensures { Makes (λ x. cells.reaches (cells.becomes x)) self result }
    {
        let t = self.tally;
        let tally = Tally {
            once: false,
            activated: 1,
            further: (t.activated + t.further).min(MOST_COUNTED),
        };
        Reckoned {
            outcome: self.outcome,
            tally,
        }
    }

    // An `and` with one side that is fulfilled does what its other side does.
    pub fn beside_ended(self) -> Self
        ensures { Makes (λ x. cells.reaches (cells.joins and (ended_by 1) x)) self result }
    {
        let one = Tally {
            once: true,
            activated: 1,
            further: 0,
        };
        let tally = join_tallies(Join::And, one, self.tally);
        Reckoned {
            outcome: self.outcome,
            tally,
        }
    }
}

impl Tally {
    // All that is counted.
    pub fn total(self) -> usize
        ensures { (x : csl.Tally) → TallyIs x self → result ≡ min (csl.total x) most_counted }
    {
        (self.activated + self.further).min(MOST_COUNTED)
    }
}

fn both_at_once(join: Join, l: bool, r: bool) -> bool
    ensures { result ≡ both_at_once (join_in join) l r }
{
    match join {
        Join::And => l && r,
        Join::Or => l || r,
    }
}

// The two sides of a join and the join itself.
pub fn join_tallies(join: Join, l: Tally, r: Tally) -> Tally
    ensures { JoinTallies (join_in join) l r result }
{
    let once = both_at_once(join, l.once, r.once);
    let activated = (1 + l.activated + r.activated).min(MOST_COUNTED);
    let further = (l.further + r.further).min(MOST_COUNTED);
    Tally {
        once,
        activated,
        further: if once { 0 } else { further },
    }
}
