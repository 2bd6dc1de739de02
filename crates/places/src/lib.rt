// The waiting clause at a byte place of an accepted agreement, and what is in sight there.
#![tactic(auto)]

mod accepted;
mod sight;

ghost use Rattle.std.specs.Prelude.{◌≡◌, Some, List, ℕ, ◌+◌, ◌^◌, ◌≤◌, ◌<◌, length};
ghost use Rattle.csl.specs.Bytes.{kind_number};
ghost use Rattle.csl.specs.Check as check;
ghost use Rattle.csl.specs.Decode.{tys_of, agreement_of};
ghost use Rattle.csl.specs.Places.{clause_at};
ghost use Rattle.places.specs.Sight.{types_in};
ghost use Rattle.places.specs.Locate.{seen_in, SeesIn, Stands, StepIs, DescentIs, Locates, in_template};

pub use accepted::Accepted;
use kinds::{Type, WaitKind};
use octets::{byte, kind, record_end};
use records::{Agreement, Template, first_clause, sides_at};
pub use sight::SightTypes;

// The waiting clause at a place: how it waits, how many party parameters it has, and the types in sight.
#[derive(Clone, Copy)]
pub struct Located {
    pub wait: WaitKind,
    pub params: usize,
    pub sight: SightTypes,
}

// Where the search goes on: at this clause, which waits, or in the clause from a place up to a place.
#[derive(Clone, Copy, Debug, PartialEq, Eq)]
enum Step {
    Here(WaitKind),
    Into { from: usize, to: usize },
}

// The search for the clause at a place of an agreement. (The sight is lent beside it, since it changes on the way, and
// the record and its place are new at each step: what `Stands` asks is of the step, and no value goes on with it.)
#[derive(Clone, Copy)]
struct Search<'a> {
    agreement: &'a Agreement<'a>,
    place: usize,
}

impl Search<'_> {
    // What `then` sees: the reading's values, and behind them the remaining time.
    fn then_sight(&self, wanted: usize, sight: &mut SightTypes)
        requires { SeesIn self.now.agreement.now (types_in sight.old) wanted }
        ensures { tys_of (types_in sight.new) ≡ seen_in self.now.agreement.now (types_in sight.old) wanted }
    {
        let types = self.agreement.reading_types(wanted - 1);
        // types stand as the format's bytes, as in the agreement
        sight.extend(types);
        sight.push(usize::from(Type::Number) as u8);
    }

    // One step towards the place, from an obligation s that stands at `base`. (Three functions and not one: an
    // obligation has no else, and a clause with two sides neither waits nor lets its first side see more.)
    fn from_obligation(&self, s: &[u8], base: usize, sight: &mut SightTypes) -> Step
        requires stands { Stands self.now.agreement.now base s.now (types_in sight.old) }
        requires is_obligation { kind_number s.now ≡ 17 }
        ensures { StepIs self.now.agreement.now base s.now self.now.place (types_in sight.old) (types_in sight.new) (Some result) }
    {
        if self.place == base {
            return Step::Here(WaitKind::Obligation);
        }
        let c = first_clause(s, 17);
        self.then_sight(byte(s, 5), sight);
        Step::Into {
            from: c,
            to: s.len(),
        }
    }

    // The same from a choice.
    fn from_choice(&self, s: &[u8], base: usize, sight: &mut SightTypes) -> Step
        requires stands { Stands self.now.agreement.now base s.now (types_in sight.old) }
        requires is_choice { kind_number s.now ≡ 18 }
        ensures { StepIs self.now.agreement.now base s.now self.now.place (types_in sight.old) (types_in sight.new) (Some result) }
    {
        if self.place == base {
            return Step::Here(WaitKind::Choice);
        }
        let (c, f) = sides_at(s, 18);
        if self.place < base + f {
            self.then_sight(byte(s, 4), sight);
            return Step::Into { from: c, to: f };
        }
        Step::Into {
            from: f,
            to: s.len(),
        }
    }

    // The same from a clause of kind 19 to 21, whose sides see what it sees.
    fn from_sides(&self, s: &[u8], kind: usize, base: usize) -> Step
        requires { (4 ≤ length s.now) × (kind ≡ kind_number s.now) × (19 ≤ kind) × (kind < 22) × (base + length s.now < 2 ^ 64) }
        ensures { (a types : List ℕ) → StepIs a base s.now self.now.place types types (Some result) }
    {
        let (c, f) = sides_at(s, kind);
        if self.place < base + f {
            return Step::Into { from: c, to: f };
        }
        Step::Into {
            from: f,
            to: s.len(),
        }
    }

    // The same from any clause; one that has no clause parts and does not wait has no step. (A record's kind is decided
    // by its number: a rule of the project.)
    fn step_down(&self, s: &[u8], base: usize, sight: &mut SightTypes) -> Option<Step>
        requires { Stands self.now.agreement.now base s.now (types_in sight.old) }
        ensures { StepIs self.now.agreement.now base s.now self.now.place (types_in sight.old) (types_in sight.new) result }
    {
        let k = kind(s);
        match k {
            17 => Some(self.from_obligation(s, base, sight)),
            18 => Some(self.from_choice(s, base, sight)),
            19..=21 => Some(self.from_sides(s, k, base)),
            _ => None,
        }
    }

    // The waiting clause at the place, in the clause s that stands at `base`: how it waits. The sight becomes its own.
    fn descend(&self, s: &[u8], base: usize, sight: &mut SightTypes) -> Option<WaitKind>
        requires { Stands self.now.agreement.now base s.now (types_in sight.old) }
        ensures { DescentIs self.now.agreement.now base s.now self.now.place (types_in sight.old) (types_in sight.new) result }
    {
        match self.step_down(s, base, sight)? {
            Step::Here(wait) => Some(wait),
            Step::Into { from, to } => {
                let part = &s[from..to];
                self.descend(part, base + from, sight)
            }
        }
    }
}

// The same in the template's body.
fn in_template(template: &Template<'_>, place: usize) -> Option<Located>
    requires { check.Accepted template.now.agreement.now }
    ensures { Locates (in_template template.now.agreement.now template.now.number place) result }
{
    let mut sight = SightTypes::new();
    sight.extend(template.value_types());
    let agreement = template.agreement;
    let base = template.body_span().start;
    let wait = Search { agreement, place }.descend(template.body(), base, &mut sight)?;
    Some(Located {
        wait,
        params: template.param_count(),
        sight,
    })
}

// The waiting clause at a byte place: the main clause's, or in the template whose record holds the place.
pub fn locate(agreement: &Agreement<'_>, place: usize) -> Option<Located>
    requires { check.Accepted agreement.now }
    ensures { Locates (clause_at (agreement_of agreement.now) place) result }
{
    let m = agreement.main_place();
    if m <= place {
        let mut sight = SightTypes::new();
        let wait = Search { agreement, place }.descend(agreement.main(), m, &mut sight)?;
        return Some(Located {
            wait,
            params: 0,
            sight,
        });
    }
    let bytes = agreement.bytes();
    let n = agreement.template_count();
    // by `template_place`: in a closure nothing says that there is such a template
    let number = (0..n).find(|&k| place < record_end(bytes, agreement.template_place(k)))?;
    in_template(&Template { agreement, number }, place)
}
