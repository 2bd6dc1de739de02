// Refusal 15, of a well-formed agreement: what its clauses need, where its templates declare their units.
#![tactic(auto)]

ghost use Rattle.std.specs.Prelude.{◌≡◌, true, false, ◌&&◌, ◌≤◌, ◌<◌, leb, get_or, MatchOption};
ghost use Rattle.csl.specs.Lists.{all};
ghost use Rattle.csl.specs.Bytes as bytes;
ghost use Rattle.csl.specs.Decode.{well_formed, agreement_of};
ghost use Rattle.csl.specs.Sizes.{clause_need, fits};
ghost use Rattle.guards.specs.Walk.{Formed, Answers, body_at};
ghost use Rattle.sizes.specs.Walk.{counted, Declared, declare_all, all_fit};

use arrayvec::ArrayVec;
use cells::MOST_UNITS;
use octets::{byte, kind};
use records::{
    Agreement, BODY_DEPTH, MAIN_DEPTH, MOST_TEMPLATES, Template, first_clause, sides_at,
};

// A need above 128 counts as this.
const TOO_MANY: usize = MOST_UNITS + 1;

// The units that template k declares, or 0 where there is none.
fn declared(units: &[usize], k: usize) -> usize
    ensures { result ≡ get_or units.now k 0 }
{
    units.get(k).copied().unwrap_or(0)
}

// The counted need of a clause. (A walker takes a record's bytes and the depth left by themselves: both are new at each
// step. A record's kind is decided by its number, a rule of the project.)
fn need(s: &[u8], units: &[usize], depth: usize) -> usize
    requires { Formed depth s.now }
    ensures { Answers (counted units.now) depth s.now result × (result ≤ 129) }
{
    let k = kind(s);
    let need = match k {
        17 => {
            let c = first_clause(s, k);
            need(&s[c..], units, depth - 1).max(1)
        }
        18 => {
            let (c, f) = sides_at(s, k);
            let taken = need(&s[c..f], units, depth - 1);
            let left = need(&s[f..], units, depth - 1);
            taken.max(left).max(1)
        }
        19..=21 => {
            let (c, f) = sides_at(s, k);
            let first = need(&s[c..f], units, depth - 1);
            let second = need(&s[f..], units, depth - 1);
            if k == 19 {
                first.max(second)
            } else {
                1 + first + second
            }
        }
        22 => declared(units, byte(s, 4)),
        _ => 0,
    };
    need.min(TOO_MANY)
}

// The units that the templates declare; none where one of them declares none.
fn units_declared(agreement: &Agreement<'_>) -> Option<ArrayVec<usize, MOST_TEMPLATES>>
    ensures { MatchOption result (declare_all agreement.now ≡ false)
        (λ units. (declare_all agreement.now ≡ true) × Declared agreement.now units.items) }
{
    let mut units = ArrayVec::new();
    for number in 0..agreement.template_count() {
        let template = Template {
            agreement: &*agreement,
            number,
        };
        units.push(template.units()?);
    }
    Some(units)
}

// The body of template `number` needs no more than is declared. (That the agreement is well formed is asked by itself:
// a type for it would stand around the agreement that a `Template` holds.)
fn body_fits(agreement: &Agreement<'_>, units: &[usize], number: usize) -> bool
    requires there { number < bytes.byte agreement.now 10 }
    requires formed { well_formed agreement.now ≡ true }
    requires declared { Declared agreement.now units.now }
    ensures { result ≡ leb (clause_need units.now (body_at agreement.now number)) (get_or units.now number 0) }
{
    let template = Template { agreement, number };
    need(template.body(), units, BODY_DEPTH) <= declared(units, number)
}

// The main clause and each body fit.
fn all_fit(agreement: &Agreement<'_>, units: &[usize]) -> bool
    requires formed { well_formed agreement.now ≡ true }
    requires declared { Declared agreement.now units.now }
    ensures { result ≡ all_fit (agreement_of agreement.now) }
{
    need(agreement.main(), units, MAIN_DEPTH) <= MOST_UNITS
        && (0..agreement.template_count()).all(|number| body_fits(agreement, units, number))
}

// Refusal 15 where this is false.
pub fn fits(agreement: &Agreement<'_>) -> bool
    requires { well_formed agreement.now ≡ true }
    ensures { result ≡ fits (agreement_of agreement.now) }
{
    match units_declared(agreement) {
        Some(units) => agreement.template_count() == 0 || all_fit(agreement, &units),
        None => true,
    }
}
