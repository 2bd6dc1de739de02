// Refusals 4 and 5, of a well-formed agreement: what its templates name unguarded, and how wide its clauses are.
#![tactic(auto)]

ghost use Rattle.std.specs.Prelude.{◌≡◌, true, [], ◌≤◌, ◌<◌, min, get_or, IfSome};
ghost use Rattle.csl.specs.Bytes as bytes;
ghost use Rattle.csl.specs.Decode.{well_formed, agreement_of, main_of};
ghost use Rattle.csl.specs.Guards.{guarded_in, guarded_from};
ghost use Rattle.csl.specs.Widths.{all_narrow, narrow_all, widths_from};
ghost use Rattle.guards.specs.Walk.{Formed, Answers, body_at, counted, narrow_width, AsWide};

use arrayvec::ArrayVec;
use octets::{byte, kind};
use records::{
    Agreement, BODY_DEPTH, MAIN_DEPTH, MOST_TEMPLATES, Template, first_clause, sides_at,
};

// The widest that a clause may be.
const WIDEST: usize = 256;

// What is wider counts as this.
const TOO_WIDE: usize = WIDEST + 1;

// In template n's body an unguarded instance names only a template below n; a `then` is guarded. (A walker takes a
// record's bytes and the depth left by themselves: both are new at each step.)
fn guarded_in(s: &[u8], n: usize, depth: usize) -> bool
    requires { Formed depth s.now }
    ensures { Answers (guarded_in n) depth s.now result }
{
    let k = kind(s);
    // here and below: a record's kind is decided by its number, a rule of the project
    match k {
        18 => {
            let (_, f) = sides_at(s, k);
            guarded_in(&s[f..], n, depth - 1)
        }
        19..=21 => {
            let (c, f) = sides_at(s, k);
            guarded_in(&s[c..f], n, depth - 1) && guarded_in(&s[f..], n, depth - 1)
        }
        22 => byte(s, 4) < n,
        _ => true,
    }
}

// The counted width of template k, or 0 while it is not known.
fn width_of(widths: &[usize], k: usize) -> usize
    ensures { (result ≡ min (get_or widths.now k 0) 257) × (result ≤ 257) }
{
    widths.get(k).copied().unwrap_or(0).min(TOO_WIDE)
}

// The counted width of a clause: it ends at each `then`, which may name a template whose width is not known yet.
fn width(s: &[u8], widths: &[usize], depth: usize) -> usize
    requires { Formed depth s.now }
    ensures { Answers (counted widths.now) depth s.now result × (result ≤ 257) }
{
    let k = kind(s);
    let counted = match k {
        18 => {
            let (_, f) = sides_at(s, k);
            1 + width(&s[f..], widths, depth - 1)
        }
        19..=21 => {
            let (c, f) = sides_at(s, k);
            1 + width(&s[c..f], widths, depth - 1) + width(&s[f..], widths, depth - 1)
        }
        22 => 1 + width_of(widths, byte(s, 4)),
        _ => 1,
    };
    counted.min(TOO_WIDE)
}

// The width of a clause that is narrow, as each `then` within is.
fn narrow_width(s: &[u8], widths: &[usize], depth: usize) -> Option<usize>
    requires { Formed depth s.now }
    ensures { Answers (narrow_width widths.now) depth s.now result × IfSome result (λ w. w ≤ 256) }
{
    let k = kind(s);
    let width = match k {
        17 => {
            let c = first_clause(s, k);
            narrow_width(&s[c..], widths, depth - 1)?;
            1
        }
        18 => {
            let (c, f) = sides_at(s, k);
            narrow_width(&s[c..f], widths, depth - 1)?;
            1 + narrow_width(&s[f..], widths, depth - 1)?
        }
        19..=21 => {
            let (c, f) = sides_at(s, k);
            let left = narrow_width(&s[c..f], widths, depth - 1)?;
            let right = narrow_width(&s[f..], widths, depth - 1)?;
            1 + left + right
        }
        22 => 1 + width_of(widths, byte(s, 4)),
        _ => 1,
    };
    (width <= WIDEST).then_some(width)
}

// The clause is narrow, and so is each inner `then`.
fn all_narrow(s: &[u8], widths: &[usize], depth: usize) -> bool
    requires { Formed depth s.now }
    ensures { Answers (all_narrow widths.now) depth s.now result }
{
    narrow_width(s, widths, depth).is_some()
}

// A closure in `guarded` in its place, or one that makes a `Template` for it, would need these clauses too, and be no
// shorter. So would one in `narrow` for `body_narrow`. (That the agreement is well formed is asked by itself: a type
// for it would stand around the agreement that a `Template` holds.)
fn body_guarded(agreement: &Agreement<'_>, number: usize) -> bool
    requires there { number < bytes.byte agreement.now 10 }
    requires formed { well_formed agreement.now ≡ true }
    ensures { result ≡ guarded_in number (body_at agreement.now number) }
{
    let template = Template { agreement, number };
    guarded_in(template.body(), number, BODY_DEPTH)
}

// Refusal 4 where this is false.
pub fn guarded(agreement: &Agreement<'_>) -> bool
    requires { well_formed agreement.now ≡ true }
    ensures { result ≡ guarded_from 0 (agreement_of agreement.now).templates }
{
    (0..agreement.template_count()).all(|number| body_guarded(agreement, number))
}

// The widths of the templates, each by those below it: no other is named unguarded.
fn template_widths(agreement: &Agreement<'_>) -> ArrayVec<usize, MOST_TEMPLATES>
    requires { well_formed agreement.now ≡ true }
    ensures { AsWide (widths_from [] (agreement_of agreement.now).templates) result.items }
{
    let mut widths = ArrayVec::new();
    for number in 0..agreement.template_count() {
        let template = Template {
            agreement: &*agreement,
            number,
        };
        let w = width(template.body(), &widths, BODY_DEPTH);
        widths.push(w);
    }
    widths
}

fn body_narrow(agreement: &Agreement<'_>, widths: &[usize], number: usize) -> bool
    requires there { number < bytes.byte agreement.now 10 }
    requires formed { well_formed agreement.now ≡ true }
    ensures { result ≡ all_narrow widths.now (body_at agreement.now number) }
{
    let template = Template { agreement, number };
    all_narrow(template.body(), widths, BODY_DEPTH)
}

// Refusal 5 where this is false.
pub fn narrow(agreement: &Agreement<'_>) -> bool
    requires { well_formed agreement.now ≡ true }
    ensures { result ≡ narrow_all (agreement_of agreement.now) }
{
    let widths = template_widths(agreement);
    let widths = widths.as_slice();
    all_narrow(agreement.main(), widths, MAIN_DEPTH)
        && (0..agreement.template_count()).all(|number| body_narrow(agreement, widths, number))
}
