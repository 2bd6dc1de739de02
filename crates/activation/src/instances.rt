// What an instance names: its template's number, its values and its parties.
ghost use Rattle.std.specs.Prelude.{◌≡◌, List, ℕ, ◌+◌, ◌-◌, ◌≤◌, ℤ, length};
ghost use Rattle.csl.specs.Bytes as bytes;
ghost use Rattle.csl.specs.Decode.{expr, records_end, instance_kind};
ghost use Rattle.csl.specs.Decode as decode;
ghost use Rattle.cells.specs.Evaluate.{evals_cells};
ghost use Rattle.cells.specs.Reduce.{Mode};
ghost use Rattle.records.specs.Index.{head_at};
ghost use Rattle.activation.specs.Leads.{Leads, body_in};

use crate::Next;
use arrayvec::ArrayVec;
use evaluation::eval;
use octets::{byte, record_end};
use records::{Agreement, Template};

// The most values of an instance.
pub const MOST_ARGUMENTS: usize = 8;

// Where the last of n expressions ends that stand one after another from byte 5 of s. Their values are no part of the
// answer: it would be copied with them at each activation (28 % more instructions where two million obligations are
// activated).
fn arguments_end(s: &[u8], n: usize) -> usize
    ensures { (result ≡ records_end n s.now 5) × (result ≤ 5 + length s.now) }
{
    (0..n).fold(5, |at, _| record_end(s, at))
}

// The values that an instance of the template in the record s gives, with so many depths left within it. (They go one
// after another, each beginning where the one before ends: an iterator of records would be a type with laws of its own,
// for loops of a few lines.)
pub fn arguments(
    s: &[u8],
    values: &[i64],
    depth: usize,
    template: &Template<'_>,
) -> ArrayVec<i64, MOST_ARGUMENTS>
    ensures { result.items ≡ evals_cells values.now (decode.arguments (expr depth)
        (length (head_at template.now.agreement.now template.now.number).values) s.now 5) }
{
    let mut given = ArrayVec::new();
    let mut at = 5;
    for _ in 0..template.value_count() {
        let e = record_end(s, at);
        given.push(eval(&s[at.min(s.len())..e], values, depth));
        at = e;
    }
    given
}

// The template that the record s names, an instance of one below a number, and where its parties begin.
pub fn instance<'a>(agreement: &Agreement<'_>, below: usize, s: &[u8]) -> Next<'a>
    requires { below ≤ bytes.byte agreement.now 10 }
    ensures { (m : Mode) (place : ℕ) (ps vs : List ℤ) (a depth : ℕ) → Leads m agreement.now below s.now place ps vs a
        depth (body_in agreement.now (depth - 1) place s.now instance_kind) result }
{
    let number = byte(s, 4);
    if number >= below {
        return Next::Ends;
    }
    let template = Template { agreement, number };
    let parties = arguments_end(s, template.value_count());
    if parties + template.param_count() != s.len() {
        return Next::Ends;
    }
    Next::Unfolds {
        template: number,
        parties,
    }
}
