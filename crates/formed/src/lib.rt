// Refusal 2, for any bytes: 'record, count, type byte or nesting not as under Records, or an instance naming no
// template'.
#![tactic(auto)]

ghost use Rattle.std.specs.Prelude.{◌≡◌, true, false, ◌&&◌, ◌≤◌, ◌<◌, length, MatchOption};
ghost use Rattle.csl.specs.Bytes as bytes;
ghost use Rattle.csl.specs.Lists.{at};
ghost use Rattle.csl.specs.Decode.{expr, whole_expr, wait_at, whole_wait, instance_of, clause, whole, heads_of};
ghost use Rattle.csl.specs.Decode.{body_of};
ghost use Rattle.csl.specs.Decode.{main_of, well_formed};
ghost use Rattle.records.specs.Index.{template_piece};
ghost use Rattle.formed.specs.Tests.{tests_whole, arguments_whole, bodies_whole};

use octets::{byte, is_record, kind, record_end};
use records::{Agreement, BODY_DEPTH, MAIN_DEPTH, Template, first_clause, sides_at};

// The bytes are one expression, at most `depth` deep. (A walker takes a record's bytes and the depth left by
// themselves: both are new at each step.)
fn expr_formed(s: &[u8], depth: usize) -> bool
    ensures { result ≡ whole_expr (expr depth s.now) }
{
    if depth == 0 || !is_record(s) {
        return false;
    }
    let d = depth - 1;
    // here and below: a record's kind is decided by its number, a rule of the project
    match kind(s) {
        32 => s.len() == 8,
        33..=35 => s.len() == 5,
        36 => expr_formed(&s[4..], d),
        37..=43 => {
            let cut = record_end(s, 4);
            expr_formed(&s[4..cut], d) && expr_formed(&s[cut..], d)
        }
        _ => false,
    }
}

// `where`, `after` and `within`, the wanted reading type standing at i. (At 4 or at 5: what is asked of i is no type of
// its own.)
fn wait_formed(s: &[u8], i: usize, depth: usize) -> bool
    requires { i ≤ 5 }
    ensures { result ≡ whole_wait (wait_at (expr depth) 0 s.now i) }
{
    if s.len() <= i {
        return false;
    }
    let a = record_end(s, i + 1);
    let b = record_end(s, a);
    let e = record_end(s, b);
    expr_formed(&s[i + 1..a], depth) && expr_formed(&s[a..b], depth) && expr_formed(&s[b..e], depth)
}

// What stands before the first clause part of a clause of kind 17 to 21.
fn tests_formed(s: &[u8], kind: usize, depth: usize) -> bool
    requires { 4 ≤ length s.now }
    ensures { result ≡ tests_whole (expr depth) kind s.now }
{
    match kind {
        17 => wait_formed(s, 5, depth),
        18 => wait_formed(s, 4, depth),
        19 => {
            let cut = record_end(s, 4);
            expr_formed(&s[4..cut], depth)
        }
        _ => true,
    }
}

// The n records from byte 5 on, each of which begins where the one before ends, are expressions, and `blames` bytes
// follow them to the end. (An iterator of such records would be a type with laws, for loops of three lines.)
fn arguments_formed(s: &[u8], n: usize, blames: usize, depth: usize) -> bool
    requires { (5 ≤ length s.now) × (blames ≤ 4) }
    ensures { result ≡ arguments_whole depth s.now 5 n blames }
{
    let mut a = 5;
    for _ in 0..n {
        let e = record_end(s, a);
        if !expr_formed(&s[a..e], depth) {
            return false;
        }
        a = e;
    }
    a + blames == s.len()
}

// 'instance: template, one expression per value, one blame byte per party parameter'
fn instance_formed(agreement: &Agreement<'_>, s: &[u8], depth: usize) -> bool
    ensures { result ≡ whole (instance_of (expr depth) s.now (at (heads_of agreement.now) (bytes.byte s.now 4))) }
{
    let number = byte(s, 4);
    if s.len() < 5 || number >= agreement.template_count() {
        return false;
    }
    let template = Template { agreement, number };
    arguments_formed(s, template.value_count(), template.param_count(), depth)
}

// The bytes are one clause, at most `depth` deep.
fn clause_formed(agreement: &Agreement<'_>, s: &[u8], depth: usize) -> bool
    ensures { result ≡ whole (clause (heads_of agreement.now) depth 0 s.now) }
{
    if depth == 0 || !is_record(s) {
        return false;
    }
    let d = depth - 1;
    let k = kind(s);
    match k {
        16 => s.len() == 4,
        17 => {
            let c = first_clause(s, k);
            tests_formed(s, k, d) && clause_formed(agreement, &s[c..], d)
        }
        18..=21 => {
            let (c, f) = sides_at(s, k);
            tests_formed(s, k, d)
                && clause_formed(agreement, &s[c..f], d)
                && clause_formed(agreement, &s[f..], d)
        }
        22 => instance_formed(agreement, s, d),
        _ => false,
    }
}

// The body of template `number` is one clause. (No shorter of a `Template`: the closure in `bodies_formed`, which would
// make it, would ask that there is one.)
fn body_formed(agreement: &Agreement<'_>, number: usize) -> bool
    requires { number < bytes.byte agreement.now 10 }
    ensures { result ≡ whole (body_of (heads_of agreement.now) (template_piece agreement.now number)) }
{
    let template = Template { agreement, number };
    clause_formed(agreement, template.body(), BODY_DEPTH)
}

fn bodies_formed(agreement: &Agreement<'_>) -> bool
    ensures { result ≡ bodies_whole agreement.now }
{
    (0..agreement.template_count()).all(|number| body_formed(agreement, number))
}

// The main clause and the bodies.
fn clauses_formed(agreement: &Agreement<'_>) -> bool
    ensures { result ≡ (whole (main_of agreement.now) && bodies_whole agreement.now) }
{
    clause_formed(agreement, agreement.main(), MAIN_DEPTH) && bodies_formed(agreement)
}

// The agreement in the bytes; none where refusal 2 is due.
pub fn well_formed<'a>(bytes: &'a [u8]) -> Option<Agreement<'a>>
    ensures { MatchOption result (well_formed bytes.now ≡ false) (λ a. (a ≡ bytes.now) × (well_formed bytes.now ≡ true)) }
{
    Agreement::read(bytes).filter(clauses_formed)
}
