// The value of an expression, over the bytes of an agreement and cells.
#![tactic(auto)]

ghost use Rattle.std.specs.Prelude.{◌≡◌, true, ◌≤◌, ◌<◌};
ghost use Rattle.csl.specs.Bytes.{is_record, kind_number};
ghost use Rattle.csl.specs.Numbers.{Held};
ghost use Rattle.csl.specs.Decode.{expr};
ghost use Rattle.records.specs.Kinds.{op_of};
ghost use Rattle.cells.specs.Evaluate.{eval_cells, apply_cells, is_true_cell};
ghost use Rattle.evaluation.specs.Parts.{leaf_of};

use arith::Number;
use octets::{byte, is_record, kind, record_end, signed32};

// A truth is any cell but 0.
pub fn is_true(x: i64) -> bool
    ensures { result ≡ is_true_cell x }
{
    x != 0
}

fn holds(x: Number) -> bool
    ensures { result ≡ is_true_cell x }
{
    is_true(x.get())
}

// Kinds 37 to 43. (Here and below a record's kind is decided by its number: a rule of the project.)
fn operate(kind: usize, x: Number, y: Number) -> Number
    ensures { result ≡ apply_cells (op_of kind) x y }
{
    match kind {
        37 => x + y,
        38 => x - y,
        39 => x * y,
        41 => Number::from(holds(x) && holds(y)),
        42 => Number::from(x.get() < y.get()),
        43 => Number::from(x == y),
        _ => x / y,
    }
}

// A number, a truth, a party or a value in sight: kinds 32 to 35.
fn leaf(s: &[u8], kind: usize, values: &[i64]) -> Number
    requires { 32 ≤ kind }
    ensures { result ≡ eval_cells values.now (leaf_of s.now kind) }
{
    match (kind, s.len()) {
        (32, 8) => Number::held(signed32(s, 4)),
        (33..=34, 5) => Number::held(byte(s, 4) as i64),
        (35.., 5) => Number::held(values.get(byte(s, 4)).copied().unwrap_or(0)),
        _ => Number::held(0),
    }
}

// The value of an expression as a number, which knows that it is held. (Inline: a literal then costs no call.)
#[cycle(expression)]
#[inline(always)]
fn number(s: &[u8], values: &[i64], depth: usize) -> Number
    ensures { result ≡ eval_cells values.now (expr depth s.now) }
{
    if depth == 0 || !is_record(s) {
        return Number::held(0);
    }
    let k = kind(s);
    match k {
        32..=35 => leaf(s, k, values),
        36..=43 => compound(s, k, values, depth),
        _ => Number::held(0),
    }
}

// The same of kinds 36 to 43, which have expressions within: in the compiled code it alone calls itself.
#[cycle(expression)]
#[inline(never)]
fn compound(s: &[u8], kind: usize, values: &[i64], depth: usize) -> Number
    requires record { (1 ≤ depth) × (is_record s.now ≡ true) }
    requires kind { (kind ≡ kind_number s.now) × (36 ≤ kind) × (kind < 44) }
    ensures { result ≡ eval_cells values.now (expr depth s.now) }
{
    let d = depth - 1;
    if kind == 36 {
        let x = number(&s[4..], values, d);
        return Number::from(!holds(x));
    }
    let cut = record_end(s, 4);
    let x = number(&s[4..cut], values, d);
    let y = number(&s[cut..], values, d);
    operate(kind, x, y)
}

// The value of an expression, truths being 0 and 1.
pub fn eval(s: &[u8], values: &[i64], depth: usize) -> i64
    ensures { (result ≡ eval_cells values.now (expr depth s.now)) × Held result }
{
    number(s, values, depth).get()
}
