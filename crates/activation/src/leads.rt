// What a clause leads to, before anything within it is activated.
ghost use Rattle.std.specs.Prelude.{◌≡◌, true, ℕ, ◌+◌, ◌-◌, ◌≤◌, pos, length};
ghost use Rattle.csl.specs.Bytes as bytes;
ghost use Rattle.csl.specs.Numbers.{later_of};
ghost use Rattle.csl.specs.Decode.{if_kind, obligation_kind, choice_kind};
ghost use Rattle.arith.specs.Near.{Near};
ghost use Rattle.kinds.specs.Kinds.{join_number};
ghost use Rattle.cells.specs.Reduce.{Mode, blame_bits};
ghost use Rattle.waits.specs.Fates.{mode_at};
ghost use Rattle.residues.specs.Reduces.{farthest};
ghost use Rattle.activation.specs.Leads.{LeadsFrom, Outlined, Acting, Told, Ended, body_at, clause_at, BreaksAhead};

use crate::blames::blame_bits;
use crate::instances::instance;
use crate::sites::Clause;
use crate::{Next, Shape};
use cells::Values;
use evaluation::{eval, is_true};
use kinds::{Join, WaitKind};
use octets::{byte, is_record, kind, record_end};
use parties::Breach;
use records::{MAIN_DEPTH, wait_end};
use waits::{Event, Fate, Wait};

// The later of a time and a window's last minute, as a time.
fn moved(a: usize, last: i64) -> i64
    requires { (a ≤ farthest) × Near (a + 2_000_000_000) last }
    ensures { (result ≡ pos (later_of a last)) × (later_of a last ≤ a + 2_000_000_000) }
{
    (a as i64).max(last)
}

// The breach of the obligation in the record s, activated at the time a, whose last minute it is.
fn breach(s: &[u8], params: &[i64], a: usize, last: i64) -> Breach
    requires { (a ≤ farthest) × Near (a + 2_000_000_000) last }
    ensures { (result.time ≡ pos (later_of a last)) × (result.parties ≡ blame_bits params.now (bytes.byte s.now 4)) }
{
    Breach {
        time: moved(a, last),
        parties: blame_bits(params, byte(s, 4)),
    }
}

// (What `Acting` leaves for the clause of one kind is asked by itself here and below: four bytes and a depth.)
fn chosen<'a>(clause: &Clause<'_>) -> Next<'a>
    requires { (4 ≤ length clause.now.bytes.now) × (1 ≤ clause.now.site.depth) }
    ensures { (m : Mode) → LeadsFrom m clause.now (body_at clause.now if_kind) result }
{
    let s = clause.bytes;
    let c = record_end(s, 4);
    let f = record_end(s, c);
    if is_true(eval(&s[4..c], clause.values.cells, clause.site.depth - 1)) {
        return Next::Picks { from: c, to: f };
    }
    Next::Picks {
        from: f,
        to: s.len(),
    }
}

// (`obligation` and `choice` stay two: their windows, `then` and else stand at other places.)
fn obligation<'a>(event: Event<'a>, clause: &Clause<'_>) -> Next<'a>
    requires { (4 ≤ length clause.now.bytes.now) × (1 ≤ clause.now.site.depth) }
    ensures { LeadsFrom (mode_at event.entry) clause.now (body_at clause.now obligation_kind) result }
{
    let s = clause.bytes;
    let a = clause.site.a;
    let wait = Wait {
        bytes: s,
        at: 5,
        values: clause.values,
        a,
        depth: clause.site.depth - 1,
    };
    match wait.becomes(event) {
        Fate::Waits => Next::Waits(WaitKind::Obligation),
        Fate::Late(last) => Next::Breaks(breach(s, clause.params, a, last)),
        Fate::Taken(reading, last) => Next::Takes {
            reading,
            from: wait_end(s, 5),
            to: s.len(),
            last,
        },
    }
}

fn choice<'a>(event: Event<'a>, clause: &Clause<'_>) -> Next<'a>
    requires { (4 ≤ length clause.now.bytes.now) × (1 ≤ clause.now.site.depth) }
    ensures { LeadsFrom (mode_at event.entry) clause.now (body_at clause.now choice_kind) result }
{
    let s = clause.bytes;
    let a = clause.site.a;
    let wait = Wait {
        bytes: s,
        at: 4,
        values: clause.values,
        a,
        depth: clause.site.depth - 1,
    };
    let c = wait_end(s, 4);
    let f = record_end(s, c);
    match wait.becomes(event) {
        Fate::Waits => Next::Waits(WaitKind::Choice),
        Fate::Late(last) => Next::Lapses {
            from: f,
            to: s.len(),
            at: moved(a, last) as usize,
        },
        Fate::Taken(reading, last) => Next::Takes {
            reading,
            from: c,
            to: f,
            last,
        },
    }
}

// The breach that the record s comes to, an obligation of the outermost depth, if only time goes on; none where it is
// another clause. (It stands apart from `leads_to`, which asks for the clause's site.)
pub fn breach_ahead(s: &[u8], params: &[i64], values: Values<'_>, a: usize) -> Option<Breach>
    requires { a ≤ farthest }
    ensures { BreaksAhead s.now params.now values.entry.cells.now a result }
{
    if !is_record(s) || kind(s) != 17 {
        return None;
    }
    let wait = Wait {
        bytes: s,
        at: 5,
        values,
        a,
        depth: MAIN_DEPTH - 1,
    };
    Some(breach(s, params, a, wait.last()))
}

// What a clause that acts does, before anything within it is activated. A record's kind is decided by its number, a
// rule of the project.
pub fn leads_to<'a>(event: Event<'a>, clause: &Clause<'_>) -> Next<'a>
    requires { Acting clause.now.site.depth clause.now.bytes.now }
    ensures { LeadsFrom (mode_at event.entry) clause.now (clause_at clause.now) result }
{
    match kind(clause.bytes) {
        17 => obligation(event, clause),
        18 => choice(event, clause),
        19 => chosen(clause),
        _ => instance(clause.agreement, clause.site.below, clause.bytes),
    }
}

// Only clauses of kinds 17 to 22 do anything: any other record is as good as fulfilled, at any depth and of any length.
fn ends(s: &[u8]) -> bool
    ensures { result ≡ true → Ended s.now }
{
    !matches!(kind(s), 17..=22)
}

// What a join shows. Two sides with nothing to do are fulfilled, and beside one an `and` does what its other side does.
// All that is skipped is counted.
fn sides(s: &[u8], join: Join) -> Shape
    requires { 4 ≤ length s.now }
    ensures { (depth : ℕ) → Told s.now depth (join_number join) → Outlined s.now depth result }
{
    let f = record_end(s, 4);
    match (ends(&s[4..f]), ends(&s[f..]), join) {
        (true, true, _) => Shape::Ends(3),
        (true, false, Join::And) => Shape::Goes {
            from: f,
            to: s.len(),
        },
        (false, true, Join::And) => Shape::Goes { from: 4, to: f },
        _ => Shape::Joins { join, right: f },
    }
}

// What the record s shows.
pub fn outline(s: &[u8], depth: usize) -> Shape
    ensures { Outlined s.now depth result }
{
    if depth == 0 || !is_record(s) {
        return Shape::Ends(1);
    }
    match kind(s) {
        20 => sides(s, Join::And),
        21 => sides(s, Join::Or),
        17..=22 => Shape::Acts,
        _ => Shape::Ends(1),
    }
}
