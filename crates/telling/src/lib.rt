// The line that a start or a reading tells.
#![tactic(auto)]

ghost use Rattle.std.specs.Prelude.{◌≡◌, [], ◌∷◌, ◌+◌, ◌≤◌, eqb, not, is_some, length};
ghost use Rattle.lines.specs.Text.{fields};
ghost use Rattle.lines.specs.Lines.{verdict_fields, reading_time};
ghost use Rattle.lines.specs.Put.{put};
ghost use Rattle.lines.specs.Shown.{shown_time};
ghost use Rattle.monitor.specs.Answers.{ahead_told, number_of};
ghost use Rattle.telling.specs.Told.{Begins, Follows};
ghost use Rattle.telling.specs.Verdicts.{shown_ahead, shown_verdict};

use kinds::RunState;
use lines::{Line, Page, Put};
use monitor::{BreachAhead, Refusal, Refused};
use octets::unsigned32;
use records::START_AT;

// No line is longer.
pub const LINE_ROOM: usize = 96;

// What a table says: it runs or is breached, with its forecast, or it is fulfilled.
#[derive(Clone, Copy, Debug, PartialEq, Eq)]
pub enum Verdict {
    Live(Option<BreachAhead>),
    Done,
    Breach(Option<BreachAhead>),
}

impl Put for Verdict {
    ghost text = { shown_verdict };

    fn put_on(&self, page: &mut Page<'_>) {
        match *self {
            Verdict::Live(ahead) => {
                page.put_bytes(b"LIVE");
                put_ahead(ahead, page);
            }
            Verdict::Done => page.put_bytes(b"DONE"),
            Verdict::Breach(ahead) => {
                page.put_bytes(b"BREACH");
                put_ahead(ahead, page);
            }
        }
    }
}

// The breach ahead, its time and its parties by bit, or that there is none.
fn put_ahead(ahead: Option<BreachAhead>, page: &mut Page<'_>)
    ensures { page.new ≡ put page.old (shown_ahead ahead) }
{
    match ahead {
        Some(breach) => {
            page.put_next(breach.time);
            page.put_next(breach.parties as u64);
        }
        None => page.put_bytes(b" NONE"),
    }
}

// The verdict on a table, by its state, with its forecast; a cell that names no state is taken for a breach's.
fn verdict_on(table: &[i64], ahead: Option<BreachAhead>) -> Verdict
    ensures shows { fields (shown_verdict result ∷ []) ≡ fields (verdict_fields (ahead_told ahead) table.now) }
    ensures room { length (shown_verdict result) ≤ 6 + length (shown_ahead ahead) }
{
    let cell = table.first().copied().unwrap_or(0);
    match RunState::try_from(cell).unwrap_or(RunState::Breached) {
        RunState::Running => Verdict::Live(ahead),
        RunState::Fulfilled => Verdict::Done,
        RunState::Breached => Verdict::Breach(ahead),
    }
}

// Starts the agreement.
pub fn begin(agreement: &[u8], table: &mut [i64]) -> Line<Verdict>
    ensures { Begins agreement.now table.old table.new result }
{
    match monitor::start(agreement, table) {
        Ok(ahead) => Line {
            number: 0,
            time: Some(unsigned32(agreement, START_AT)),
            says: Ok(verdict_on(table, ahead)),
        },
        Err(why) => Line {
            number: 0,
            time: None,
            says: Err(u32::from(why)),
        },
    }
}

// Takes a reading.
pub fn follow(agreement: &[u8], table: &mut [i64], reading: &[u8], number: u64) -> Line<Verdict>
    ensures { Follows agreement.now table.old table.new number reading.now result }
{
    match monitor::reading(agreement, table, reading) {
        Ok(taken) => Line {
            number,
            time: Some(unsigned32(reading, 4)),
            says: Ok(verdict_on(table, taken.ahead)),
        },
        Err(Refused { why, cost: _ }) => Line {
            number,
            time: time_of(reading, why),
            says: Err(u32::from(why)),
        },
    }
}

// The time of a refused reading: bytes that are no reading have none.
fn time_of(reading: &[u8], why: Refusal) -> Option<usize>
    ensures shows { shown_time result ≡ reading_time reading.now (number_of why) }
    ensures some { is_some result ≡ not (eqb (number_of why) 8) }
    ensures room { length (shown_time result) ≤ 20 }
{
    match why {
        Refusal::ReadingForm => None,
        _ => Some(unsigned32(reading, 4)),
    }
}

// Whether the run goes on behind a line: a refused start, and bytes that are no reading, have no time and end it.
pub fn goes_on(line: &Line<Verdict>) -> bool
    ensures { result ≡ is_some line.now.time }
{
    line.time.is_some()
}
