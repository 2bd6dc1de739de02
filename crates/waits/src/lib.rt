// What becomes of a wait: its window, its `where`, and what a reading or time alone makes of it.
#![tactic(auto)]

mod wait;

ghost use Rattle.std.specs.Prelude.{◌≡◌, ◌++◌, ℕ, ◌+◌, ◌-◌, ◌≤◌, ℤ, pos, nat_abs, ◌+ℤ◌, ◌-ℤ◌, length, take, drop};
ghost use Rattle.csl.specs.Decode.{expr};
ghost use Rattle.arith.specs.Near.{Near};
ghost use Rattle.csl.specs.Rules.{timing};
ghost use Rattle.cells.specs.Evaluate.{eval_cells};
ghost use Rattle.cells.specs.Reduce.{first_of, last_of, following, opens_later, then_values};
ghost use Rattle.residues.specs.Reduces.{farthest};
ghost use Rattle.waits.specs.Fates.{mode_of, mode_at, FateIs, WindowIs, timing_is, condition_of, wait_in, AfterAt};
ghost use Rattle.readings.specs.Values.{values_read};

use arrayvec::ArrayVec;
use cells::Values;
use evaluation::{eval, is_true};
use octets::{byte, record_end};
use readings::{MOST_VALUES, Reading};
use records::IN_SIGHT;
pub use wait::Wait;

// Room for the values in sight, a reading's, and the minutes that were left.
pub const SIGHT_CELLS: usize = IN_SIGHT + MOST_VALUES + 1;

// What a clause does: it is activated and waits, it tells its breach, or it follows a reading.
#[derive(Clone, Copy)]
pub enum Event<'a> {
    Activate,
    Forecast,
    Follow(&'a Reading),
}

// The first and the last minute of a wait.
#[derive(Clone, Copy, Debug, PartialEq, Eq)]
struct Window {
    first: i64,
    last: i64,
}

// How a time stands to a window. One that ends before it begins is late, never early.
#[derive(Clone, Copy, Debug, PartialEq, Eq)]
enum Timing {
    Early,
    OnTime,
    Late,
}

// What becomes of a wait, with its last minute; a reading takes it.
#[derive(Clone, Copy)]
pub enum Fate<'a> {
    Waits,
    Late(i64),
    Taken(&'a Reading, i64),
}

// The minute that comes as long after another as an expression says.
fn minutes_after(from: i64, span: &[u8], values: &[i64], depth: usize) -> i64
    requires { Near (farthest + 1_000_000_000) from }
    ensures { (result ≡ from +ℤ eval_cells values.now (expr depth span.now))
        × Near (nat_abs from + 1_000_000_000) result }
{
    from + eval(span, values, depth)
}

// The values in sight and the reading's.
fn sight(values: Values<'_>, reading: &Reading) -> ArrayVec<i64, SIGHT_CELLS>
    ensures { (result.items ≡ values.entry.cells.now ++ values_read reading.now) × (length result.items ≤ 20) }
{
    let mut all = ArrayVec::new();
    all.try_extend_from_slice(values.cells).unwrap();
    all.try_extend_from_slice(reading.values()).unwrap();
    all
}

impl Window {
    // The window test.
    fn timing(self, time: usize) -> Timing
        requires { time ≤ farthest }
        ensures { timing_is result ≡ timing (record { first = self.first; last = self.last }) time }
    {
        let t = time as i64;
        if self.last < t {
            Timing::Late
        } else if t < self.first {
            Timing::Early
        } else {
            Timing::OnTime
        }
    }
}

impl Wait<'_> {
    // Where its `after` begins and ends.
    fn after(&self) -> (usize, usize)
        ensures { AfterAt self.now.bytes.now self.now.at result.0 result.1 }
    {
        let b = record_end(self.bytes, self.at + 1);
        (b, record_end(self.bytes, b))
    }

    // Its first minute, by its `after`. (Inline here and below: a wait of literals then makes no call.)
    #[inline(always)]
    fn first(&self, after: (usize, usize)) -> i64
        requires { AfterAt self.now.bytes.now self.now.at after.0 after.1 }
        ensures is { (p : ℕ) → result ≡ first_of self.now.values.cells.now self.now.a (wait_in self.now p) }
        ensures near { Near (self.now.a + 1_000_000_000) result }
    {
        let span = &self.bytes[after.0..after.1];
        minutes_after(self.a as i64, span, self.values.cells, self.depth)
    }

    // Its window: `within` begins where `after` ends.
    #[inline(always)]
    fn window(&self) -> Window
        ensures { (p : ℕ) → WindowIs self.now.values.cells.now self.now.a (wait_in self.now p) result }
    {
        let s = self.bytes;
        let after = self.after();
        let first = self.first(after);
        let e = record_end(s, after.1);
        let last = minutes_after(first, &s[after.1..e], self.values.cells, self.depth);
        Window { first, last }
    }

    // Its last minute.
    #[inline(always)]
    pub fn last(&self) -> i64
        ensures is { (p : ℕ) → result ≡ last_of self.now.values.cells.now self.now.a (wait_in self.now p) }
        ensures near { Near (self.now.a + 2_000_000_000) result }
    {
        self.window().last
    }

    // Its `where`.
    #[inline(always)]
    fn holds(&self, reading: &Reading) -> bool
        ensures { let w = self.now in
            result ≡ condition_of w.bytes.now w.at w.depth (w.values.cells.now ++ values_read reading.now) }
    {
        let s = self.bytes;
        let all = sight(self.values, reading);
        let a = (self.at + 1).min(s.len());
        let b = record_end(s, self.at + 1);
        let x = eval(&s[a..b], &all, self.depth);
        is_true(x)
    }

    // What a reading makes of it.
    fn follow<'a>(&self, reading: &'a Reading) -> Fate<'a>
        ensures { (p : ℕ) → FateIs (mode_of reading.now) self.now.values.cells.now self.now.a (wait_in self.now p) result }
    {
        let w = self.window();
        match w.timing(reading.time) {
            Timing::Late => Fate::Late(w.last),
            Timing::Early => Fate::Waits,
            Timing::OnTime if byte(self.bytes, self.at) == reading.tag && self.holds(reading) =>
                Fate::Taken(reading, w.last),
            Timing::OnTime => Fate::Waits,
        }
    }

    // It wants the reading, its `where` is true, and its first minute is later. Only then is `where` asked.
    pub fn opens_later(&self, reading: &Reading) -> bool
        ensures { (p : ℕ) → result ≡ opens_later self.now.values.cells.now self.now.a (wait_in self.now p)
            reading.now.time reading.now.tag (values_read reading.now) }
    {
        byte(self.bytes, self.at) == reading.tag
            && (reading.time as i64) < self.first(self.after())
            && self.holds(reading)
    }

    // What becomes of it.
    pub fn becomes<'a>(&self, event: Event<'a>) -> Fate<'a>
        ensures { (p : ℕ) → FateIs (mode_at event.entry) self.now.values.cells.now self.now.a (wait_in self.now p) result }
    {
        match event {
            Event::Activate => Fate::Waits,
            Event::Forecast => Fate::Late(self.last()),
            Event::Follow(reading) => self.follow(reading),
        }
    }
}

// The values in sight of a `then`, at most 16: those in sight, the reading's, and the minutes that were left.
pub fn then_values(values: Values<'_>, reading: &Reading, last: i64) -> ArrayVec<i64, SIGHT_CELLS>
    requires { Near (farthest + 2_000_000_000) last }
    ensures { (result.items ≡ then_values values.entry.cells.now (values_read reading.now) (last -ℤ pos reading.now.time))
        × (length result.items ≤ 16) }
{
    let left = last - reading.time as i64;
    let mut all = sight(values, reading);
    all.push(left);
    all.truncate(IN_SIGHT);
    all
}
