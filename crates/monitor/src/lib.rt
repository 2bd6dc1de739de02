// The public entries of paper 01. No entry relies on an earlier check.
#![tactic(auto)]

ghost use Rattle.std.specs.Prelude.{◌≡◌, ◌≤◌, length, take, drop, Ok};
ghost use Rattle.csl.specs.Check.{Accepted as IsAccepted, check_of};
ghost use Rattle.csl.specs.Entries.{start_of, reading_of, forecast_of};
ghost use Rattle.csl.specs.Preview.{preview_of};
ghost use Rattle.settling.specs.Before.{read_from};
ghost use Rattle.monitor.specs.Answers.{number_of, check_answer, ahead_told, start_answer, taken_answer};
ghost use Rattle.monitor.specs.Steps.{Read, Verified, Opened, Opens, why_misfit};
ghost use Rattle.monitor.specs.Steps.{SomeReading, ReadAs, ReadsOn, Judged, some_later, Shown};

use cells::{
    BREACH_PARTIES, BREACH_TIME, HEAD_CELLS, LAST_TIME, MOST_UNITS, STATE, Sight, TABLE_CELLS,
};
use kinds::RunState;
use readings::{Misfit, Reading};
use records::Agreement;
use reduction::{TooMany, Wrote, advance};
use settling::before::{copy_before, table_before};
use state::{State, state_of};
use waits::Event;
use walk::Units;
use walk::ahead::ahead;
use walk::later::some_open_later;

// The sight of a unit that is not yet read.
const UNREAD: Sight = Sight::Waits {
    params: 0,
    values: 0,
};

// Why an entry refuses. The paper's numbers are given by `number_of`.
#[derive(Clone, Copy, Debug, PartialEq, Eq)]
pub enum Refusal {
    AgreementLength,
    AgreementForm,
    AgreementTyping,
    AgreementGuards,
    AgreementWidth,
    AgreementSize,
    TableLength,
    TableContent,
    ReadingForm,
    ReadingTyping,
    ReadingTime,
    Units,
}

// The paper's number of a refusal.
impl From<Refusal> for u32 {
    ghost from_gives = { λ refusal number. number ≡ number_of refusal };

    fn from(refusal: Refusal) -> u32 {
        match refusal {
            Refusal::AgreementLength => 1,
            Refusal::AgreementForm => 2,
            Refusal::AgreementTyping => 3,
            Refusal::AgreementGuards => 4,
            Refusal::AgreementWidth => 5,
            Refusal::AgreementSize => 15,
            Refusal::TableLength => 6,
            Refusal::TableContent => 7,
            Refusal::ReadingForm => 8,
            Refusal::ReadingTyping => 9,
            Refusal::ReadingTime => 10,
            Refusal::Units => 11,
        }
    }
}

// A breach ahead: when, and by whom, by bit. It is in numbers, as C takes it.
#[derive(Clone, Copy, Debug, PartialEq, Eq)]
pub struct BreachAhead {
    pub time: u64,
    pub parties: usize,
}

impl From<parties::Breach> for BreachAhead {
    ghost use Rattle.std.specs.Prelude.{unsigned_abs};

    ghost from_gives = { λ breach ahead. ahead ≡ record { time = unsigned_abs breach.time; parties = breach.parties } };

    fn from(breach: parties::Breach) -> BreachAhead {
        BreachAhead {
            time: breach.time.unsigned_abs(),
            parties: breach.parties.bits(),
        }
    }
}

// A reading that is taken: `early` says that it came too early (nothing altered, and some unit waits for it and opens
// later), which is a fact of it and no case of its own; `cost` what it cost; `ahead` the forecast of the table that it
// leaves.
#[derive(Clone, Copy, Debug, PartialEq, Eq)]
pub struct Taken {
    pub early: bool,
    pub cost: usize,
    pub ahead: Option<BreachAhead>,
}

// A reading that is followed, without the forecast.
#[derive(Clone, Copy, Debug, PartialEq, Eq)]
struct Followed {
    early: bool,
    cost: usize,
}

// A reading that finds no unit: it came not too early, and cost nothing.
const IDLE: Followed = Followed {
    early: false,
    cost: 0,
};

// A reading that is refused. Of the refusals only `Units` has a cost.
#[derive(Clone, Copy, Debug, PartialEq, Eq)]
pub struct Refused {
    pub why: Refusal,
    pub cost: usize,
}

// A refusal before any unit is read.
impl From<Refusal> for Refused {
    ghost from_gives = { λ why refused. refused ≡ record { why = why; cost = 0 } };

    fn from(why: Refusal) -> Refused {
        Refused { why, cost: 0 }
    }
}

// A reading that is none, or that does not fit.
impl From<Misfit> for Refused {
    ghost from_gives = { λ misfit refused. refused ≡ record { why = why_misfit misfit; cost = 0 } };

    fn from(misfit: Misfit) -> Refused {
        match misfit {
            Misfit::Malformed => Refusal::ReadingForm.into(),
            Misfit::Untyped => Refusal::ReadingTyping.into(),
        }
    }
}

// A reading that leads to more units than a table has.
impl From<TooMany> for Refused {
    ghost use Rattle.monitor.specs.declared.Refusal.TheVariants.{Units};

    ghost from_gives = { λ many refused. refused ≡ record { why = Units; cost = many.cost } };

    fn from(many: TooMany) -> Refused {
        Refused {
            why: Refusal::Units,
            cost: many.cost,
        }
    }
}

// Refusals 1 and 2.
#[tactic(auto, using(crate::proofs::Checks::forming))]
fn read(bytes: &[u8]) -> Result<Agreement<'_>, Refusal>
    ensures { Read bytes.now result }
{
    if !records::length_ok(bytes) {
        return Err(Refusal::AgreementLength);
    }
    formed::well_formed(bytes).ok_or(Refusal::AgreementForm)
}

// Refusals 1 to 5 and 15, each judged over the whole agreement before the next.
#[tactic(auto, using(crate::proofs::Checks::verifying))]
fn verify(bytes: &[u8]) -> Result<places::Accepted<'_>, Refusal>
    ensures { Verified bytes.now result }
{
    let agreement = read(bytes)?;
    let parties = typing::agreement_parties(&agreement).ok_or(Refusal::AgreementTyping)?;
    if !guards::guarded(&agreement) {
        return Err(Refusal::AgreementGuards);
    }
    if !guards::narrow(&agreement) {
        return Err(Refusal::AgreementWidth);
    }
    if !sizes::fits(&agreement) {
        return Err(Refusal::AgreementSize);
    }
    Ok(places::Accepted::new(agreement, parties))
}

// Checks an agreement of any bytes: the main clause's parties by bit, or why not.
#[tactic(auto, using(crate::proofs::Checks::checking))]
pub fn check(agreement: &[u8]) -> Result<usize, Refusal>
    ensures { check_answer result ≡ check_of agreement.now }
{
    Ok(verify(agreement)?.mains().bits())
}

// The forecast of a table: what its units come to if only time goes on, or the breach that it is of.
#[tactic(auto, using(crate::proofs::Foretells::foretelling))]
fn foretell(agreement: &places::Accepted<'_>, table: &[i64; TABLE_CELLS]) -> Option<BreachAhead>
    requires { IsAccepted agreement.now × Shown agreement.now table.now }
    ensures { ahead_told result ≡ forecast_of agreement.now table.now }
{
    match RunState::try_from(table[STATE]) {
        Ok(RunState::Running) => {
            let breach = ahead(agreement.agreement(), &table[HEAD_CELLS..])?;
            Some(breach.into())
        }
        Ok(RunState::Breached) => Some(BreachAhead {
            time: table[BREACH_TIME] as u64,
            parties: table[BREACH_PARTIES] as usize,
        }),
        Ok(RunState::Fulfilled) => None,
        Err(_) => None,
    }
}

// Start, for an accepted agreement and a table's cells. Nothing is in sight.
#[tactic(auto, using(crate::proofs::Begins::beginning))]
fn begin(
    accepted: &places::Accepted<'_>,
    table: &mut [i64; TABLE_CELLS],
) -> Result<Option<BreachAhead>, Refusal>
    requires { IsAccepted accepted.now }
    ensures { start_answer result table.new ≡ start_of accepted.now table.old }
{
    let agreement = accepted.agreement();
    match advance(
        agreement,
        &[],
        None,
        table,
        0,
        agreement.start(),
        Event::Activate,
    ) {
        Ok(_) => Ok(foretell(accepted, table)),
        Err(_) => Err(Refusal::Units),
    }
}

// Starts a run of an agreement of any bytes, and tells the forecast of the table that it leaves: the breach ahead, or
// none. A refusal leaves the table.
#[tactic(auto, using(crate::proofs::Opens::starting))]
pub fn start(agreement: &[u8], table: &mut [i64]) -> Result<Option<BreachAhead>, Refusal>
    ensures { start_answer result table.new ≡ start_of agreement.now table.old }
{
    let agreement = verify(agreement)?;
    let table = table.as_mut_array().ok_or(Refusal::TableLength)?;
    begin(&agreement, table)
}

// An accepted agreement, the state that a table shows of it, and the sights of a running run's units.
#[derive(Drop)]
struct Lent<'a> {
    agreement: places::Accepted<'a>,
    state: State,
    sights: &'a [Sight],
}

// Refusal 7; the sights are filled on the way.
#[tactic(auto, using(crate::proofs::Opens::open_damaged))]
fn open_run<'a>(
    agreement: places::Accepted<'a>,
    table: &[i64; TABLE_CELLS],
    sights: &'a mut [Sight; MOST_UNITS],
) -> Result<Lent<'a>, Refusal>
    requires { IsAccepted agreement }
    ensures { Opens agreement.entry table.now result }
{
    let state = state_of(&agreement, table, sights).ok_or(Refusal::TableContent)?;
    Ok(Lent {
        agreement,
        state,
        sights,
    })
}

impl<'a> Lent<'a> {
    // So many units of the table.
    #[tactic(auto, using(crate::proofs::Follows::lending))]
    fn units<'t>(&'t self, table: &'t [i64; TABLE_CELLS], used: usize) -> Units<'t>
        requires { used ≤ length self.now.sights.now }
        ensures { (result.sights.now ≡ take used self.now.sights.now) × (length result.sights.now ≡ used)
            × (result.cells.now ≡ drop 8 table.now) }
    {
        Units {
            sights: &self.sights[..used],
            cells: &table[HEAD_CELLS..],
        }
    }

    // Whether a reading that altered nothing came too early. No unit waits for a time mark.
    #[tactic(auto, using(crate::proofs::Follows::asking))]
    fn came_early(&self, table: &[i64; TABLE_CELLS], used: usize, reading: &Reading) -> bool
        requires { Judged self.now.agreement self.now.sights.now table.now used reading.now }
        ensures { result ≡ some_later self.now.agreement used self.now.sights.now table.now reading.now }
    {
        if reading.tag == 0 {
            return false;
        }
        let units = self.units(table, used);
        some_open_later(self.agreement.agreement().bytes(), reading, units)
    }

    // A reading that fits and is not before the last. A breached run is left as it is; of a fulfilled one the last
    // reading time moves. A time is a cell by `as`: `try_from` has a case that cannot occur.
    #[tactic(auto, using(crate::proofs::Follows::stepping))]
    fn follow(
        &self,
        first: Option<&[i64; TABLE_CELLS]>,
        table: &mut [i64; TABLE_CELLS],
        reading: &Reading,
    ) -> Result<Followed, Refused>
        requires opened { Opened self.now.agreement (read_from first table.old) self.now.sights.now self.now.state }
        requires some_reading { SomeReading self.now.agreement (read_from first table.old) reading.now }
        ensures { ReadAs self.now.agreement (read_from first.entry table.old) table.old reading.now result table.new }
    {
        match self.state {
            State::Running(used) => {
                let wrote = advance(
                    self.agreement.agreement(),
                    self.sights,
                    first,
                    table,
                    used,
                    reading.time,
                    Event::Follow(reading),
                )?;
                let early = !wrote.altered && self.came_early(table, used, reading);
                Ok(Followed {
                    early,
                    cost: wrote.cost,
                })
            }
            State::Fulfilled => {
                copy_before(first, table);
                table[LAST_TIME] = reading.time as i64;
                Ok(IDLE)
            }
            State::Breached(_) => {
                copy_before(first, table);
                Ok(IDLE)
            }
        }
    }

    // A reading of any bytes.
    #[tactic(auto, using(crate::proofs::Follows::judging))]
    fn read_on(
        &self,
        first: Option<&[i64; TABLE_CELLS]>,
        table: &mut [i64; TABLE_CELLS],
        bytes: &[u8],
    ) -> Result<Taken, Refused>
        requires { Opened self.now.agreement (read_from first table.old) self.now.sights.now self.now.state }
        ensures { ReadsOn self.now.agreement (read_from first.entry table.old) table.old bytes.now result table.new }
    {
        let reading = readings::take(self.agreement.agreement(), bytes)?;
        let before = table_before(first, table);
        if (reading.time as i64) < before[LAST_TIME] {
            return Err(Refusal::ReadingTime.into());
        }
        let followed = self.follow(first, table, &reading)?;
        let ahead = foretell(&self.agreement, table);
        Ok(Taken {
            early: followed.early,
            cost: followed.cost,
            ahead,
        })
    }
}

// A reading of any bytes is taken of the run that the first table shows, where one is lent, or else the table itself;
// the table becomes what the reading leaves. A refusal leaves it. (Inline: as a function of its own it would clear the
// unread sights twice.)
#[inline(always)]
#[tactic(auto, using(crate::proofs::Opens::opening))]
fn read_table(
    agreement: places::Accepted<'_>,
    first: Option<&[i64; TABLE_CELLS]>,
    table: &mut [i64; TABLE_CELLS],
    reading: &[u8],
) -> Result<Taken, Refused>
    requires { IsAccepted agreement }
    ensures { ReadsOn agreement.entry (read_from first.entry table.old) table.old reading.now result table.new }
{
    let mut sights = [UNREAD; MOST_UNITS];
    let run = open_run(agreement, table_before(first, table), &mut sights)?;
    run.read_on(first, table, reading)
}

// Gives a run a reading, both of any bytes, and tells the forecast of the table that it leaves. A refusal leaves the
// table.
#[tactic(auto, using(crate::proofs::Opens::taking))]
pub fn reading(agreement: &[u8], table: &mut [i64], reading: &[u8]) -> Result<Taken, Refused>
    ensures { taken_answer result table.new ≡ reading_of agreement.now table.old reading.now }
{
    let agreement = verify(agreement)?;
    let table = table.as_mut_array().ok_or(Refusal::TableLength)?;
    read_table(agreement, None, table, reading)
}

// Tells what a reading would do to a run, and writes the table that it would leave into a second one. A refusal leaves
// the second.
#[tactic(auto, using(crate::proofs::Previews::previewing))]
pub fn preview(
    agreement: &[u8],
    table: &[i64],
    reading: &[u8],
    second: &mut [i64],
) -> Result<Taken, Refused>
    ensures { taken_answer result second.new ≡ preview_of agreement.now table.now second.old reading.now }
{
    let agreement = verify(agreement)?;
    let first = table.as_array().ok_or(Refusal::TableLength)?;
    let second = second.as_mut_array().ok_or(Refusal::TableLength)?;
    read_table(agreement, Some(first), second, reading)
}
