// The entries as functions of numbers and slices alone, as a caller in C gives and takes them: the interface of C wants
// a number returned, and all else written through references.
#![tactic(auto)]

ghost use Rattle.std.specs.Prelude.{◌≡◌, List, ℤ};
ghost use Rattle.csl.specs.Check.{CheckAnswer, check_of};
ghost use Rattle.csl.specs.Entries.{untold, start_of, reading_of};
ghost use Rattle.csl.specs.Preview.{preview_of};
ghost use Rattle.monitor.specs.Answers.{ahead_told, number_of, taken_answer};
ghost use Rattle.givuntha.specs.Numbers.{ForecastNumbers, StartNumbers, ReadingNumbers};
ghost use Rattle.givuntha.specs.Numbers.{forecast_numbers, start_numbers, reading_numbers};

use monitor::{BreachAhead, Refusal, Refused, Taken};

pub fn givuntha_check(agreement: &[u8], parties: &mut u64) -> u32
    ensures { record { number = result; parties = parties.new } ≡ check_of agreement.now }
{
    match monitor::check(agreement) {
        Ok(bits) => {
            *parties = bits as u64;
            0
        }
        Err(why) => {
            *parties = 0;
            why.into()
        }
    }
}

// Gives an accepted call's forecast: the time of the breach ahead and its parties by bit, or zeros where there is none.
fn accept(ahead: Option<BreachAhead>, time: &mut u64, parties: &mut u64) -> u32
    ensures number { result ≡ 0 }
    ensures forecast { record { time = time.new; parties = parties.new } ≡ forecast_numbers (ahead_told ahead) }
{
    (*time, *parties) = match ahead {
        Some(breach) => (breach.time, breach.parties as u64),
        None => (0, 0),
    };
    0
}

// Gives a refusal's zeros.
fn refuse(why: Refusal, time: &mut u64, parties: &mut u64) -> u32
    ensures number { result ≡ number_of why }
    ensures forecast { record { time = time.new; parties = parties.new } ≡ forecast_numbers untold }
{
    (*time, *parties) = (0, 0);
    why.into()
}

pub fn givuntha_start(agreement: &[u8], table: &mut [i64], time: &mut u64, parties: &mut u64) -> u32
    ensures { record { number = result; time = time.new; parties = parties.new; table = table.new }
        ≡ start_numbers (start_of agreement.now table.old) }
{
    match monitor::start(agreement, table) {
        Ok(ahead) => accept(ahead, time, parties),
        Err(why) => refuse(why, time, parties),
    }
}

// Gives what a reading's answer says: the number returned, and the rest.
fn tell(
    answer: Result<Taken, Refused>,
    time: &mut u64,
    parties: &mut u64,
    early: &mut u64,
    cost: &mut u64,
) -> u32
    ensures { (table : List ℤ) → record {
      number = result;
      time = time.new;
      parties = parties.new;
      early = early.new;
      cost = cost.new;
      table = table;
    } ≡ reading_numbers (taken_answer answer table) }
{
    match answer {
        Ok(taken) => {
            *early = u64::from(taken.early);
            *cost = taken.cost as u64;
            accept(taken.ahead, time, parties)
        }
        Err(refused) => {
            *early = 0;
            *cost = refused.cost as u64;
            refuse(refused.why, time, parties)
        }
    }
}

pub fn givuntha_reading(
    agreement: &[u8],
    table: &mut [i64],
    reading: &[u8],
    time: &mut u64,
    parties: &mut u64,
    early: &mut u64,
    cost: &mut u64,
) -> u32
    ensures { record {
      number = result;
      time = time.new;
      parties = parties.new;
      early = early.new;
      cost = cost.new;
      table = table.new;
    } ≡ reading_numbers (reading_of agreement.now table.old reading.now) }
{
    tell(
        monitor::reading(agreement, table, reading),
        time,
        parties,
        early,
        cost,
    )
}

pub fn givuntha_preview(
    agreement: &[u8],
    table: &[i64],
    reading: &[u8],
    second: &mut [i64],
    time: &mut u64,
    parties: &mut u64,
    early: &mut u64,
    cost: &mut u64,
) -> u32
    ensures { record {
      number = result;
      time = time.new;
      parties = parties.new;
      early = early.new;
      cost = cost.new;
      table = second.new;
    } ≡ reading_numbers (preview_of agreement.now table.now second.old reading.now) }
{
    tell(
        monitor::preview(agreement, table, reading, second),
        time,
        parties,
        early,
        cost,
    )
}

// The version: 10,000 times its first number, 100 times its second, and its third.
pub fn givuntha_version() -> u32
    ensures { result ≡ 100 }
{
    100
}
