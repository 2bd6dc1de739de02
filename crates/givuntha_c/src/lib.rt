// The C functions: a slice is a pointer and a length. include/givuntha.h declares and documents them.
#![tactic(auto)]

ghost use Rattle.std.specs.Prelude.{◌≡◌};
ghost use Rattle.csl.specs.Check.{CheckAnswer, check_of};
ghost use Rattle.csl.specs.Entries.{start_of, reading_of};
ghost use Rattle.csl.specs.Preview.{preview_of};
ghost use Rattle.givuntha.specs.Numbers.{StartNumbers, ReadingNumbers, start_numbers, reading_numbers};

#[unsafe(no_mangle)]
pub extern "C" fn givuntha_check(agreement: &[u8], parties: &mut u64) -> u32
    ensures { record { number = result; parties = parties.new } ≡ check_of agreement.now }
{
    givuntha::givuntha_check(agreement, parties)
}

#[unsafe(no_mangle)]
pub extern "C" fn givuntha_start(
    agreement: &[u8],
    table: &mut [i64],
    time: &mut u64,
    parties: &mut u64,
) -> u32
    ensures { record { number = result; time = time.new; parties = parties.new; table = table.new }
        ≡ start_numbers (start_of agreement.now table.old) }
{
    givuntha::givuntha_start(agreement, table, time, parties)
}

#[unsafe(no_mangle)]
pub extern "C" fn givuntha_reading(
    agreement: &[u8],
    table: &mut [i64],
    reading: &[u8],
    time: &mut u64,
    parties: &mut u64,
    early: &mut u64,
    cost: &mut u64,
) -> u32
    ensures { record {
      number = result;
      time = time.new;
      parties = parties.new;
      early = early.new;
      cost = cost.new;
      table = table.new;
    } ≡ reading_numbers (reading_of agreement.now table.old reading.now) }
{
    givuntha::givuntha_reading(agreement, table, reading, time, parties, early, cost)
}

#[unsafe(no_mangle)]
pub extern "C" fn givuntha_preview(
    agreement: &[u8],
    table: &[i64],
    reading: &[u8],
    second: &mut [i64],
    time: &mut u64,
    parties: &mut u64,
    early: &mut u64,
    cost: &mut u64,
) -> u32
    ensures { record {
      number = result;
      time = time.new;
      parties = parties.new;
      early = early.new;
      cost = cost.new;
      table = second.new;
    } ≡ reading_numbers (preview_of agreement.now table.now second.old reading.now) }
{
    givuntha::givuntha_preview(
        agreement, table, reading, second, time, parties, early, cost,
    )
}

// The version: 10,000 times its first number, 100 times its second, and its third.
#[unsafe(no_mangle)]
pub extern "C" fn givuntha_version() -> u32
    ensures { result ≡ 100 }
{
    givuntha::givuntha_version()
}
