// The program: the agreement, then readings, from an input; a line for each to an output, written before more input is
// waited for.
#![tactic(auto)]

ghost use Rattle.std.specs.Prelude.{◌≡◌, [], ◌++◌, ◌+◌, ◌^◌, ◌≤◌, ◌<◌, length, take, false, IfOk, OnOk, IfSome};
ghost use Rattle.std.specs.Io.KnownBytes.{Appends};
ghost use Rattle.stream.specs.Records.{records_of};
ghost use Rattle.lines.specs.Lines.{reading_lines, lines_of};
ghost use Rattle.telling.specs.Told.{line_room};
ghost use Rattle.watch.specs.Watched.{watched, zeros};
ghost use Rattle.watch.specs.Steps.{Starts, Turns, Takes};
ghost use Rattle.watch.specs.Runs.{Fresh, Opens, Serves, Writes, written};

use cells::TABLE_CELLS;
use lines::{Page, Put};
use std::io;
use std::io::{Read, Write};
use stream::{Hand, Next, emit};
use telling::{LINE_ROOM, begin, follow, goes_on};
use thiserror::Error;

// The bytes of each buffer: no record is longer, and input that is there is read in large pieces.
const ROOM: usize = 65_536;

// A proved loop has to end, and nothing says that the input does.
const MOST_TURNS: u64 = 140_737_488_355_328;

// Where a run stands: a record may be there, or more input is needed, or it has ended.
#[derive(Clone, Copy, Debug, PartialEq, Eq)]
enum Stage {
    Ready,
    Waiting,
    Over,
}

// A run: the agreement and its table, the bytes at hand, the lines that are not yet written, the next line's number.
// (That no line is put yet, and that its number has room, is asked of each step: within a step neither holds. Input and
// output are lent beside it, and their types are the caller's.)
#[derive(Drop)]
struct Run<'a> {
    agreement: &'a [u8],
    table: [i64; TABLE_CELLS],
    hand: Hand<'a>,
    page: Page<'a>,
    line: u64,
}

impl Run<'_> {
    // Starts the agreement, and puts its line. Whether the run goes on.
    fn start(&mut self) -> bool
        requires { length self.old.page.text + line_room ≤ self.old.page.capacity }
        ensures { Starts self.old self.new result }
    {
        let told = begin(self.agreement, &mut self.table);
        told.put_on(&mut self.page);
        goes_on(&told)
    }

    // The next record of those at hand: its line is put.
    fn step(&mut self) -> Stage
        requires { (length self.old.page.text + line_room ≤ self.old.page.capacity)
            × (self.old.line + length self.old.hand.bytes < 2 ^ 64) }
        ensures turns { Turns self.old self.new result }
        ensures takes { Takes self.old self.new result }
    {
        match self.hand.next() {
            Next::Wait => Stage::Waiting,
            Next::End => Stage::Over,
            Next::Record(size) => {
                let record = &self.hand.bytes()[..size];
                let told = follow(self.agreement, &mut self.table, record, self.line);
                told.put_on(&mut self.page);
                self.hand.take(size);
                self.line += 1;
                if goes_on(&told) {
                    Stage::Ready
                } else {
                    Stage::Over
                }
            }
        }
    }

    // All records that are at hand, as long as the page has room for a line. A `while`: how many they are only their
    // bytes tell, and an iterator of turns would hold the run itself, which is no plainer.
    fn drain(&mut self) -> Stage
        requires { self.old.line + length self.old.hand.bytes < 2 ^ 64 }
        ensures { Turns self.old self.new result }
    {
        while LINE_ROOM <= self.page.room() {
            let stage = self.step();
            if stage != Stage::Ready {
                return stage;
            }
        }
        Stage::Ready
    }

    // ---- what follows reads and writes: where the bytes to come are known, and those that the output holds, the
    // contracts say which come and go

    // Writes the lines that are put.
    fn write<W: Write>(&mut self, output: &mut W) -> Result<(), Failure>
        ensures writes { OnOk result (Appends (W.contents output.old) (W.contents output.new) self.old.page.text) }
        ensures clears { OnOk result (self.new ≡ written self.old) }
    {
        emit(output, self.page.as_bytes()).map_err(Failure::Output)?;
        self.page.clear();
        Ok(())
    }

    // All records at hand, their lines written, and then more input, only if it is needed. Whether the run goes on.
    fn serve<R: Read, W: Write>(&mut self, input: &mut R, output: &mut W) -> Result<bool, Failure>
        requires { Fresh self.old × (self.old.line + length self.old.hand.bytes < 2 ^ 64) }
        ensures fresh { OnOk result (Fresh self.new) }
        ensures numbered { OnOk result (self.new.line ≤ self.old.line + 65_536) }
        ensures serves { IfOk result (Serves self.old self.new
            (R.remaining input.old) (R.remaining input.new) (W.contents output.old) (W.contents output.new)) }
    {
        let stage = self.drain();
        self.write(output)?;
        match stage {
            Stage::Over => Ok(false),
            Stage::Ready => Ok(true),
            Stage::Waiting => {
                self.hand.wait(input).map_err(Failure::Input)?;
                Ok(true)
            }
        }
    }

    // Readings until the run ends.
    fn read_all<R: Read, W: Write>(&mut self, input: &mut R, output: &mut W) -> Result<(), Failure>
        requires { Fresh self.old × (self.old.line ≡ 1) }
        ensures { OnOk result (Writes (R.remaining input.old) self.old.hand.ended (W.contents output.old)
            (W.contents output.new) (λ bytes. reading_lines self.old.agreement.now self.old.table 1
            (records_of (self.old.hand.bytes ++ bytes)))) }
    {
        'turns: for _ in 0..MOST_TURNS {
            if !self.serve(input, output)? {
                return Ok(());
            }
        }
        Err(Failure::TooLong)
    }

    // The agreement's line, then a line for each reading.
    fn go_on<R: Read, W: Write>(&mut self, input: &mut R, output: &mut W) -> Result<(), Failure>
        requires { Fresh self.old × (self.old.line ≡ 1) }
        ensures { OnOk result (Writes (R.remaining input.old) self.old.hand.ended (W.contents output.old)
            (W.contents output.new) (λ bytes. lines_of self.old.agreement.now self.old.table
            (records_of (self.old.hand.bytes ++ bytes)))) }
    {
        let goes = self.start();
        self.write(output)?;
        if !goes {
            return Ok(());
        }
        self.read_all(input, output)
    }
}

// Why a run ended before its input.
#[derive(Clone, Copy, Debug, Error)]
pub enum Failure {
    #[error("standard input: {0}")]
    Input(io::Error),
    #[error("standard output: {0}")]
    Output(io::Error),
    #[error("standard input: more than 2^47 turns")]
    TooLong,
}

// Looks for the first record, and waits for more input as long as it is not whole: how many bytes it takes, none where
// the input has none. Each read brings a byte or the end of the input.
fn first_record<R: Read>(input: &mut R, hand: &mut Hand<'_>) -> Result<usize, Failure>
    requires { (hand.old.bytes ≡ []) × (hand.old.ended ≡ false) × (hand.old.capacity ≡ 65_536) }
    ensures within { IfOk result (λ takes. (takes ≤ length hand.new.bytes) × (length hand.new.bytes ≤ 65_536)
        × (hand.new.capacity ≡ 65_536)) }
    ensures opens { IfOk result (Opens (R.remaining input.old) (R.remaining input.new) hand.new) }
{
    'reads: loop {
        match hand.next() {
            Next::Record(size) => return Ok(size),
            Next::End => return Ok(0),
            Next::Wait => hand.wait(input).map_err(Failure::Input)?,
        }
    }
}

// Reads the agreement and readings from the input, and writes a line for each: where the input's bytes are known, and
// those that the output holds, it writes what is defined for them and nothing else.
pub fn watch<R: Read, W: Write>(input: &mut R, output: &mut W) -> Result<(), Failure>
    ensures { OnOk result (IfSome (R.remaining input.old) (λ bytes.
        Appends (W.contents output.old) (W.contents output.new) (watched bytes))) }
{
    let mut given = [0u8; ROOM];
    let mut agreement = [0u8; ROOM];
    let mut lines = [0u8; ROOM];
    let mut hand = Hand::new(&mut given);
    let takes = first_record(input, &mut hand)?;
    agreement[..takes].copy_from_slice(&hand.bytes()[..takes]);
    hand.take(takes);
    let page = Page::new(&mut lines);
    let mut run = Run {
        agreement: &agreement[..takes],
        table: [0; TABLE_CELLS],
        hand,
        page,
        line: 1,
    };
    run.go_on(input, output)
}
