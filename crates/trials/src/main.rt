// Runs the calls on standard input through the four entries, and writes a line for each: its number and what came
// back. Standard input is a list of steps, a byte each and what follows it (integers little-endian):
// 1, an agreement, and 2, a reading: length (2 bytes) and bytes; 3, a table of zeros: length (2 bytes);
// 4, a cell of it: place (2 bytes) and value (8 bytes); 5 to 8, a call of check, start, reading or preview on what was
// given last; 9, the table given last is a preview's second one from here on; 10, or any other byte, a name:
// length (2 bytes) and bytes. It takes the reading's place until the next.
// What the input cuts short is empty. There is no heap, so that memory cannot run out.
#![tactic(auto)]

mod given;
mod lines;

use given::Given;
use lines::Lines;
use std::io;
use std::io::{Read, Write};

// What a byte of the input asks for.
#[derive(Clone, Copy, Debug, PartialEq, Eq)]
enum Step {
    Agreement,
    Reading,
    Table,
    Cell,
    Call(Entry),
    Second,
    Name,
}

#[derive(Clone, Copy, Debug, PartialEq, Eq)]
enum Entry {
    Check,
    Start,
    Reading,
    Preview,
}

impl From<u8> for Step {
    fn from(byte: u8) -> Step {
        match byte {
            1 => Step::Agreement,
            2 => Step::Reading,
            3 => Step::Table,
            4 => Step::Cell,
            5 => Step::Call(Entry::Check),
            6 => Step::Call(Entry::Start),
            7 => Step::Call(Entry::Reading),
            8 => Step::Call(Entry::Preview),
            9 => Step::Second,
            _ => Step::Name,
        }
    }
}

// A step: what it gives is kept, and what it asks for is written. What has no room is dropped.
fn take<R: Read, W: Write>(step: Step, given: &mut Given, input: &mut R, lines: &mut Lines<W>) {
    match step {
        Step::Agreement => given.take_agreement(input),
        Step::Reading => given.take_reading(input),
        Step::Table => given.take_table(input),
        Step::Cell => given.take_cell(input),
        Step::Call(entry) => {
            let _fits = lines.put_call(entry, given);
        }
        Step::Second => given.take_second(),
        Step::Name => {
            given.take_reading(input);
            let _fits = lines.put_name(given.reading.as_slice());
            given.reading.clear();
        }
    }
}

// All steps, up to the end of the input. A proved loop has to end, and nothing says that the input does.
fn run<R: Read, W: Write + Drop>(input: &mut R, output: W) {
    let mut given = Given::new();
    let mut lines = Lines::new(output);
    let mut byte = [0u8; 1];
    for _ in 0..u64::MAX {
        if input.read_exact(&mut byte).is_err() {
            break;
        }
        take(Step::from(byte[0]), &mut given, input, &mut lines);
    }
    lines.flush();
}

fn main(rt: HostRuntime) {
    run(&mut rt.reader(), io::writer(&rt));
}
