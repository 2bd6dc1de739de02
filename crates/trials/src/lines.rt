// The lines that are not yet written, and what they say.
use crate::Entry;
use crate::given::Given;
use arrayvec::ArrayVec;
use monitor::{BreachAhead, Refusal, Refused, Taken};
use std::io;
use std::io::Write;

const ROOM: usize = 65_536;

// From here on they are written before more is put: any part of a line but a name has room behind it.
const NEARLY_FULL: usize = 65_000;

#[derive(Drop)]
pub struct Lines<W> {
    text: ArrayVec<u8, ROOM>,
    output: W,
}

// A refusal's number, or 0.
fn number_of<T: Copy>(answer: &Result<T, Refusal>) -> u32 {
    match *answer {
        Ok(_) => 0,
        Err(why) => u32::from(why),
    }
}

impl<W: Write> Lines<W> {
    pub fn new(output: W) -> Self {
        Lines {
            text: ArrayVec::new(),
            output,
        }
    }

    // Writes them; an output that fails takes none.
    pub fn flush(&mut self) {
        let _written = self.output.write_all(self.text.as_slice());
        self.text.clear();
    }

    fn make_room(&mut self) {
        if NEARLY_FULL <= self.text.len() {
            self.flush();
        }
    }

    // The name of the calls that follow, as far as it has room.
    pub fn put_name(&mut self, name: &[u8]) -> io::Result<()> {
        self.make_room();
        self.text.write_all(b"# ")?;
        self.text.write_all(name)?;
        self.text.write_all(b"\n")
    }

    // A call's line. With too many cells in a table nothing is called, and it is empty.
    pub fn put_call(&mut self, entry: Entry, given: &mut Given) -> io::Result<()> {
        self.make_room();
        if given.fits() {
            let agreement = given.agreement.as_slice();
            let table = given.table.as_mut_slice();
            let reading = given.reading.as_slice();
            match entry {
                Entry::Check => self.put_check(agreement)?,
                Entry::Start => self.put_start(agreement, table)?,
                Entry::Reading => self.put_reading(agreement, table, reading)?,
                Entry::Preview => {
                    self.put_preview(agreement, table, reading, given.second.as_mut_slice())?
                }
            }
        }
        self.text.write_all(b"\n")
    }

    // The number, and the main clause's parties by bit.
    fn put_check(&mut self, agreement: &[u8]) -> io::Result<()> {
        let checked = monitor::check(agreement);
        let number = number_of(&checked);
        let parties = checked.unwrap_or(0);
        write!(self.text, "check {number} {parties}")
    }

    // The number, the forecast, and the cells.
    fn put_start(&mut self, agreement: &[u8], table: &mut [i64]) -> io::Result<()> {
        let started = monitor::start(agreement, table);
        let number = number_of(&started);
        write!(self.text, "start {number}")?;
        self.put_ahead(started.unwrap_or(None))?;
        self.put_cells(table)
    }

    // What a reading answers, and the cells.
    fn put_reading(
        &mut self,
        agreement: &[u8],
        table: &mut [i64],
        reading: &[u8],
    ) -> io::Result<()> {
        let taken = monitor::reading(agreement, table, reading);
        self.text.write_all(b"reading")?;
        self.put_taken(taken)?;
        self.put_cells(table)
    }

    // What a preview answers, and the second table's cells.
    fn put_preview(
        &mut self,
        agreement: &[u8],
        table: &[i64],
        reading: &[u8],
        second: &mut [i64],
    ) -> io::Result<()> {
        let taken = monitor::preview(agreement, table, reading, second);
        self.text.write_all(b"preview")?;
        self.put_taken(taken)?;
        self.put_cells(second)
    }

    // The number, the forecast, the mark `early` and the cost.
    fn put_taken(&mut self, taken: Result<Taken, Refused>) -> io::Result<()> {
        match taken {
            Ok(Taken { early, cost, ahead }) => {
                let early = u8::from(early);
                self.text.write_all(b" 0")?;
                self.put_ahead(ahead)?;
                write!(self.text, " {early} {cost}")
            }
            Err(Refused { why, cost }) => {
                let number = u32::from(why);
                write!(self.text, " {number}")?;
                self.put_ahead(None)?;
                write!(self.text, " 0 {cost}")
            }
        }
    }

    // The time of the breach ahead and its parties by bit, or zeros where there is none.
    fn put_ahead(&mut self, ahead: Option<BreachAhead>) -> io::Result<()> {
        match ahead {
            Some(BreachAhead { time, parties }) => write!(self.text, " {time} {parties}"),
            None => self.text.write_all(b" 0 0"),
        }
    }

    // The cells that are not zero, each with its place. A negative number stands as `~` and its complement: -1 is `~0`.
    fn put_cells(&mut self, table: &[i64]) -> io::Result<()> {
        for (place, cell) in table.iter().enumerate() {
            self.put_cell(place, *cell)?;
        }
        Ok(())
    }

    fn put_cell(&mut self, place: usize, cell: i64) -> io::Result<()> {
        if cell == 0 {
            return Ok(());
        }
        self.make_room();
        if cell < 0 {
            let complement = !cell;
            return write!(self.text, " {place}=~{complement}");
        }
        write!(self.text, " {place}={cell}")
    }
}
