// What the input gave last.
use arrayvec::ArrayVec;
use std::io::Read;
use std::iter::repeat_n;

// No length of two bytes is more.
const MOST: usize = 65_535;

// More cells than a table has.
const MOST_CELLS: usize = 4096;

// No call is made on a table of so many cells, and of a longer one no more are kept.
const TOO_MANY: usize = MOST_CELLS + 1;

#[derive(Drop)]
pub struct Given {
    pub agreement: ArrayVec<u8, MOST>,
    pub reading: ArrayVec<u8, MOST>,
    pub table: ArrayVec<i64, TOO_MANY>,
    pub second: ArrayVec<i64, TOO_MANY>,
}

impl Given {
    pub fn new() -> Self {
        Given {
            agreement: ArrayVec::new(),
            reading: ArrayVec::new(),
            table: ArrayVec::new(),
            second: ArrayVec::new(),
        }
    }

    pub fn take_agreement<R: Read>(&mut self, input: &mut R) {
        take_bytes(input, &mut self.agreement);
    }

    pub fn take_reading<R: Read>(&mut self, input: &mut R) {
        take_bytes(input, &mut self.reading);
    }

    pub fn take_table<R: Read>(&mut self, input: &mut R) {
        let length = usize::from(two_bytes(input)).min(TOO_MANY);
        self.table.clear();
        let _fits = self.table.extend(repeat_n(0i64, length));
    }

    pub fn take_cell<R: Read>(&mut self, input: &mut R) {
        let place = usize::from(two_bytes(input));
        let mut value = [0u8; 8];
        if input.read_exact(&mut value).is_err() {
            return;
        }
        if let Some(cell) = self.table.get_mut(place) {
            *cell = i64::from_le_bytes(value);
        }
    }

    pub fn take_second(&mut self) {
        self.second.clear();
        let _fits = self.second.try_extend_from_slice(self.table.as_slice());
    }

    // Whether neither table has more cells than a call is made on.
    pub fn fits(&self) -> bool {
        self.table.len() <= MOST_CELLS && self.second.len() <= MOST_CELLS
    }
}

fn two_bytes<R: Read>(input: &mut R) -> u16 {
    let mut bytes = [0u8; 2];
    match input.read_exact(&mut bytes) {
        Ok(()) => u16::from_le_bytes(bytes),
        Err(_) => 0,
    }
}

// A length and so many bytes: none where the input has fewer.
fn take_bytes<R: Read>(input: &mut R, bytes: &mut ArrayVec<u8, MOST>) {
    let length = usize::from(two_bytes(input));
    bytes.clear();
    let _fits = bytes.extend(repeat_n(0u8, length));
    if input.read_exact(bytes.as_mut_slice()).is_err() {
        bytes.clear();
    }
}
