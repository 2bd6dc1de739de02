// A reading that was read.
ghost use Rattle.std.specs.Prelude.{◌≡◌, ◌≤◌, length};
ghost use Rattle.arith.specs.Near.{latest};

// The most values of a reading.
pub const MOST_VALUES: usize = 4;

// A reading as its bytes say; its type's number is the tag, 0 for a time mark, as the agreement counts them. Its values
// are the first `count` of `cells`. (No `ArrayVec`, which is not `Copy`.)
#[derive(Clone, Copy)]
pub struct Reading {
    pub time: usize,
    pub tag: usize,
    pub cells: [i64; MOST_VALUES],
    pub count: usize,
    ghost soon: { time ≤ latest },
    ghost few: { count ≤ 4 },
    ghost room: { length cells ≡ 4 },
}

impl Reading {
    ghost use Rattle.readings.specs.Values.{values_read};

    pub fn values(&self) -> &[i64]
        ensures value { result.now ≡ values_read self.now }
        ensures fits { length result.now ≤ 4 }
    {
        &self.cells[..self.count]
    }
}
