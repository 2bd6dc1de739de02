// A line of the program, and a page of lines that are not yet written.
#![tactic(auto)]

ghost use Rattle.std.specs.Prelude.{◌≡◌, List, ℕ};
ghost use Rattle.lines.specs.Put.{put};
ghost use Rattle.lines.specs.Shown.{shown_time, shown_says, shown_line};

pub mod page;

pub use page::Page;

// What has a text that can be put onto a page.
pub trait Put {
    ghost text: { Self → List ℕ };

    fn put_on(&self, page: &mut Page<'_>)
        ensures { page.new ≡ put page.old (text self.now) };
}

// Its number, its time where it has one, and what it says: a verdict, or the number of a refusal. The refusal itself
// as a second type parameter is no plainer: `Put` for it would need one more type in `telling`, since this crate has
// the trait and `monitor` the refusals.
#[derive(Clone, Copy, Debug, PartialEq, Eq)]
pub struct Line<V> {
    pub number: u64,
    pub time: Option<usize>,
    pub says: Result<V, u32>,
}

impl<V: Put> Put for Line<V> {
    ghost text = { shown_line V.text };

    fn put_on(&self, page: &mut Page<'_>) {
        page.put_decimal(self.number);
        page.put_bytes(b" ");
        put_time(self.time, page);
        page.put_bytes(b" ");
        put_says(&self.says, page);
        page.put_bytes(b"\n");
    }
}

// A time as a line shows it: `-` where there is none.
fn put_time(time: Option<usize>, page: &mut Page<'_>)
    ensures { page.new ≡ put page.old (shown_time time) }
{
    match time {
        Some(time) => page.put_decimal(time as u64),
        None => page.put_bytes(b"-"),
    }
}

fn put_says<V: Put>(says: &Result<V, u32>, page: &mut Page<'_>)
    ensures { page.new ≡ put page.old (shown_says V.text says.now) }
{
    match *says {
        Ok(ref verdict) => verdict.put_on(page),
        Err(refusal) => page.put_refusal(refusal),
    }
}
