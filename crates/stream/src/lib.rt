// The input, read piece by piece and cut into records, and what is written.
#![tactic(auto)]

ghost use Rattle.std.specs.Prelude.{◌≡◌, ◌-◌, ◌<◌, ◌≤◌, length, take, OnOk};
ghost use Rattle.std.specs.Io.KnownBytes.{Appends};
ghost use Rattle.csl.specs.Bytes.{part};
ghost use Rattle.stream.specs.Records.{size_of};
ghost use Rattle.stream.specs.Next.{next_of};
ghost use Rattle.stream.specs.declared.Next.TheVariants.{Wait};

pub mod hand;

pub use hand::Hand;
use octets::unsigned16;
use std::io;
use std::io::Write;

// What is next: a record of so many bytes, or more input is needed, or the input has ended after a whole record.
#[derive(Clone, Copy, Debug, PartialEq, Eq)]
pub enum Next {
    Record(usize),
    Wait,
    End,
}

// What is next in s, of an input that has ended there or has not.
pub fn next_record(s: &[u8], ended: bool) -> Next
    ensures next { result ≡ next_of s.now ended }
    ensures waits { result ≡ Wait → length s.now < 65_535 }
{
    let size = record_size(s);
    if size <= s.len() {
        Next::Record(size)
    } else if !ended {
        Next::Wait
    } else if s.is_empty() {
        Next::End
    } else {
        Next::Record(s.len())
    }
}

// What the first record's length field says; the field itself has two bytes.
fn record_size(s: &[u8]) -> usize
    ensures size { result ≡ size_of s.now }
    ensures bound { result < 65_536 }
{
    unsigned16(s, 0).max(2)
}

// Moves the bytes from `from` up to `to` to the front, and answers how many they are.
pub fn keep(buf: &mut [u8], from: usize, to: usize) -> usize
    requires { (from ≤ to) × (to ≤ length buf.old) }
    ensures size { result ≡ to - from }
    ensures bytes { take result buf.new ≡ part buf.old from to }
{
    if from > 0 {
        buf.copy_within(from..to, 0);
    }
    to - from
}

// Writes all of the bytes.
pub fn emit<W: Write>(output: &mut W, bytes: &[u8]) -> io::Result<()>
    ensures { OnOk result (Appends (W.contents output.old) (W.contents output.new) bytes.now) }
{
    output.write_all(bytes)
}
