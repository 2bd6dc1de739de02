// The bytes at hand: those that were read and not yet taken, and whether the input has ended behind them.
ghost use Rattle.std.specs.Prelude.{◌≡◌, ◌≤◌, ◌<◌, [], false, length, drop, OnOk, OnErr};
ghost use Rattle.std.specs.Io.KnownBytes.{Keeps};
ghost use Rattle.stream.specs.Next.{next_of};
ghost use Rattle.stream.specs.Hands.{Brings};
ghost use Rattle.stream.specs.declared.Next.TheVariants.{Wait};

use super::{Next, keep, next_record};
use std::io;
use std::io::Read;
use std::marker::Model;

// They stand in a lent buffer from `from` up to `to`: a read wants the buffer itself. Whether the input has ended is a
// fact beside them, and no case.
#[derive(Drop)]
pub struct Hand<'a> {
    buffer: &'a mut [u8],
    from: usize,
    to: usize,
    ended: bool,
}

impl<'a> Model for Hand<'a> {
    ghost use Rattle.std.specs.Prelude.{◌≤◌, length};
    ghost use Rattle.csl.specs.Bytes.{part};
    ghost use Rattle.stream.specs.Hands.{AtHand};

    ghost Value = { AtHand };

    ghost view = { λ hand. record {
      bytes = part hand.buffer.now hand.from hand.to;
      ended = hand.ended;
      capacity = length hand.buffer.now;
    } };

    ghost invariant = { λ hand. (hand.from ≤ hand.to) × (hand.to ≤ length hand.buffer.now) };
}

impl<'a> Hand<'a> {
    pub fn new(buffer: &'a mut [u8]) -> Self
        ensures empty { result.bytes ≡ [] }
        ensures open { result.ended ≡ false }
        ensures capacity { result.capacity ≡ length buffer.old }
    {
        Hand {
            buffer,
            from: 0,
            to: 0,
            ended: false,
        }
    }

    pub fn bytes(&self) -> &[u8]
        ensures bytes { result.now ≡ self.now.bytes }
        ensures bound { length result.now ≤ self.now.capacity }
    {
        &self.buffer[self.from..self.to]
    }

    // What is next in the input.
    pub fn next(&self) -> Next
        ensures next { result ≡ next_of self.now.bytes self.now.ended }
        ensures waits { result ≡ Wait → length self.now.bytes < 65_535 }
    {
        next_record(self.bytes(), self.ended)
    }

    // Takes the first n bytes.
    pub fn take(&mut self, n: usize)
        requires { n ≤ length self.old.bytes }
        ensures bytes { self.new.bytes ≡ drop n self.old.bytes }
        ensures ended { self.new.ended ≡ self.old.ended }
        ensures capacity { self.new.capacity ≡ self.old.capacity }
    {
        self.from += n;
    }

    // Waits for more input: one read, for as many bytes as are there and fit.
    pub fn wait<R: Read>(&mut self, input: &mut R) -> io::Result<()>
        requires { length self.old.bytes < self.old.capacity }
        ensures brings { OnOk result (Brings self.old.bytes self.new (R.remaining input.old) (R.remaining input.new)) }
        ensures bound { OnOk result (length self.new.bytes ≤ self.new.capacity) }
        ensures capacity { self.new.capacity ≡ self.old.capacity }
        ensures fails { OnErr result (Keeps (R.remaining input.old) (R.remaining input.new)) }
        ensures kept { OnErr result (self.new ≡ self.old) }
    {
        self.to = keep(self.buffer, self.from, self.to);
        self.from = 0;
        let came = input.read(&mut self.buffer[self.to..])?;
        self.to += came;
        self.ended = came == 0;
        Ok(())
    }
}
