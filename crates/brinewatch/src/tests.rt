// The transcript through readers and writers that give and take a byte at a time, or fail in the middle.
ghost use Rattle.std.specs.Prelude.{Some};

use std::io;
use std::io::{ErrorKind, Read, Write};
use std::test::Fail;
use watch::{Failure, watch};

// The agreement of the file stdin and its three readings.
const INPUT: [u8; 103] = *b"\
    \x40\0\x01\0\x64\0\0\0\x02\x01\0\x06\0\x02\0\x01\
    \x01\x2f\0\x11\0\0\x01\x15\0\x24\0\x11\0\x2a\0\x05\
    \0\x23\0\0\x08\0\x20\0\xfa\0\0\0\x08\0\x20\0\
    \0\0\0\0\x08\0\x20\0\x3c\0\0\0\x04\0\x10\0\
    \x0d\0\x40\0\x6e\0\0\0\x01\xf0\0\0\0\
    \x0d\0\x40\0\x69\0\0\0\x01\xfa\0\0\0\
    \x0d\0\x40\0\xa0\0\0\0\x01\xfa\0\0\0\
    ";

const LINES: &str = "0 100 LIVE 160 1\n1 110 LIVE 160 1\n2 105 REFUSED 10\n3 160 DONE\n";

// Gives a byte at a time.
#[derive(Drop)]
struct Drip<'a>(&'a [u8]);

impl Read for Drip<'_> {
    ghost remaining = { λ drip. Some drip.0.now };

    fn read(&mut self, buf: &mut [u8]) -> io::Result<usize> {
        if buf.is_empty() {
            return Ok(0);
        }
        self.0.read(&mut buf[..1])
    }
}

// Fails behind its bytes.
#[derive(Drop)]
struct Broken<'a>(&'a [u8]);

impl Read for Broken<'_> {
    fn read(&mut self, buf: &mut [u8]) -> io::Result<usize> {
        let n = self.0.read(buf)?;
        if n == 0 {
            return Err(io::Error::from(ErrorKind::ConnectionReset));
        }
        Ok(n)
    }
}

// Takes a line, and fails then.
#[derive(Drop)]
struct Full {
    taken: Vec<u8>,
}

impl Write for Full {
    fn write(&mut self, buf: &[u8]) -> io::Result<usize> {
        if !self.taken.is_empty() {
            return Err(io::Error::from(ErrorKind::StorageFull));
        }
        self.taken.write(buf)
    }

    fn flush(&mut self) -> io::Result<()> {
        Ok(())
    }
}

#[test]
fn writes_the_transcript(rt: HostRuntime) -> Result<(), Fail> {
    let mut written = Vec::new(rt.alloc());
    watch(&mut INPUT.as_slice(), &mut written)?;
    assert_eq!(rt; written.as_slice(), LINES.as_bytes());
    Ok(())
}

#[test]
fn takes_a_byte_at_a_time(rt: HostRuntime) -> Result<(), Fail> {
    let mut written = Vec::new(rt.alloc());
    watch(&mut Drip(&INPUT), &mut written)?;
    assert_eq!(rt; written.as_slice(), LINES.as_bytes());
    Ok(())
}

// A failed read is no end of the input: what was cut short is not refused.
#[test]
fn says_that_a_read_failed(rt: HostRuntime) {
    let mut written = Vec::new(rt.alloc());
    let ended = watch(&mut Broken(&INPUT[..70]), &mut written);
    assert!(rt; matches!(ended, Err(Failure::Input(_))));
    assert_eq!(rt; written.as_slice(), &LINES.as_bytes()[..17]);
}

#[test]
fn says_that_a_write_failed(rt: HostRuntime) {
    let mut output = Full {
        taken: Vec::new(rt.alloc()),
    };
    let ended = watch(&mut INPUT.as_slice(), &mut output);
    assert!(rt; matches!(ended, Err(Failure::Output(_))));
    assert_eq!(rt; output.taken.as_slice(), &LINES.as_bytes()[..17]);
}
