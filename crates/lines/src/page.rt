// The lines that are put and not yet written, in a lent buffer.
ghost use Rattle.std.specs.Prelude.{◌≡◌, ◌+◌, ◌≤◌, [], ◌∷◌, ◌++◌, length};
ghost use Rattle.lines.specs.Text.{decimal, digits_room, refused, space};
ghost use Rattle.lines.specs.Put.{put};

use std::marker::Model;

// Texts are put without Display and `write!`, whose contracts promise the text on Ok alone, and not that it is Ok. (A
// buffer and how much of it is used: an ArrayVec would have one size, and any buffer may be lent.)
#[derive(Drop)]
pub struct Page<'a> {
    buffer: &'a mut [u8],
    used: usize,
}

impl<'a> Model for Page<'a> {
    ghost use Rattle.std.specs.Prelude.{◌≤◌, length};
    ghost use Rattle.lines.specs.Put.{OnPage, on_page};

    ghost Value = { OnPage };

    ghost view = { λ page. on_page page.used page.buffer.now };

    ghost invariant = { λ page. page.used ≤ length page.buffer.now };
}

impl<'a> Page<'a> {
    pub fn new(buffer: &'a mut [u8]) -> Self
        ensures empty { result.text ≡ [] }
        ensures capacity { result.capacity ≡ length buffer.old }
    {
        Page { buffer, used: 0 }
    }

    pub fn as_bytes(&self) -> &[u8]
        ensures { result.now ≡ self.now.text }
    {
        &self.buffer[..self.used]
    }

    // How many more bytes it takes.
    pub fn room(&self) -> usize
        ensures { result + length self.now.text ≡ self.now.capacity }
    {
        self.buffer.len() - self.used
    }

    pub fn clear(&mut self)
        ensures empty { self.new.text ≡ [] }
        ensures capacity { self.new.capacity ≡ self.old.capacity }
    {
        self.used = 0;
    }

    // Puts a text, as far as it has room.
    pub fn put_bytes(&mut self, text: &[u8])
        ensures { self.new ≡ put self.old text.now }
    {
        let n = self.room().min(text.len());
        let end = self.used + n;
        self.buffer[self.used..end].copy_from_slice(&text[..n]);
        self.used = end;
    }

    // Puts a number in decimal.
    pub fn put_decimal(&mut self, n: u64)
        ensures puts { self.new ≡ put self.old (decimal n) }
        ensures room { length self.new.text ≤ length self.old.text + digits_room }
    {
        let mut digits = itoa::Buffer::new();
        self.put_bytes(digits.format(n).as_bytes());
    }

    // Puts a space and a number.
    pub fn put_next(&mut self, n: u64)
        ensures puts { self.new ≡ put self.old (space ∷ decimal n) }
        ensures room { length self.new.text ≤ length self.old.text + 1 + digits_room }
    {
        self.put_bytes(b" ");
        self.put_decimal(n);
    }

    // Puts the word and the number of a refusal.
    pub fn put_refusal(&mut self, number: u32)
        ensures puts { self.new ≡ put self.old (refused ++ (space ∷ decimal number)) }
        ensures room { length self.new.text ≤ length self.old.text + 8 + digits_room }
    {
        self.put_bytes(b"REFUSED");
        self.put_next(u64::from(number));
    }
}
