// A template of an agreement: its head and its body.
ghost use Rattle.std.specs.Prelude.{◌≡◌, ◌≤◌, ◌<◌, length};
ghost use Rattle.csl.specs.Bytes as bytes;
ghost use Rattle.records.specs.Index.{Lists, template_place, head_at, value_count, declared_bits, Spans, ValueTypes};
ghost use Rattle.records.specs.Index.{body_bytes, DeclaredUnits};

use super::{Agreement, head_size};
use octets::{byte, kind, record_end, unsigned16};
use std::ops::Range;

// Template `number` of the agreement, which has more than so many.
#[derive(Clone, Copy)]
pub struct Template<'a> {
    pub agreement: &'a Agreement<'a>,
    pub number: usize,
    ghost there: { number < bytes.byte agreement.now 10 },
}

impl<'a> Template<'a> {
    // Where it begins.
    pub fn place(&self) -> usize
        ensures { (result ≡ template_place self.now.agreement.now self.now.number) × (result ≤ length self.now.agreement.now) × Lists self.now.agreement.now }
    {
        self.agreement.template_place(self.number)
    }

    // Its head: how many values and party parameters it has, and its declared parties by bit.
    pub fn value_count(&self) -> usize
        ensures is { result ≡ value_count self.now.agreement.now self.now.number }
        ensures many { result ≡ length (head_at self.now.agreement.now self.now.number).values }
        ensures few { (result ≤ 8) × Lists self.now.agreement.now }
    {
        let bytes = self.agreement.bytes();
        byte(bytes, self.place() + 4)
    }

    pub fn value_types(&self) -> &'a [u8]
        ensures { ValueTypes self.now.agreement.now self.now.number result.now × Lists self.now.agreement.now }
    {
        let bytes = self.agreement.bytes();
        let a = self.place() + 5;
        let n = self.value_count();
        &bytes[a..a + n]
    }

    pub fn param_count(&self) -> usize
        ensures { (result ≡ (head_at self.now.agreement.now self.now.number).params) × (result ≤ 4) × Lists self.now.agreement.now }
    {
        let bytes = self.agreement.bytes();
        let n = self.value_count();
        byte(bytes, self.place() + (5 + n))
    }

    pub fn declared_bits(&self) -> usize
        ensures { (result ≡ declared_bits self.now.agreement.now self.now.number) × (result < 65_536) × Lists self.now.agreement.now }
    {
        let bytes = self.agreement.bytes();
        let n = self.value_count();
        unsigned16(bytes, self.place() + (6 + n))
    }

    // The units that it declares, where it is of kind 4.
    pub fn units(&self) -> Option<usize>
        ensures { DeclaredUnits (head_at self.now.agreement.now self.now.number).units result × Lists self.now.agreement.now }
    {
        let bytes = self.agreement.bytes();
        let n = self.value_count();
        if self.agreement.template_kind(self.number) == 4 {
            Some(byte(bytes, self.place() + (8 + n)))
        } else {
            None
        }
    }

    // Where its body stands.
    pub fn body_span(&self) -> Range<usize>
        ensures { Spans self.now.agreement.now self.now.number result.start result.end × Lists self.now.agreement.now }
    {
        let a = self.place();
        let n = self.value_count();
        let bytes = self.agreement.bytes();
        let e = record_end(bytes, a);
        a + head_size(kind(&bytes[a..e]), n)..e
    }

    pub fn body(&self) -> &'a [u8]
        ensures { (result.now ≡ body_bytes self.now.agreement.now self.now.number) × Lists self.now.agreement.now }
    {
        &self.agreement.bytes()[self.body_span()]
    }
}
