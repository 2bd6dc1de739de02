// The parts of an agreement: where its records stand, and what the heads of its templates say.
#![tactic(auto)]

mod template;
pub mod values;

ghost use Rattle.std.specs.Prelude.{◌≡◌, true, false, cond, ◌&&◌, ℕ, ◌+◌, ◌≤◌, ◌<◌, min, eqb, length};
ghost use Rattle.std.specs.Prelude.{MatchOption, ◌⊎◌, ◌-◌};
ghost use Rattle.std.specs.Fn.{FnReturnsAt};
ghost use Rattle.csl.specs.Lists.{all};
ghost use Rattle.csl.specs.Bytes as bytes;
ghost use Rattle.csl.specs.Bytes.{kind_number, le32, record_end};
ghost use Rattle.csl.specs.Decode as decode;
ghost use Rattle.csl.specs.Decode.{wait_end, main_place, between, is_type, reading_type_ok, template_ok, counts_ok};
ghost use Rattle.csl.specs.Decode.{units_declared, few_units, all_of_kind, one_kind, listed};
ghost use Rattle.records.specs.Index.{Lists, reading_place, template_place, ReadingTypes, main_bytes, first_clause};
ghost use Rattle.records.specs.Index.{Placed, SomeFails, piece_at};

use octets::{byte, is_record, kind, record_end, unsigned16, unsigned32};
use std::marker::Model;
pub use template::Template;

// The byte place of an agreement's start time.
pub const START_AT: usize = 4;

// The byte places of its numbers of parties, of reading types and of templates.
const PARTIES_AT: usize = 8;

const READINGS_AT: usize = 9;

const TEMPLATES_AT: usize = 10;

// The most bytes, parties, reading types and templates of an agreement.
const MOST_BYTES: usize = 16_384;

const MOST_PARTIES: usize = 16;

const MOST_READINGS: usize = 16;

pub const MOST_TEMPLATES: usize = 32;

// The most units that a template declares.
const MOST_DECLARED: usize = 128;

// 'Records nest at most 24 deep, the agreement being depth 1': so deep may the main clause be, and a template's body.
pub const MAIN_DEPTH: usize = 23;

pub const BODY_DEPTH: usize = 22;

// The most values in sight.
pub const IN_SIGHT: usize = 16;

// Where the first reading type begins.
const READINGS_FROM: usize = 11;

// Where `within` ends, the wanted reading type standing at i.
pub fn wait_end(s: &[u8], i: usize) -> usize
    requires { i ≤ 5 }
    ensures { (result ≡ wait_end s.now i) × (result ≤ length s.now) × (min (i + 1) (length s.now) ≤ result) }
{
    let a = record_end(s, i + 1);
    let b = record_end(s, a);
    record_end(s, b)
}

// Where the first clause part of a clause of kind 17 to 21 begins. (A record's kind is decided by its number: a rule of
// the project. That the record is whole is asked by itself: a type for it would be made anew at each step of a walk.)
pub fn first_clause(s: &[u8], kind: usize) -> usize
    requires { 4 ≤ length s.now }
    ensures { (result ≡ first_clause kind s.now) × (result ≤ length s.now) × (4 ≤ result) }
{
    match kind {
        17 => wait_end(s, 5),
        18 => wait_end(s, 4),
        19 => record_end(s, 4),
        _ => 4,
    }
}

// Where the two clauses within a clause of kind 18 to 21 begin.
pub fn sides_at(s: &[u8], kind: usize) -> (usize, usize)
    requires { 4 ≤ length s.now }
    ensures first { (result.0 ≡ first_clause kind s.now) × (4 ≤ result.0) × (result.0 ≤ result.1) }
    ensures second { (result.1 ≡ record_end s.now result.0) × (result.1 ≤ length s.now) }
{
    let first = first_clause(s, kind);
    (first, record_end(s, first))
}

// An agreement whose counts, reading types and templates' heads are as listed, with the places where its reading types,
// its templates and its main clause begin. Clauses see its bytes. (Each method ensures `Lists` too: callers know the
// value alone, and learn of the invariant what a clause says. Places and not slices: a table names clauses by place.)
#[derive(Drop)]
pub struct Agreement<'a> {
    bytes: &'a [u8],
    readings: [usize; MOST_READINGS],
    templates: [usize; MOST_TEMPLATES],
    main: usize,
}

impl<'a> Model for Agreement<'a> {
    ghost use Rattle.std.specs.Prelude.{List, ℕ};

    ghost Value = { List ℕ };

    ghost use Rattle.records.specs.Index.{Indexed};

    ghost view = { λ a. a.bytes.now };

    ghost invariant = { λ a. Indexed a.readings a.templates a.main a.bytes.now };
}

impl<'a> Agreement<'a> {
    // None where the kind, the counts, a reading type or a template's head is not as listed.
    pub fn read(bytes: &'a [u8]) -> Option<Agreement<'a>>
        ensures { MatchOption result (listed bytes.now ≡ false) (λ a. (a ≡ bytes.now) × (listed bytes.now ≡ true) × Lists bytes.now) }
    {
        // with fewer bytes there is no place for a reading type
        if bytes.len() < READINGS_FROM || !counts_ok(bytes) {
            return None;
        }
        let mut readings = [0; MOST_READINGS];
        let mut templates = [0; MOST_TEMPLATES];
        let n = byte(bytes, READINGS_AT);
        let m = byte(bytes, TEMPLATES_AT);
        let first = place_records(bytes, &mut readings[..n], READINGS_FROM, reading_ok)?;
        let main = place_records(bytes, &mut templates[..m], first, template_ok)?;
        let agreement = Agreement {
            bytes,
            readings,
            templates,
            main,
        };
        if agreement.one_kind() {
            Some(agreement)
        } else {
            None
        }
    }

    pub fn bytes(&self) -> &'a [u8]
        ensures { (result.now ≡ self.now) × Lists self.now }
    {
        self.bytes
    }

    pub fn start(&self) -> usize
        ensures { (result ≡ le32 self.now 4) × (result < 4_294_967_296) × Lists self.now }
    {
        unsigned32(self.bytes, START_AT)
    }

    pub fn parties(&self) -> usize
        ensures { (result ≡ bytes.byte self.now 8) × (result ≤ 16) × Lists self.now }
    {
        byte(self.bytes, PARTIES_AT)
    }

    pub fn reading_count(&self) -> usize
        ensures { (result ≡ bytes.byte self.now 9) × (result ≤ 16) × Lists self.now }
    {
        byte(self.bytes, READINGS_AT)
    }

    pub fn template_count(&self) -> usize
        ensures { (result ≡ bytes.byte self.now 10) × (result ≤ 32) × Lists self.now }
    {
        byte(self.bytes, TEMPLATES_AT)
    }

    // Where reading type k + 1, template k and the main clause begin. (Through a reference to the places: an index into
    // the field asks, before the invariant is known, that the place's offset in it fits.)
    pub fn reading_place(&self, k: usize) -> usize
        requires { k < bytes.byte self.now 9 }
        ensures { (result ≡ reading_place self.now k) × (result ≤ length self.now) × Lists self.now }
    {
        let places = &self.readings;
        places[k]
    }

    pub fn template_place(&self, k: usize) -> usize
        requires { k < bytes.byte self.now 10 }
        ensures { (result ≡ template_place self.now k) × (result ≤ length self.now) × Lists self.now }
    {
        let places = &self.templates;
        places[k]
    }

    // The kind of template k, and whether all are of one, 3 or 4.
    fn template_kind(&self, k: usize) -> usize
        requires { k < bytes.byte self.now 10 }
        ensures { (result ≡ kind_number (piece_at self.now (template_place self.now k))) × Lists self.now }
    {
        let a = self.template_place(k);
        let e = record_end(self.bytes, a);
        kind(&self.bytes[a..e])
    }

    fn all_of_kind(&self, wanted: usize) -> bool
        ensures { (result ≡ all_of_kind wanted self.now) × Lists self.now }
    {
        (0..self.template_count()).all(|k| self.template_kind(k) == wanted)
    }

    fn one_kind(&self) -> bool
        ensures { (result ≡ one_kind self.now) × Lists self.now }
    {
        self.all_of_kind(3) || self.all_of_kind(4)
    }

    pub fn main_place(&self) -> usize
        ensures { (result ≡ main_place self.now) × (result ≤ length self.now) × Lists self.now }
    {
        self.main
    }

    // The types of the values of reading type k + 1.
    pub fn reading_types(&self, k: usize) -> &'a [u8]
        requires { k < bytes.byte self.now 9 }
        ensures { ReadingTypes self.now k result.now × Lists self.now }
    {
        let a = self.reading_place(k);
        let e = record_end(self.bytes, a);
        &self.bytes[a + 5..e]
    }

    // The same of the reading type that a clause or a reading names by its tag: `reading types [count] from 1`.
    pub fn types_wanted(&self, tag: usize) -> Option<&'a [u8]>
        ensures { MatchOption result ((tag ≡ 0) ⊎ (bytes.byte self.now 9 < tag)) (λ types. (0 < tag) × ReadingTypes self.now (tag - 1) types.now) }
    {
        if 0 < tag && tag <= self.reading_count() {
            Some(self.reading_types(tag - 1))
        } else {
            None
        }
    }

    pub fn main(&self) -> &'a [u8]
        ensures { (result.now ≡ main_bytes self.now) × Lists self.now }
    {
        &self.bytes[self.main_place()..]
    }
}

// A template's head has so many bytes, with n values; its body stands behind it. One of kind 4 declares its units last.
fn head_size(kind: usize, n: usize) -> usize
    requires { n ≤ 8 }
    ensures { result ≡ 8 + n + cond (eqb kind 4) 1 0 }
{
    let units_at = 8 + n;
    if kind == 4 { units_at + 1 } else { units_at }
}

fn between(low: usize, high: usize, n: usize) -> bool
    ensures { result ≡ between low high n }
{
    (low..=high).contains(&n)
}

// The bytes are one record, of at most 16,384 bytes: what refusal 1 asks.
pub fn length_ok(agreement: &[u8]) -> bool
    ensures { result ≡ decode.length_ok agreement.now }
{
    between(4, MOST_BYTES, agreement.len()) && unsigned16(agreement, 0) == agreement.len()
}

fn types_ok(types: &[u8]) -> bool
    ensures { result ≡ all is_type types.now }
{
    types.iter().all(|&t| values::is_type(t))
}

fn reading_ok(piece: &[u8]) -> bool
    ensures { result ≡ reading_type_ok piece.now }
{
    let n = byte(piece, 4);
    is_record(piece) && kind(piece) == 2 && n <= 4 && piece.len() == 5 + n && types_ok(&piece[5..])
}

fn template_ok(piece: &[u8]) -> bool
    ensures { result ≡ template_ok piece.now }
{
    let n = byte(piece, 4);
    is_record(piece)
        && n <= 8
        && head_size(kind(piece), n) <= piece.len()
        && types_ok(&piece[5..5 + n])
        && byte(piece, 5 + n) <= 4
        && few_units(piece)
}

fn few_units(piece: &[u8]) -> bool
    ensures { result ≡ few_units (units_declared piece.now) }
{
    kind(piece) != 4 || byte(piece, 8 + byte(piece, 4)) <= MOST_DECLARED
}

// Stores where each of the records that begin at `from` begins, one for each place, and gives where the last one ends.
// None where one of them fails the test. (The places are lent: to push them to a list would take their number too, and
// a loop by it.)
fn place_records<F: Fn(&[u8]) -> bool>(
    bytes: &[u8],
    places: &mut [usize],
    from: usize,
    test: F,
) -> Option<usize>
    requires always { F.IsAlwaysCallable test }
    requires begins { from ≤ length bytes.now }
    ensures room { length places.new ≡ length places.old }
    ensures answer { MatchOption result (SomeFails (FnReturnsAt F.Fn test) (length places.old) bytes.now from)
        (Placed (FnReturnsAt F.Fn test) bytes.now from places.new) }
{
    let mut a = from;
    for place in places.iter_mut() {
        let e = record_end(bytes, a);
        if !test(&bytes[a..e]) {
            return None;
        }
        *place = a;
        a = e;
    }
    Some(a)
}

// The kind and the three counts are as listed.
fn counts_ok(agreement: &[u8]) -> bool
    ensures { result ≡ (eqb (kind_number agreement.now) 1 && counts_ok agreement.now) }
{
    kind(agreement) == 1
        && between(1, MOST_PARTIES, byte(agreement, PARTIES_AT))
        && between(1, MOST_READINGS, byte(agreement, READINGS_AT))
        && byte(agreement, TEMPLATES_AT) <= MOST_TEMPLATES
}
