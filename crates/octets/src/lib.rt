// Integers and records read out of bytes.
#![tactic(auto)]

ghost use Rattle.std.specs.Prelude.{◌≡◌, ◌+◌, ◌≤◌, ◌<◌, min, length};
ghost use Rattle.csl.specs.Bytes as bytes;
ghost use Rattle.csl.specs.Bytes.{le16, le32, is_record, kind_number, record_end};

// The byte at i, or 0 where there is none. What is read out of bytes is a usize, as places and lengths are.
pub fn byte(s: &[u8], i: usize) -> usize
    ensures { (result ≡ bytes.byte s.now i) × (result < 256) }
{
    usize::from(s.get(i).copied().unwrap_or(0))
}

// A byte that is not there reads as 0, where `from_le_bytes` wants them all.
pub fn unsigned16(s: &[u8], i: usize) -> usize
    ensures { (result ≡ le16 s.now i) × (result < 65_536) }
{
    if i < s.len() {
        byte(s, i) + 256 * byte(s, i + 1)
    } else {
        0
    }
}

pub fn unsigned32(s: &[u8], i: usize) -> usize
    ensures { (result ≡ le32 s.now i) × (result < 4_294_967_296) }
{
    if i < s.len() {
        unsigned16(s, i) + 65_536 * unsigned16(s, i + 2)
    } else {
        0
    }
}

// Two's complement.
pub fn signed32(s: &[u8], i: usize) -> i64
    ensures { result ≡ bytes.signed32 s.now i }
{
    let v = unsigned32(s, i) as u32;
    i64::from(v.cast_signed())
}

// Where the record at a ends: as its length says, and not beyond s.
pub fn record_end(s: &[u8], a: usize) -> usize
    ensures { (result ≡ record_end s.now a) × (result ≤ length s.now) × (min a (length s.now) ≤ result) }
{
    if a >= s.len() {
        return s.len();
    }
    (a + unsigned16(s, a)).min(s.len())
}

// The bytes are one whole record.
pub fn is_record(s: &[u8]) -> bool
    ensures { result ≡ is_record s.now }
{
    4 <= s.len() && unsigned16(s, 0) == s.len()
}

pub fn kind(s: &[u8]) -> usize
    ensures { result ≡ kind_number s.now }
{
    unsigned16(s, 2)
}
