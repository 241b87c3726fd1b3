// Numbers and rows of them; records of a tag, a two-byte length and a body: their reader, the length rule of each tag, the first judgement.
#![tactic(auto)]

ghost use Rattle.std.specs.Prelude.{ℕ, ◌≡◌, ◌+◌, ◌*◌, ◌^◌, ◌<◌, ◌≤◌, length, get_or, Ok, Err};
ghost use Rattle.records.specs.Number.{number, row_of};
ghost use Rattle.records.specs.Record.{record_at, tag_of};
ghost use Rattle.records.specs.Rule.{rule_of, values_fit, pairs_fit, fits};
ghost use Rattle.records.specs.Judge.{judge_by};

use numbers::FileRefusal;

// A whole record: its body is the len bytes from start; next is past it.
// Places and no slices: definitions and refusals speak of bytes of the file.
#[derive(Clone, Copy, Debug, PartialEq, Eq)]
pub struct Record {
    pub tag: u8,
    pub start: usize,
    pub len: usize,
    pub next: usize,
}

// Where no whole record stands.
#[derive(Clone, Copy, Debug, PartialEq, Eq)]
pub enum Broken {
    // Fewer than 3 bytes.
    Header,
    // A header with this tag whose body runs past the end.
    Body(u8),
}

// The byte at i, 0 past the end.
pub fn byte_at(s: &[u8], i: usize) -> u8
    ensures { result ≡ get_or s.now i 0 }
{
    s.get(i).copied().unwrap_or(0)
}

// The n bytes of s from at, most significant first.
pub fn number_at(s: &[u8], at: usize, n: usize) -> u64
    requires { (n ≤ 8) × (at + n ≤ length s.now) }
    ensures { (result ≡ number s.now at n) × (result < 2 ^ (8 * n)) }
{
    let mut v: u64 = 0;
    for i in 0..n {
        v = v * 256 + u64::from(s[at + i]);
    }
    v
}

// A number of a width of its own.
pub trait Field: Copy {
    ghost width: { ℕ };

    ghost of: { ℕ → Self };

    // The number that stands at a position.
    fn read(s: &[u8], at: usize) -> Self
        requires { at + width ≤ length s.now }
        ensures { result ≡ of (number s.now at width) };
}

impl Field for u8 {
    ghost width = { 1 };

    ghost of = { λ n. n };

    fn read(s: &[u8], at: usize) -> u8 {
        s[at]
    }
}

impl Field for u16 {
    ghost width = { 2 };

    ghost of = { λ n. n };

    fn read(s: &[u8], at: usize) -> u16 {
        // Two bytes fit.
        number_at(s, at, 2) as u16
    }
}

impl Field for u32 {
    ghost width = { 4 };

    ghost of = { λ n. n };

    fn read(s: &[u8], at: usize) -> u32 {
        // Four bytes fit.
        number_at(s, at, 4) as u32
    }
}

impl Field for u64 {
    ghost width = { 8 };

    ghost of = { λ n. n };

    fn read(s: &[u8], at: usize) -> u64 {
        number_at(s, at, 8)
    }
}

// Puts n numbers into l from its place base on, one every step bytes from at on.
pub fn put_row<T: Field>(l: &mut [T], base: usize, n: usize, s: &[u8], at: usize, step: usize)
    requires { (base + n ≤ length l.old) × (at + step * n + T.width ≤ length s.now + step) }
    ensures { l.new ≡ row_of T.of T.width step s.now at base l.old n }
{
    for i in 0..n {
        l[base + i] = T::read(s, at + step * i);
    }
}

// What stands at a position; a header cut comes before a body cut.
fn record_at(s: &[u8], at: usize) -> Result<Record, Broken>
    ensures { result ≡ record_at s.now at }
{
    if s.len() < 3 || s.len() - 3 < at {
        return Err(Broken::Header);
    }
    let tag = s[at];
    let len = usize::from(u16::read(s, at + 1));
    let start = at + 3;
    if s.len() - start < len {
        return Err(Broken::Body(tag));
    }
    Ok(Record {
        tag,
        start,
        len,
        next: start + len,
    })
}

// The reader of records: the file and its own position, in a struct as document 01 asks.
#[derive(Clone, Copy)]
pub struct Reader<'a> {
    pub src: &'a [u8],
    pub at: usize,
}

impl<'a> Reader<'a> {
    // The reader of a file at a position.
    pub fn new(src: &'a [u8], at: usize) -> Reader<'a>
        ensures { (result.src ≡ src.entry) × (result.at ≡ at) }
    {
        Reader { src, at }
    }

    // What stands at the reader's own position.
    pub fn record(self) -> Result<Record, Broken>
        ensures { result ≡ record_at self.entry.src.now self.entry.at }
    {
        record_at(self.src, self.at)
    }
}

// What a reader of s at a position finds there.
pub fn record_from(s: &[u8], at: usize) -> Result<Record, Broken>
    ensures { result ≡ record_at s.now at }
{
    Reader::new(s, at).record()
}

// How long a body must be.
#[derive(Clone, Copy, Debug, PartialEq, Eq)]
enum Rule {
    // No such tag.
    NoTag,
    Exact(u16),
    // First values of keys.
    Values,
    // Key bytes and pairs.
    Pairs,
}

use Rule::{Exact, NoTag, Pairs, Values};

// The length rule of each tag, in a constant table indexed by it as document 01 asks.
const RULES: [Rule; 32] = [
    NoTag,
    Values,
    Exact(9),
    Pairs,
    NoTag,
    NoTag,
    NoTag,
    NoTag,
    NoTag,
    NoTag,
    NoTag,
    NoTag,
    NoTag,
    NoTag,
    NoTag,
    Exact(0),
    Exact(3),
    Exact(1),
    Exact(1),
    Exact(3),
    Exact(2),
    Exact(0),
    NoTag,
    NoTag,
    NoTag,
    NoTag,
    NoTag,
    NoTag,
    NoTag,
    NoTag,
    NoTag,
    NoTag,
];

// The length rule of a tag.
fn length_rule(tag: u8) -> Rule
    ensures { result ≡ rule_of tag }
{
    if tag < 32 {
        RULES[usize::from(tag)]
    } else {
        NoTag
    }
}

// Whether a body of first values may be this long.
fn values_fit(len: usize) -> bool
    ensures { result ≡ values_fit len }
{
    4 <= len && len <= 256 && len % 4 == 0
}

// Whether a body of r key bytes and w pairs is as long as its counts say. Past the end both counts are 0.
fn pairs_fit(s: &[u8], start: usize, len: usize) -> bool
    ensures { result ≡ pairs_fit s.now start len }
{
    if len < 2 {
        return false;
    }
    if s.len() <= start {
        return len == 2;
    }
    let r = usize::from(s[start]);
    if len < 2 + r {
        return false;
    }
    let w = usize::from(byte_at(s, start + 1 + r));
    len == 2 + r + 5 * w
}

// Whether the len bytes from start are as long as a body of this tag must be.
pub fn fits(s: &[u8], tag: u8, start: usize, len: usize) -> bool
    ensures { result ≡ fits s.now tag start len }
{
    match length_rule(tag) {
        NoTag => false,
        Exact(n) => len == usize::from(n),
        Values => values_fit(len),
        Pairs => pairs_fit(s, start, len),
    }
}

// The tag of what stands at a position, 0 where the header is cut.
// 0 is no tag and is allowed nowhere, so an Option would be asked the same.
pub fn tag_of(found: Result<Record, Broken>) -> u8
    ensures { result ≡ tag_of found }
{
    match found {
        Ok(record) => record.tag,
        Err(Broken::Body(tag)) => tag,
        Err(Broken::Header) => 0,
    }
}

// The first judgement of what stands at a position, where ok says whether its tag may stand there; let .. else as document 01 asks.
// Inlined, since a call would copy each record there and back.
#[inline(always)]
pub fn judge(s: &[u8], found: Result<Record, Broken>, ok: bool) -> Result<Record, FileRefusal>
    ensures { result ≡ judge_by (λ tag. ok) s.now found }
{
    let Ok(record) = found else {
        if ok || found == Err(Broken::Header) {
            return Err(FileRefusal::Cut);
        }
        return Err(FileRefusal::Misplaced);
    };
    if !ok {
        return Err(FileRefusal::Misplaced);
    }
    if !fits(s, record.tag, record.start, record.len) {
        return Err(FileRefusal::Length);
    }
    Ok(record)
}
