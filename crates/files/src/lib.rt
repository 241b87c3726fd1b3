// Files: where setup ends; the setup read into tables, the schedule into steps; the part handed back with a refusal.
#![tactic(auto)]

ghost use Rattle.std.specs.Prelude.{◌≡◌, ◌≢◌, ◌+◌, ◌<◌, ◌≤◌, true, length, drop, Ok, Err};
ghost use Rattle.tables.specs.Empty.{no_tables};
ghost use Rattle.tables.specs.Judge.{group_refusal, txn_refusal};
ghost use Rattle.records.specs.Rule.{pairs_length, fits};
ghost use Rattle.records.specs.Record.{record_at, tag_of};
ghost use Rattle.records.specs.Judge.{judge_by};
ghost use Rattle.files.specs.Refusal.{placed};
ghost use Rattle.files.specs.Cut.{cut_of};
ghost use Rattle.files.specs.Rows.{with_keys, with_group, with_txn, reads_of, writes_of};
ghost use Rattle.files.specs.Setup.{in_setup, accepted, record_refusal, with_record, reading, ended, turn_of, setup_read, read_from, read_setup};
ghost use Rattle.files.specs.Schedule.{in_schedule, read_schedule, step_by};
ghost use Rattle.files.specs.File.{parts_by, file_of, rest_of};

use numbers::FileRefusal;
use records::{Field, Record};
use steps::Step;
use tables::{Group, Tables};

// Tags stay bytes: document 01's table is indexed by them, and any byte may stand.
const KEYS: u8 = 0x01;

const GROUP: u8 = 0x02;

const TXN: u8 = 0x03;

const END: u8 = 0x0F;

// The most bytes that a file may have.
const LIMIT: usize = 60000;

// Why a part of a file or a file is refused, and where the record stands.
#[derive(Clone, Copy, Debug, PartialEq, Eq)]
pub struct Refused<P> {
    pub why: FileRefusal,
    pub at: P,
}

// A reading, with the tables read so far; a refusal gives them too.
#[derive(Clone, Copy, Debug, PartialEq, Eq)]
pub struct Reading<P> {
    pub outcome: Result<(), Refused<P>>,
    pub tables: Tables,
}

// Where a record stands: in which part of the file, and at which byte of it.
#[derive(Clone, Copy, Debug, PartialEq, Eq)]
pub enum Where {
    InSetup(usize),
    InSchedule(usize),
}

// What was found or its refusal, for the record at a byte.
fn placed<T>(found: Result<T, FileRefusal>, at: usize) -> Result<T, Refused<usize>>
    ensures { result ≡ placed found at }
{
    found.map_err(|why| Refused { why, at })
}

// Where the setup part of a file ends: just after the first END met by walking the lengths; without one, all is setup.
pub fn cut(file: &[u8]) -> usize
    ensures { result ≡ cut_of file.now }
{
    let mut at: usize = 0;
    while let Ok(record) = records::record_from(file, at) {
        if record.tag == END {
            return record.next;
        }
        at = record.next;
    }
    file.len()
}

// Whether a tag may come next in setup, by what there is so far.
fn in_setup(t: &Tables, tag: u8) -> bool
    ensures { result ≡ in_setup t.now tag }
{
    if t.keys == 0 {
        return tag == KEYS;
    }
    if t.groups == 0 {
        return tag == GROUP;
    }
    match tag {
        GROUP => t.txns == 0,
        TXN | END => true,
        _ => false,
    }
}

// Whether a tag may stand in a schedule.
fn in_schedule(tag: u8) -> bool
    ensures { result ≡ in_schedule tag }
{
    0x10 <= tag && tag <= 0x15
}

// What stands at a position, where allowed says which tags may stand there.
fn judge_at<F: Fn(u8) -> bool>(s: &[u8], at: usize, allowed: F) -> Result<Record, FileRefusal>
    requires { F.IsAlwaysCallable allowed }
    ensures { (ok : _) × F.post allowed (tag_of (record_at s.now at)) ok × (result ≡ judge_by (λ tag. ok) s.now (record_at s.now at)) }
{
    let found = records::record_from(s, at);
    records::judge(s, found, allowed(records::tag_of(found)))
}

// ---- a record is judged as it stands in the tables with it, so these are made anew and kept only if it is taken

// The tables with KEYS: its len / 4 first values.
fn with_keys(t: Tables, s: &[u8], start: usize, len: usize) -> Tables
    requires { (start + len ≤ length s.now) × (len ≤ 256) }
    ensures { result ≡ with_keys t s.now start len }
{
    let n = len / 4;
    let mut next = t;
    // 64 at most.
    next.keys = n as u8;
    records::put_row(&mut next.first, 0, n, s, start, 4);
    next
}

// The tables with a GROUP: its site count and its mask of held keys.
fn with_group(t: Tables, s: &[u8], start: usize) -> Tables
    requires { (start + 9 ≤ length s.now) × (t.groups < 8) }
    ensures { result ≡ with_group t s.now start }
{
    let mut next = t;
    next.groups = t.groups + 1;
    next.group[usize::from(t.groups)] = Group {
        sites: s[start],
        keys: u64::read(s, start + 1),
    };
    next
}

// The tables with a TXN: r, r key bytes, w, w pairs of key and value.
fn with_txn(t: Tables, s: &[u8], start: usize) -> Tables
    requires start_in_bounds { (start + pairs_length s.now start ≤ length s.now) × (t.txns < 128) }
    requires start_bound { (reads_of s.now start ≤ 8) × (writes_of s.now start ≤ 8) }
    ensures { result ≡ with_txn t s.now start }
{
    let n = usize::from(s[start]);
    let at = start + 1 + n;
    let m = usize::from(s[at]);
    let x = usize::from(t.txns);
    let mut txn = t.txn[x];
    txn.reads.count = s[start];
    records::put_row(&mut txn.reads.keys, 0, n, s, start + 1, 1);
    txn.writes.count = s[at];
    records::put_row(&mut txn.writes.keys, 0, m, s, at + 1, 5);
    records::put_row(&mut txn.values, 0, m, s, at + 2, 5);
    let mut next = t;
    next.txns = t.txns + 1;
    next.txn[x] = txn;
    next
}

// A GROUP is judged as it stands in the tables with it; there is no place for a ninth.
fn take_group(t: Tables, s: &[u8], start: usize) -> Result<Tables, FileRefusal>
    requires { start + 9 ≤ length s.now }
    ensures { result ≡ accepted (group_refusal (with_group t s.now start) t.groups) (with_group t s.now start) }
{
    if 8 <= t.groups {
        return Err(FileRefusal::Range);
    }
    let new = with_group(t, s, start);
    let group = new.group[usize::from(t.groups)];
    tables::group_refusal(t.keys, t.groups, group.sites, new.sites(), group.keys)?;
    Ok(new)
}

// The counts of a TXN are judged first, then its keys as they stand in the tables with it.
fn take_txn(t: Tables, s: &[u8], start: usize) -> Result<Tables, FileRefusal>
    requires { start + pairs_length s.now start ≤ length s.now }
    ensures { result ≡ accepted (txn_refusal (with_txn t s.now start) t.txns) (with_txn t s.now start) }
{
    let r = s[start];
    let w = s[start + 1 + usize::from(r)];
    tables::count_refusal(t.txns, r, w)?;
    let new = with_txn(t, s, start);
    new.key_refusal(usize::from(t.txns))?;
    Ok(new)
}

// A record before END: the tables with it, if they take it.
fn take(t: Tables, s: &[u8], r: Record) -> Result<Tables, FileRefusal>
    requires lies { r.start + r.len ≤ length s.now }
    requires fitting { fits s.now r.tag r.start r.len ≡ true }
    requires allowed { (in_setup t r.tag ≡ true) × (r.tag ≢ 0x0F) }
    ensures { result ≡ accepted (record_refusal t s.now r) (with_record t s.now r) }
{
    match r.tag {
        KEYS => Ok(with_keys(t, s, r.start, r.len)),
        GROUP => take_group(t, s, r.start),
        _ => take_txn(t, s, r.start),
    }
}

// END; nothing may follow it in setup.
fn ended(t: &Tables, s: &[u8], at: usize, next: usize) -> Result<Option<usize>, Refused<usize>>
    requires { t.now.groups ≤ 8 }
    ensures { reading result t.now ≡ ended t.now s.now at next }
{
    placed(t.end_refusal(), at)?;
    if next < s.len() {
        return Err(Refused {
            why: FileRefusal::Misplaced,
            at: next,
        });
    }
    Ok(None)
}

// One record of a setup: on past it, or to the setup's end.
fn turn(t: &mut Tables, s: &[u8], at: usize) -> Result<Option<usize>, Refused<usize>>
    requires { t.old.groups ≤ 8 }
    ensures { reading result t.new ≡ turn_of t.old s.now at }
{
    let record = placed(judge_at(s, at, |tag| in_setup(t, tag)), at)?;
    if record.tag == END {
        return ended(t, s, at, record.next);
    }
    *t = placed(take(*t, s, record), at)?;
    Ok(Some(record.next))
}

// A setup, record by record, until one is END or is refused.
fn read_tables(t: &mut Tables, s: &[u8]) -> Result<(), Refused<usize>>
    requires { t.old.groups ≤ 8 }
    ensures { setup_read result t.new ≡ read_from t.old s.now }
{
    let mut at: usize = 0;
    while let Some(next) = turn(t, s, at)? {
        at = next;
    }
    Ok(())
}

// A setup read into tables that are empty.
pub fn read_setup(s: &[u8]) -> Reading<usize>
    ensures { result ≡ read_setup s.now }
{
    let mut tables = tables::no_tables();
    let outcome = read_tables(&mut tables, s);
    Reading { outcome, tables }
}

// A schedule's tags and lengths, judged to its end; it may stop after any record.
pub fn read_schedule(s: &[u8]) -> Result<(), Refused<usize>>
    ensures { result ≡ read_schedule s.now }
{
    let mut at: usize = 0;
    // A record says where the next begins.
    while at != s.len() {
        let record = placed(judge_at(s, at, in_schedule), at)?;
        at = record.next;
    }
    Ok(())
}

// The step of a tag, its numbers from start on.
pub fn step_by(tag: u8, s: &[u8], start: usize) -> Step
    requires { start ≤ length s.now }
    ensures { result ≡ step_by tag s.now start }
{
    let a = records::byte_at(s, start);
    let b = records::byte_at(s, start + 1);
    let c = records::byte_at(s, start + 2);
    // The tags of document 01's table; of a judged schedule no other comes here.
    match tag {
        0x10 => Step::Read { t: a, i: b, s: c },
        0x11 => Step::Submit(a),
        0x12 => Step::Deliver(a),
        0x13 => Step::Carry {
            t: a,
            from: b,
            to: c,
        },
        0x14 => Step::Close { t: a, s: b },
        _ => Step::Settle,
    }
}

// The outcome of a file whose setup was read so far: its own refusal, or what its schedule reads as.
fn parts_outcome(setup: Result<(), Refused<usize>>, schedule: &[u8]) -> Result<(), Refused<Where>>
    ensures { result ≡ parts_by setup schedule.now }
{
    setup.map_err(|m| Refused {
        why: m.why,
        at: Where::InSetup(m.at),
    })?;
    read_schedule(schedule).map_err(|m| Refused {
        why: m.why,
        at: Where::InSchedule(m.at),
    })
}

// A file in its two parts; both are counted.
pub fn read_file<'a>(setup: &'a [u8], schedule: &'a [u8]) -> Reading<Where>
    ensures { result ≡ file_of setup.now schedule.now }
{
    if LIMIT < setup.len() || LIMIT - setup.len() < schedule.len() {
        return Reading {
            outcome: Err(Refused {
                why: FileRefusal::TooLong,
                at: Where::InSetup(0),
            }),
            tables: tables::no_tables(),
        };
    }
    let read = read_setup(setup);
    Reading {
        outcome: parts_outcome(read.outcome, schedule),
        tables: read.tables,
    }
}

// The bytes from a position to the end; none past it.
fn from<'a>(s: &'a [u8], at: usize) -> &'a [u8]
    ensures { result.now ≡ drop at s.now }
{
    if at <= s.len() { &s[at..] } else { &s[..0] }
}

// The bytes from a record's start to the end of the part that it stands in.
pub fn rest<'a>(setup: &'a [u8], schedule: &'a [u8], at: Where) -> &'a [u8]
    ensures { result.now ≡ rest_of setup.now schedule.now at }
{
    match at {
        Where::InSetup(i) => from(setup, i),
        Where::InSchedule(i) => from(schedule, i),
    }
}
