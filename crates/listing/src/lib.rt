// The listing of a file: its schedule run from the fresh state of its tables, a line for each step, transaction and held key.
#![tactic(auto)]

ghost use Rattle.std.specs.Prelude.{◌≡◌, true, ◌+◌, ◌*◌, ◌^◌, ◌≤◌, ◌<◌, length, IfOk};
ghost use Rattle.files.specs.File.{file_of};
ghost use Rattle.files.specs.Schedule.{steps_of};
ghost use Rattle.lines.specs.Lines.{step_lines};
ghost use Rattle.machine.specs.Usable.{usable};
ghost use Rattle.text.specs.Wrote.{Wrote, Writes};
ghost use Rattle.listing.specs.Run.{end_of, answers_of};
ghost use Rattle.listing.specs.Listing.{listed, lines_of, listing_of, offset_of, printed, in_room, answer_of, answer_by, left_of};

use files::{Reading, Where};
use machine::State;
use numbers::FileRefusal;
use plan::Plan;
use tables::Tables;
use text::Writer;

// The steps of a schedule one after the other, a line for each answer. The plan takes its room for the run alone.
#[inline(never)]
fn run(st: &mut State, schedule: &[u8], w: &mut Writer)
    requires usable { (usable st.old ≡ true) × (length st.old.parts.places ≡ 128) }
    requires short { length schedule.now ≤ 60000 }
    requires room { w.old.at + 12 * length schedule.now < 2 ^ 64 }
    ensures state { st.new ≡ end_of st.old (steps_of schedule.now) }
    ensures wrote { Writes w.old w.new (step_lines 0 (answers_of st.old (steps_of schedule.now))) }
    ensures bound { w.new.at ≤ w.old.at + 12 * length schedule.now }
{
    let plan = Plan::of(st.tables);
    let mut idle = false;
    // A record says where the next begins, so nothing else counts them.
    let mut i: u32 = 0;
    let mut at = 0;
    while let Ok(record) = records::record_from(schedule, at) {
        let x = files::step_by(record.tag, schedule, record.start);
        let answer = machine::take_in(&plan, &mut st.parts, idle, x);
        idle = machine::idle_after(idle, answer);
        lines::put_step(w, i, answer);
        i += 1;
        at = record.next;
    }
}

// ---- the listing

// No listing is longer; what is to hold one has so much room.
pub const MOST: usize = 774912;

// The run of a schedule from the fresh state of the tables, as much of it as there is room for; the answer is its length.
#[inline(never)]
fn put_listing(tables: Tables, schedule: &[u8], out: &mut [u8]) -> usize
    requires { length schedule.now ≤ 60000 }
    ensures wrote { Wrote out.old 0 out.new result (lines_of tables schedule.now) }
    ensures upper_bound { result ≤ 774912 }
{
    let mut fresh = State::fresh(tables);
    let mut w = Writer::new(out, 0);
    run(&mut fresh.state, schedule, &mut w);
    lines::put_state(&fresh.state, &mut w);
    w.end()
}

// The listing's length; nothing is written where there is too little room.
fn put_in_room(tables: Tables, schedule: &[u8], out: &mut [u8]) -> Result<usize, FileRefusal>
    requires { length schedule.now ≤ 60000 }
    ensures value { answer_by result ≡ answer_of (in_room (length out.old) (listed (lines_of tables schedule.now))) }
    ensures out_after { out.new ≡ left_of (in_room (length out.old) (listed (lines_of tables schedule.now))) out.old }
    ensures bound { IfOk result (λ n. n ≤ 774912) }
{
    // On a buffer of one byte for the length.
    if out.len() < MOST && out.len() < put_listing(tables, schedule, &mut [0]) {
        return Err(FileRefusal::NoRoom);
    }
    Ok(put_listing(tables, schedule, out))
}

// What a file holds; its reading has a stack frame of its own.
#[inline(never)]
fn read_parts(setup: &[u8], schedule: &[u8]) -> Reading<Where>
    ensures { result ≡ file_of setup.now schedule.now }
{
    files::read_file(setup, schedule)
}

// The listing's length, or the file's refusal with nothing written.
pub fn list(file: &[u8], out: &mut [u8]) -> Result<usize, FileRefusal>
    ensures value { answer_by result ≡ answer_of (in_room (length out.old) (listing_of file.now)) }
    ensures out_after { out.new ≡ left_of (in_room (length out.old) (listing_of file.now)) out.old }
    ensures bound { IfOk result (λ n. n ≤ 774912) }
{
    let (setup, schedule) = file.split_at(files::cut(file));
    let read = read_parts(setup, schedule);
    match read.outcome {
        Ok(()) => put_in_room(read.tables, schedule, out),
        Err(refused) => Err(refused.why),
    }
}

// The record's byte offset in the file whose setup is c bytes long.
fn offset(c: usize, at: Where) -> u32
    requires { offset_of c at < 2 ^ 32 }
    ensures { result ≡ offset_of c at }
{
    // A file has no byte past 2^32.
    match at {
        Where::InSetup(i) => i as u32,
        Where::InSchedule(i) => (c + i) as u32,
    }
}

// What the program prints: the listing, or the refusal's line; as much of it as there is room for. The answer is its length.
pub fn print(file: &[u8], out: &mut [u8]) -> usize
    ensures wrote { Wrote out.old 0 out.new result (printed (listing_of file.now)) }
    ensures upper_bound { result ≤ 774912 }
{
    let (setup, schedule) = file.split_at(files::cut(file));
    let read = read_parts(setup, schedule);
    match read.outcome {
        Ok(()) => put_listing(read.tables, schedule, out),
        Err(refused) => {
            let number = u32::from(refused.why.number());
            let at = offset(setup.len(), refused.at);
            let mut w = Writer::new(out, 0);
            w.line(b"FILE", &[number, at]);
            w.end()
        }
    }
}
