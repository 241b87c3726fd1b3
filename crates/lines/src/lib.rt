// The lines of a listing: one for each step, transaction and held key.
#![tactic(auto)]

ghost use Rattle.std.specs.Prelude.{◌≡◌, true, cond, [], ◌∷◌, ◌+◌, ◌*◌, ◌^◌, ◌≤◌, ◌<◌};
ghost use Rattle.machine.specs.Usable.{usable};
ghost use Rattle.steps.specs.Answers.{numbers_by};
ghost use Rattle.keys.specs.Keys.{member};
ghost use Rattle.tables.specs.Sites.{site_count, site_keys};
ghost use Rattle.text.specs.Text.{each};
ghost use Rattle.text.specs.Wrote.{Writes};
ghost use Rattle.lines.specs.Lines.{step_line, verdict_in, txn_line, item_line, item_lines, state_lines};

use machine::State;
use numbers::Numbered;
use steps::{Answer, Numbers};
use text::Writer;

// STEP, index, answer, two numbers.
pub fn put_step<R: Numbered>(w: &mut Writer, i: u32, a: Result<Answer, R>)
    requires { (i < 100000) × (w.old.at + 36 < 2 ^ 64) }
    ensures wrote { Writes w.old w.new (step_line i (numbers_by R.listed_number a)) }
    ensures upper_bound { w.new.at ≤ w.old.at + 36 }
{
    // Written out, since a line of four numbers may ask for more room.
    let n = Numbers::from(a);
    w.text(b"STEP");
    w.field(i);
    w.field(n.code);
    w.field(n.first);
    w.field(n.second);
    w.byte(b'\n');
}

// The verdict on t as it is listed: 0 open, else that of the lowest of n sites that closed it.
fn verdict_of(closed: &[u8; 2048], n: usize, t: usize) -> u8
    requires { (n ≤ 16) × (t < 128) }
    ensures { result ≡ verdict_in closed.now n t }
{
    (0..n)
        .map(|s| closed[t * 16 + s])
        .find(|v| *v != 0)
        .unwrap_or(0)
}

// TXN, number, place, verdict: of each transaction.
fn put_txns(st: &State, w: &mut Writer)
    requires sites { (st.now.tables.groups ≤ 8) × ((site_count st.now.tables ≤ 16) × (st.now.tables.txns ≤ 128)) }
    requires at_bound { w.old.at + 37 * st.now.tables.txns < 2 ^ 64 }
    ensures wrote { Writes w.old w.new (each st.now.tables.txns (txn_line st.now.parts.places st.now.parts.closed (site_count st.now.tables))) }
    ensures upper_bound { w.new.at ≤ w.old.at + 37 * st.now.tables.txns }
{
    let sites = st.tables.sites();
    for t in 0..st.tables.txns {
        let at = usize::from(t);
        let place = st.parts.places[at].0;
        let verdict = verdict_of(&st.parts.closed, sites, at);
        w.line(b"TXN", &[u32::from(t), place, u32::from(verdict)]);
    }
}

// ITEM, site, key, version, value, where key k is in the set m; else nothing.
fn put_item(st: &State, w: &mut Writer, m: u64, s: usize, k: u8)
    requires { (s < 16) × ((k < 64) × (w.old.at + 49 < 2 ^ 64)) }
    ensures wrote { Writes w.old w.new (cond (member m k) (item_line st.now.parts.versions st.now.parts.values s k) []) }
    ensures upper_bound { w.new.at ≤ w.old.at + 49 }
{
    let key = usize::from(k);
    if keys::has(m, key) {
        let at = s * 64 + key;
        let version = st.parts.versions[at].0;
        let value = st.parts.values[at];
        // A site is below 16.
        w.line(b"ITEM", &[s as u32, u32::from(k), version, value]);
    }
}

// The items of site s, whose keys are the set m.
fn put_items(st: &State, w: &mut Writer, m: u64, s: usize)
    requires { (s < 16) × ((st.now.tables.keys ≤ 64) × (w.old.at + 49 * st.now.tables.keys < 2 ^ 64)) }
    ensures wrote { Writes w.old w.new (item_lines st.now.parts.versions st.now.parts.values m st.now.tables.keys s) }
    ensures upper_bound { w.new.at ≤ w.old.at + 49 * st.now.tables.keys }
{
    for k in 0..st.tables.keys {
        put_item(st, w, m, s, k);
    }
}

// The items of each site.
fn put_sites(st: &State, w: &mut Writer)
    requires groups_bound { (st.now.tables.groups ≤ 8) × ((site_count st.now.tables ≤ 16) × (st.now.tables.keys ≤ 64)) }
    requires at_bound { w.old.at + 50176 < 2 ^ 64 }
    ensures wrote { Writes w.old w.new (each (site_count st.now.tables) (λ s. item_lines st.now.parts.versions st.now.parts.values (site_keys st.now.tables s) st.now.tables.keys s)) }
    ensures upper_bound { w.new.at ≤ w.old.at + 50176 }
{
    for s in 0..st.tables.sites() {
        put_items(st, w, st.tables.site_keys(s), s);
    }
}

// What is listed of the state at the end.
pub fn put_state(st: &State, w: &mut Writer)
    requires { (usable st.now ≡ true) × (w.old.at + 54912 < 2 ^ 64) }
    ensures wrote { Writes w.old w.new (state_lines st.now) }
    ensures upper_bound { w.new.at ≤ w.old.at + 54912 }
{
    put_txns(st, w);
    put_sites(st, w);
}
