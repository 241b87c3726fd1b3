// What an accepted step answers and leaves of the parts of a state.
#![tactic(auto)]

ghost use Rattle.std.specs.Prelude.{◌≡◌, cond, ◌+◌, ◌*◌, ◌<◌, eqb, get_or, set, unwrap_or};
ghost use Rattle.keys.specs.Keys.{member, adding};
ghost use Rattle.tables.specs.Lists.{read_key};
ghost use Rattle.plan.specs.Planned.{Laid, Planned};
ghost use Rattle.parts.specs.Cells.{cell, version_in};
ghost use Rattle.parts.specs.Changed.{with_read, with_place, with_delivery, with_votes, with_closed};
ghost use Rattle.queues.specs.Queue.{submitted_in, next_of};
ghost use Rattle.rules.specs.Asked.{vote_in, verdict_at};
ghost use Rattle.steps.specs.Kinds.{version, place};
ghost use Rattle.effects.specs.Stored.{version_found, value_found, written_in, Room};

use parts::Parts;
use plan::Plan;
use steps::{Answer, Place, Verdict, Version};

// What stands at a place of the stores. Past the last version stand the values, and past the last value the versions recorded.
fn found(w: &Parts, j: usize) -> (Version, u32)
    requires { j < 2048 }
    ensures { (result.0 ≡ version (version_found w.now j)) × (result.1 ≡ value_found w.now j) }
{
    if j < 1024 {
        (w.versions[j], w.values[j])
    } else {
        (Version(w.values[j - 1024]), w.readversions[j - 1024].0)
    }
}

// READ: records the version and value of t's i-th read key at s.
pub fn read_found(plan: &Plan, w: &mut Parts, t: u8, i: u8, s: u8) -> Answer
    requires laid { Laid plan.now }
    requires t_bound { (t < 128) × ((i < 8) × (s < 16)) }
    ensures value { let j = s * 64 + read_key plan.now.tables t i in result ≡ Answer.Read (version (version_found w.old j)) (value_found w.old j) }
    ensures parts { let j = s * 64 + read_key plan.now.tables t i in w.new ≡ with_read w.old t i (version_found w.old j) (value_found w.old j) }
{
    let at = usize::from(t) * 8 + usize::from(i);
    let from = usize::from(s) * 64 + plan.read_key(usize::from(t), usize::from(i));
    // Past the reads of a transaction a key may be past the store.
    let (version, value) = found(w, from);
    w.recorded[at] = true;
    w.readversions[at] = version;
    w.readvalues[at] = value;
    Answer::Read(version, value)
}

// The same, but past the store nothing stands: there it finds 0 and 0.
pub fn read(plan: &Plan, w: &mut Parts, t: u8, i: u8, s: u8) -> Answer
    requires laid { Laid plan.now }
    requires t_bound { (t < 128) × ((i < 8) × (s < 16)) }
    ensures value { let k = read_key plan.now.tables t i in result ≡ Answer.Read (version (version_in w.old.versions s k)) (get_or w.old.values (s * 64 + k) 0) }
    ensures parts { let k = read_key plan.now.tables t i in w.new ≡ with_read w.old t i (version_in w.old.versions s k) (get_or w.old.values (s * 64 + k) 0) }
{
    let answer = read_found(plan, w, t, i, s);
    if usize::from(s) * 64 + plan.read_key(usize::from(t), usize::from(i)) < 1024 {
        return answer;
    }
    // Where the arrays are named, their lengths are known.
    let _ = &w.versions;
    let _ = &w.values;
    let at = usize::from(t) * 8 + usize::from(i);
    w.readversions[at] = Version(0);
    w.readvalues[at] = 0;
    Answer::Read(Version(0), 0)
}

// SUBMIT: gives t the next place.
pub fn submit(plan: &Plan, w: &mut Parts, t: u8) -> Answer
    requires laid { Laid plan.now }
    requires t_bound { t < 128 }
    ensures { let p = submitted_in w.old.places plan.now.tables.txns + 1 in (result ≡ Answer.Submitted (place p)) × (w.new ≡ with_place w.old t p) }
{
    let place = Place(queues::submitted(plan, w) + 1);
    w.places[usize::from(t)] = place;
    Answer::Submitted(place)
}

// Puts t into the queue of s, with the vote of s, which is the answer: the number as the cell keeps it.
pub fn deliver_at(plan: &Plan, w: &mut Parts, t: usize, s: usize) -> u8
    requires laid { Laid plan.now }
    requires t_bound { (t < plan.now.tables.txns) × (s < 16) }
    ensures value { Planned plan.now → result ≡ vote_in plan.now.tables w.old.versions w.old.readversions w.old.recorded t s }
    ensures parts { w.new ≡ with_delivery w.old t s result }
{
    let vote = rules::vote(plan, w, t, s).map_or(0, |v| v.number());
    w.delivered[t * 16 + s] = true;
    w.cast[t * 16 + s] = vote;
    vote
}

// DELIVER: the next at s.
pub fn deliver(plan: &Plan, w: &mut Parts, s: u8) -> Answer
    requires { Planned plan.now × ((s < 16) × (next_of plan.now.tables w.old.places w.old.delivered s < plan.now.tables.txns)) }
    ensures { let t = next_of plan.now.tables w.old.places w.old.delivered s in let v = vote_in plan.now.tables w.old.versions w.old.readversions w.old.recorded t s in (result ≡ Answer.Delivered t v) × (w.new ≡ with_delivery w.old t s v) }
{
    let site = usize::from(s);
    let t = queues::next_at(plan, w, site).unwrap();
    let vote = deliver_at(plan, w, usize::from(t), site);
    Answer::Delivered { t, vote }
}

// CARRY: hands the vote of from on t to to.
pub fn carry(w: &mut Parts, t: u8, from: u8, to: u8) -> Answer
    requires { (t < 128) × ((«from» < 16) × (to < 16)) }
    ensures value { result ≡ Answer.Carried (cell 0 w.old.cast t «from») }
    ensures parts { let held = cell 0 w.old.carried t to in w.new ≡ with_votes w.old (set w.old.carried (t * 16 + to) (cond (member held «from») held (adding held «from»))) }
{
    let at = usize::from(t) * 16;
    rules::hand(&mut w.carried, at + usize::from(to), usize::from(from));
    Answer::Carried(w.cast[at + usize::from(from)])
}

// A commit of t at s: each key that it writes there has the next version and the value.
fn commit(plan: &Plan, w: &mut Parts, t: usize, s: usize)
    requires planned { Planned plan.now }
    requires t_bound { (t < plan.now.tables.txns) × ((s < 16) × Room plan.now.tables w.old t s) }
    ensures { w.new ≡ written_in plan.now.tables w.old t s }
{
    let m = plan.site_sets[s];
    for i in 0..plan.writes(t) {
        let k = plan.write_key(t, i);
        if keys::has(m, k) {
            let at = s * 64 + k;
            w.versions[at] = Version(w.versions[at].0 + 1);
            w.values[at] = plan.given(t, i);
        }
    }
}

// CLOSE: t at s by its verdict.
pub fn close(plan: &Plan, w: &mut Parts, t: u8, s: u8) -> Answer
    requires { Planned plan.now × ((t < plan.now.tables.txns) × ((s < 16) × (verdict_at plan.now.tables w.old.cast w.old.carried t s ≡ 1 → Room plan.now.tables w.old t s))) }
    ensures { let c = verdict_at plan.now.tables w.old.cast w.old.carried t s in (result ≡ Answer.Closed c) × (w.new ≡ with_closed (cond (eqb c 1) (written_in plan.now.tables w.old t s) w.old) t s c) }
{
    let at = usize::from(t);
    let site = usize::from(s);
    let verdict = rules::verdict(plan, w, at, site);
    if verdict == Some(Verdict::Commit) {
        commit(plan, w, at, site);
    }
    let number = verdict.map_or(0, |v| v.number());
    w.closed[at * 16 + site] = number;
    Answer::Closed(number)
}

#[cfg(test)]
mod tests {
    use super::*;

    // Key 70 of site 15 is at 1,030: six past the last version.
    #[test]
    fn reads_past_the_store(rt: HostRuntime) {
        let mut tables = tables::no_tables();
        tables.txn[0].reads.keys[0] = 70;
        let plan = Plan::of(tables);
        let mut w = Parts {
            versions: [Version(3); 1024],
            values: [4; 1024],
            recorded: [false; 1024],
            readversions: [Version(5); 1024],
            readvalues: [6; 1024],
            places: [Place(0); 128],
            delivered: [false; 2048],
            closed: [0; 2048],
            cast: [0; 2048],
            carried: [0; 2048],
        };
        assert_eq!(rt; read(&plan, &mut w, 0, 0, 15), Answer::Read(Version(0), 0));
        assert!(rt; w.recorded[0]);
        assert_eq!(rt; w.readversions[0], Version(0));
        assert_eq!(rt; w.readvalues[0], 0);
        assert_eq!(rt;
            read_found(&plan, &mut w, 0, 0, 15),
            Answer::Read(Version(4), 5)
        );
        assert_eq!(rt; read(&plan, &mut w, 0, 0, 0), Answer::Read(Version(3), 4));
        assert_eq!(rt; w.readversions[0], Version(3));
        assert_eq!(rt; w.readvalues[0], 4);
    }
}
