// Votes, verdicts and room for a commit, asked of the plan of the tables and of the parts of a state; and the states that a step can run on.
#![tactic(auto)]

ghost use Rattle.std.specs.Prelude.{◌≡◌, ◌&&◌, cond, ℕ, ◌+◌, ◌*◌, ◌≤◌, ◌<◌, eqb, get_or, set};
ghost use Rattle.bounded.specs.Bounded.{all_below};
ghost use Rattle.keys.specs.Keys.{member, adding};
ghost use Rattle.tables.specs.Lists.{read_row, read_count};
ghost use Rattle.tables.specs.Sites.{site_count, site_keys};
ghost use Rattle.plan.specs.Planned.{Laid, Planned};
ghost use Rattle.parts.specs.Cells.{cell, version_in, recorded_in};
ghost use Rattle.rules.specs.Votes.{certify_in, holds_vote, covered_in, all_yes_in};
ghost use Rattle.rules.specs.Asked.{vote_in, verdict_at, room_of};
ghost use Rattle.steps.specs.Codes.{vote_number, verdict_number};
ghost use Rattle.rules.specs.Fit.{counts_fit, row_fits, txn_fits, txns_fit, places_fit};
ghost use Rattle.steps.specs.Kinds.{version};

use parts::Parts;
use plan::Plan;
use steps::{Place, Verdict, Vote};
use tables::{Keys, Tables};

// ---- votes

// Whether each of the n reads of t was recorded.
pub fn is_recorded(w: &Parts, n: usize, t: usize) -> bool
    requires { (t < 128) × (n ≤ 8) }
    ensures { result ≡ all_below n (recorded_in w.now.recorded t) }
{
    (0..n).rev().all(|i| w.recorded[t * 8 + i])
}

// Whether t's i-th read, of key k, has the recorded version at s.
fn is_current(w: &Parts, t: usize, i: usize, s: usize, k: usize) -> bool
    requires { ((t < 128) × (i < 8)) × ((s < 16) × (k < 64)) }
    ensures { result ≡ (recorded_in w.now.recorded t i && eqb (version_in w.now.versions s k) (get_or w.now.readversions (t * 8 + i) (version 0)).0) }
{
    w.recorded[t * 8 + i] && w.versions[s * 64 + k] == w.readversions[t * 8 + i]
}

// The certification of t at s.
fn certify(plan: &Plan, w: &Parts, t: usize, s: usize) -> Vote
    requires laid { Laid plan.now }
    requires t_bound { (t < plan.now.tables.txns) × (s < 16) }
    ensures { Planned plan.now → vote_number (Some result) ≡ certify_in w.now.versions w.now.readversions w.now.recorded (read_row plan.now.tables t) (read_count plan.now.tables t) t s (site_keys plan.now.tables s) }
{
    let m = plan.site_sets[s];
    let is_yes = (0..plan.reads(t)).rev().all(|i| {
        let k = plan.read_key(t, i);
        !keys::has(m, k) || is_current(w, t, i, s, k)
    });
    if is_yes { Vote::Yes } else { Vote::No }
}

// What s casts on t: nothing where it is not in V(t).
pub fn vote(plan: &Plan, w: &Parts, t: usize, s: usize) -> Option<Vote>
    requires laid { Laid plan.now }
    requires t_bound { (t < plan.now.tables.txns) × (s < 16) }
    ensures { Planned plan.now → vote_number result ≡ vote_in plan.now.tables w.now.versions w.now.readversions w.now.recorded t s }
{
    if plan.is_voter(t, s) {
        Some(certify(plan, w, t, s))
    } else {
        None
    }
}

// Whether site s holds the vote of f: own is what it cast, carried those that it was handed.
pub fn has_vote(own: u8, carried: u16, s: usize, f: usize) -> bool
    ensures { result ≡ holds_vote own carried s f }
{
    if f == s {
        0 < own
    } else {
        keys::has(u64::from(carried), f)
    }
}

// Adds the vote of f to those carried at place i.
pub fn hand(carried: &mut [u16; 2048], i: usize, f: usize)
    requires { (i < 2048) × (f < 16) }
    ensures { carried.new ≡ set carried.old i (cond (member (get_or carried.old i 0) f) (get_or carried.old i 0) (adding (get_or carried.old i 0) f)) }
{
    // A site is below 16.
    carried[i] = keys::with(u64::from(carried[i]), f) as u16;
}

// The set of the sites whose votes s holds.
fn voters(own: u8, carried: u16, s: usize) -> u64
    requires { s < 16 }
    ensures { (f : ℕ) → member result f ≡ holds_vote own carried s f }
{
    if 0 < own {
        keys::with(u64::from(carried), s)
    } else {
        keys::without(u64::from(carried), s)
    }
}

// Whether the votes on t that s holds, those of the sites of held, cover all that t reads.
fn is_covered(plan: &Plan, held: u64, t: usize) -> bool
    requires laid { Laid plan.now }
    requires t_bound { t < plan.now.tables.txns }
    ensures { (own carried s : ℕ) → Planned plan.now → ((f : ℕ) → member held f ≡ holds_vote own carried s f) → result ≡ covered_in own carried plan.now.tables.group plan.now.tables.groups (read_row plan.now.tables t) (read_count plan.now.tables t) (site_count plan.now.tables) s }
{
    (0..plan.reads(t))
        .rev()
        .all(|i| keys::meet(plan.holders[plan.read_key(t, i)], held))
}

// Whether the vote on t of each of n sites of held is yes.
fn is_all_yes(w: &Parts, held: u64, n: usize, t: usize) -> bool
    requires { (n ≤ 16) × (t < 128) }
    ensures { (carried s : ℕ) → ((f : ℕ) → member held f ≡ holds_vote (cell 0 w.now.cast t s) carried s f) → result ≡ all_yes_in w.now.cast carried n t s }
{
    (0..n)
        .rev()
        .all(|f| !keys::has(held, f) || w.cast[t * 16 + f] == 1)
}

// The verdict on t at s, if it is known.
#[tactic(auto, unfolding(crate::specs::Votes::verdict_by))]
pub fn verdict(plan: &Plan, w: &Parts, t: usize, s: usize) -> Option<Verdict>
    requires laid { Laid plan.now }
    requires t_bound { (t < plan.now.tables.txns) × (s < 16) }
    ensures { Planned plan.now → verdict_number result ≡ verdict_at plan.now.tables w.now.cast w.now.carried t s }
{
    if plan.reads(t) == 0 {
        return Some(Verdict::Commit);
    }
    let held = voters(w.cast[t * 16 + s], w.carried[t * 16 + s], s);
    if !is_covered(plan, held, t) {
        None
    } else if is_all_yes(w, held, plan.sites, t) {
        Some(Verdict::Commit)
    } else {
        Some(Verdict::Abort)
    }
}

// Whether a commit of t at s has a version left for each key that it writes there.
pub fn has_room(plan: &Plan, w: &Parts, t: usize, s: usize) -> bool
    requires laid { Laid plan.now }
    requires t_bound { (t < plan.now.tables.txns) × (s < 16) }
    ensures { Planned plan.now → result ≡ room_of plan.now.tables w.now.versions t s }
{
    let m = plan.site_sets[s];
    (0..plan.writes(t)).rev().all(|i| {
        let k = plan.write_key(t, i);
        !keys::has(m, k) || w.versions[s * 64 + k].0 < u32::MAX
    })
}

// ---- the states that a step can run on

#[tactic(auto, unfolding(crate::specs::Fit::counts_fit))]
pub fn counts_fit(tables: &Tables) -> bool
    ensures { result ≡ counts_fit tables.now.keys tables.now.groups tables.now.group tables.now.txns }
{
    tables.keys <= 64 && tables.groups <= 8 && tables.sites() <= 16 && tables.txns <= 128
}

// Whether the keys of a list are eight at most, below the key count, and none twice.
#[tactic(auto, unfolding(crate::specs::Fit::row_fits))]
fn row_fits(keys: u8, row: &Keys) -> bool
    ensures { result ≡ row_fits keys row.now.keys row.now.count }
{
    row.count <= 8 && row.are_present(keys) && !row.is_twice()
}

#[tactic(auto, unfolding(crate::specs::Fit::txn_fits))]
fn txn_fits(tables: &Tables, t: usize) -> bool
    requires { t < 128 }
    ensures { result ≡ txn_fits tables.now.keys tables.now.txn t }
{
    row_fits(tables.keys, &tables.txn[t].reads) && row_fits(tables.keys, &tables.txn[t].writes)
}

// Whether the lists of all transactions can be run on.
pub fn txns_fit(tables: &Tables) -> bool
    requires { tables.now.txns ≤ 128 }
    ensures { result ≡ txns_fit tables.now.keys tables.now.txn tables.now.txns }
{
    (0..usize::from(tables.txns))
        .rev()
        .all(|t| txn_fits(tables, t))
}

// Whether none of the first n transactions has a place over 128.
pub fn places_fit(places: &[Place; 128], n: u8) -> bool
    requires { n ≤ 128 }
    ensures { result ≡ places_fit places.now n }
{
    (0..usize::from(n)).rev().all(|t| places[t].0 <= 128)
}
