// The queue of a site: what waits to enter it, what is in it, who is at its head and who is blocked.
#![tactic(auto)]

ghost use Rattle.std.specs.Prelude.{◌≡◌, false, ◌||◌, ◌≤◌, ◌<◌, eqb, ltb, IfSome, unwrap_or};
ghost use Rattle.queues.specs.Queue.{queued_in, precedes, head_in, waits, submitted_in, next_of, blocked_of};
ghost use Rattle.tables.specs.Concern.{concerns};
ghost use Rattle.plan.specs.Planned.{Laid, Planned};
ghost use Rattle.parts.specs.Cells.{place_in, cell, nobody};

use parts::Parts;
use plan::Plan;
use steps::Place;

// Whether t waits at s.
pub fn is_waiting(plan: &Plan, w: &Parts, t: usize, s: usize) -> bool
    requires { (t < 128) × (s < 16) }
    ensures { Planned plan.now → t < plan.now.tables.txns → result ≡ waits (place_in w.now.places t) (cell false w.now.delivered t s) (concerns plan.now.tables t s) }
{
    w.places[t].0 != 0 && !w.delivered[t * 16 + s] && plan.is_concerned(t, s)
}

// Whether t comes before the one found, if any.
fn is_sooner(w: &Parts, t: u8, found: Option<u8>) -> bool
    requires { (t < 128) × IfSome found (λ u. u < 128) }
    ensures { result ≡ (eqb (unwrap_or found nobody) nobody || ltb (place_in w.now.places t) (place_in w.now.places (unwrap_or found nobody))) }
{
    match found {
        Some(u) => w.places[usize::from(t)] < w.places[usize::from(u)],
        None => true,
    }
}

// The next to deliver at s.
pub fn next_at(plan: &Plan, w: &Parts, s: usize) -> Option<u8>
    requires laid { Laid plan.now }
    requires s_bound { s < 16 }
    ensures value { Planned plan.now → unwrap_or result nobody ≡ next_of plan.now.tables w.now.places w.now.delivered s }
    ensures low { IfSome result (λ t. t < plan.now.tables.txns) }
{
    let mut found = None;
    for t in 0..plan.tables.txns {
        if is_waiting(plan, w, usize::from(t), s) && is_sooner(w, t, found) {
            found = Some(t);
        }
    }
    found
}

// Whether t is in the queue of s.
pub fn is_queued(w: &Parts, t: usize, s: usize) -> bool
    requires { (t < 128) × (s < 16) }
    ensures { result ≡ queued_in w.now.delivered w.now.closed s t }
{
    w.delivered[t * 16 + s] && w.closed[t * 16 + s] == 0
}

// Whether t conflicts with one in the queue of s.
pub fn is_blocked(plan: &Plan, w: &Parts, t: usize, s: usize) -> bool
    requires laid { Laid plan.now }
    requires t_bound { (t < 128) × (s < 16) }
    ensures { Planned plan.now → t < plan.now.tables.txns → result ≡ blocked_of plan.now.tables w.now.delivered w.now.closed t s }
{
    (0..usize::from(plan.tables.txns))
        .rev()
        .any(|u| is_queued(w, u, s) && plan.is_conflict(t, u))
}

// Whether u, at place q, comes before t, at place p.
pub fn is_before(u: usize, q: Place, t: usize, p: Place) -> bool
    ensures { result ≡ precedes u q.0 t p.0 }
{
    (q, u) < (p, t)
}

// Whether none in the queue of s comes before t.
pub fn is_at_head(plan: &Plan, w: &Parts, t: usize, s: usize) -> bool
    requires laid { Laid plan.now }
    requires t_bound { (t < 128) × (s < 16) }
    ensures { result ≡ head_in w.now.places w.now.delivered w.now.closed plan.now.tables.txns t s }
{
    let p = w.places[t];
    !(0..usize::from(plan.tables.txns))
        .rev()
        .any(|u| is_queued(w, u, s) && is_before(u, w.places[u], t, p))
}

// How many transactions have a place.
pub fn submitted(plan: &Plan, w: &Parts) -> u32
    requires { Laid plan.now }
    ensures { (result ≡ submitted_in w.now.places plan.now.tables.txns) × (result ≤ 128) }
{
    // 128 at most.
    let n = usize::from(plan.tables.txns);
    w.places[..n].iter().filter(|p| p.0 != 0).count() as u32
}
