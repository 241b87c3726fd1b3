// Why a step is refused, asked of the plan of the tables and of the parts of a state.
#![tactic(auto)]

ghost use Rattle.std.specs.Prelude.{◌≡◌, Bool, List, ◌<◌};
ghost use Rattle.numbers.specs.Numbers.{step_answer};
ghost use Rattle.plan.specs.Planned.{Laid, Planned};
ghost use Rattle.queues.specs.Queue.{head_in};
ghost use Rattle.steps.specs.declared.Place.{Place};
ghost use Rattle.refusals.specs.Refusals.{read_refusal_in, submit_refusal_in, deliver_refusal_in, vote_refusal_in, carry_refusal_in, verdict_refusal_in, close_refusal_in, refusal_in};

use numbers::StepRefusal;
use parts::Parts;
use plan::Plan;
use steps::{Step, Verdict};

// ---- READ and SUBMIT

#[tactic(auto, unfolding(crate::specs::Refusals::read_refusal_in))]
fn read_refusal(plan: &Plan, w: &Parts, t: u8, i: u8, s: u8) -> Result<(), StepRefusal>
    requires { Laid plan.now }
    ensures { Planned plan.now → step_answer result ≡ read_refusal_in plan.now.tables w.now.recorded t i s }
{
    if plan.tables.txns <= t {
        return Err(StepRefusal::NoTransaction);
    }
    let at = usize::from(t);
    let read = usize::from(i);
    if plan.reads(at) <= read {
        return Err(StepRefusal::NoRead);
    }
    let site = usize::from(s);
    if plan.sites <= site {
        return Err(StepRefusal::NoSite);
    }
    if !keys::has(plan.site_sets[site], plan.read_key(at, read)) {
        return Err(StepRefusal::NotThere);
    }
    if w.recorded[at * 8 + read] {
        return Err(StepRefusal::Done);
    }
    Ok(())
}

#[tactic(auto, unfolding(crate::specs::Refusals::submit_refusal_in))]
fn submit_refusal(plan: &Plan, w: &Parts, t: u8) -> Result<(), StepRefusal>
    requires { Laid plan.now }
    ensures { Planned plan.now → step_answer result ≡ submit_refusal_in plan.now.tables w.now.places w.now.recorded t }
{
    if plan.tables.txns <= t {
        return Err(StepRefusal::NoTransaction);
    }
    let at = usize::from(t);
    if 0 < w.places[at].0 {
        return Err(StepRefusal::Done);
    }
    if !rules::is_recorded(w, plan.reads(at), at) {
        return Err(StepRefusal::Missing);
    }
    Ok(())
}

// ---- DELIVER

#[tactic(auto, unfolding(crate::specs::Refusals::deliver_refusal_in))]
fn deliver_refusal(plan: &Plan, w: &Parts, s: u8) -> Result<(), StepRefusal>
    requires { Laid plan.now }
    ensures { Planned plan.now → step_answer result ≡ deliver_refusal_in plan.now.tables w.now.places w.now.delivered w.now.closed s }
{
    let site = usize::from(s);
    if plan.sites <= site {
        return Err(StepRefusal::NoSite);
    }
    let Some(t) = queues::next_at(plan, w, site) else {
        return Err(StepRefusal::NothingToDeliver);
    };
    if queues::is_blocked(plan, w, usize::from(t), site) {
        return Err(StepRefusal::Conflict);
    }
    Ok(())
}

// ---- CARRY

// What refuses the carrying of a vote between two sites, the second of them of R(t).
#[tactic(auto, unfolding(crate::specs::Refusals::vote_refusal_in))]
fn vote_refusal(plan: &Plan, w: &Parts, t: usize, f: usize, s: usize) -> Result<(), StepRefusal>
    requires laid { Laid plan.now }
    requires t_bound { (t < plan.now.tables.txns) × ((f < 16) × (s < 16)) }
    ensures { Planned plan.now → step_answer result ≡ vote_refusal_in plan.now.tables w.now.cast w.now.carried t f s }
{
    if f == s || w.cast[t * 16 + f] == 0 || plan.is_local(t) {
        return Err(StepRefusal::NoVote);
    }
    if rules::has_vote(w.cast[t * 16 + s], w.carried[t * 16 + s], s, f) {
        return Err(StepRefusal::Done);
    }
    Ok(())
}

#[tactic(auto, unfolding(crate::specs::Refusals::carry_refusal_in))]
pub fn carry_refusal(plan: &Plan, w: &Parts, t: u8, from: u8, to: u8) -> Result<(), StepRefusal>
    requires { Laid plan.now }
    ensures { Planned plan.now → step_answer result ≡ carry_refusal_in plan.now.tables w.now.cast w.now.carried t «from» to }
{
    if plan.tables.txns <= t {
        return Err(StepRefusal::NoTransaction);
    }
    let f = usize::from(from);
    let s = usize::from(to);
    if plan.sites <= f || plan.sites <= s {
        return Err(StepRefusal::NoSite);
    }
    let at = usize::from(t);
    if !plan.is_concerned(at, s) {
        return Err(StepRefusal::NotThere);
    }
    vote_refusal(plan, w, at, f, s)
}

// ---- CLOSE

// What refuses the closing of one in the queue, where head says whether it is at the head.
#[tactic(auto, unfolding(crate::specs::Refusals::verdict_refusal_in))]
pub fn verdict_refusal(
    plan: &Plan,
    w: &Parts,
    t: usize,
    s: usize,
    head: bool,
) -> Result<(), StepRefusal>
    requires laid { Laid plan.now }
    requires t_bound { (t < plan.now.tables.txns) × (s < 16) }
    ensures { (places : List Place) (delivered : List Bool) → Planned plan.now → head ≡ head_in places delivered w.now.closed plan.now.tables.txns t s → step_answer result ≡ verdict_refusal_in plan.now.tables w.now.versions places delivered w.now.closed w.now.cast w.now.carried t s }
{
    match rules::verdict(plan, w, t, s) {
        None => Err(StepRefusal::NoVerdict),
        Some(Verdict::Abort) => Ok(()),
        Some(Verdict::Commit) if !head => Err(StepRefusal::NotHead),
        Some(Verdict::Commit) if !rules::has_room(plan, w, t, s) => Err(StepRefusal::LastVersion),
        Some(Verdict::Commit) => Ok(()),
    }
}

#[tactic(auto, unfolding(crate::specs::Refusals::close_refusal_in))]
fn close_refusal(plan: &Plan, w: &Parts, t: u8, s: u8) -> Result<(), StepRefusal>
    requires { Laid plan.now }
    ensures { Planned plan.now → step_answer result ≡ close_refusal_in plan.now.tables w.now.versions w.now.places w.now.delivered w.now.closed w.now.cast w.now.carried t s }
{
    if plan.tables.txns <= t {
        return Err(StepRefusal::NoTransaction);
    }
    let at = usize::from(t);
    let site = usize::from(s);
    if plan.sites <= site {
        return Err(StepRefusal::NoSite);
    }
    if !plan.is_concerned(at, site) {
        return Err(StepRefusal::NotThere);
    }
    if 0 < w.closed[at * 16 + site] {
        return Err(StepRefusal::Done);
    }
    if !w.delivered[at * 16 + site] {
        return Err(StepRefusal::NotDelivered);
    }
    verdict_refusal(plan, w, at, site, queues::is_at_head(plan, w, at, site))
}

// ---- any step

#[tactic(auto, unfolding(crate::specs::Refusals::refusal_in))]
pub fn refusal(plan: &Plan, w: &Parts, x: Step) -> Result<(), StepRefusal>
    requires { Laid plan.now }
    ensures { Planned plan.now → step_answer result ≡ refusal_in plan.now.tables w.now.versions w.now.places w.now.recorded w.now.delivered w.now.closed w.now.cast w.now.carried x }
{
    match x {
        Step::Read { t, i, s } => read_refusal(plan, w, t, i, s),
        Step::Submit(t) => submit_refusal(plan, w, t),
        Step::Deliver(s) => deliver_refusal(plan, w, s),
        Step::Carry { t, from, to } => carry_refusal(plan, w, t, from, to),
        Step::Close { t, s } => close_refusal(plan, w, t, s),
        Step::Settle => Ok(()),
    }
}
