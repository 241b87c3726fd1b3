// The machine: the state of all sites, the steps of the protocol and their answers.
#![tactic(auto)]

ghost use Rattle.std.specs.Prelude.{◌≡◌, true, ◌≤◌, ◌<◌, get_or};
ghost use Rattle.parts.specs.Cells.{nobody};
ghost use Rattle.order.specs.Order.{codes};
ghost use Rattle.machine.specs.Rules.{next_at};
ghost use Rattle.machine.specs.Usable.{usable};
ghost use Rattle.machine.specs.Settle.{todo, settle_done};
ghost use Rattle.search.specs.Search.{seen, Close, Deliver, Nothing};
ghost use Rattle.search.specs.Known.{Knows};
ghost use Rattle.machine.specs.Steps.{step_of};
ghost use Rattle.machine.specs.Lent.{state_of, Ready, Takes, Turns, idle_after};
ghost use Rattle.machine.specs.Fresh.{start_of, fresh_of};

use numbers::{FileRefusal, StepRefusal};
use order::Order;
use parts::Parts;
use plan::Plan;
use search::{Known, Next};
use steps::{Answer, Place, Step, Version};
use tables::Tables;

#[derive(Clone, Copy)]
pub struct State {
    pub tables: Tables,
    pub parts: Parts,
}

// An answer with the state after the step.
#[derive(Clone, Copy)]
pub struct Stepped {
    pub answer: Result<Answer, StepRefusal>,
    pub next: State,
}

// Whether the reader would take the tables, and the state made of them; a refusal gives a state too.
#[derive(Clone, Copy)]
pub struct Fresh {
    pub outcome: Result<(), FileRefusal>,
    pub state: State,
}

// ---- SETTLE: the first step accepted among CLOSE, DELIVER and CARRY, until none is

// CLOSE of t at s, where that comes next, and what is known after it.
fn close_next(plan: &Plan, order: &Order, w: &mut Parts, known: &mut Known, t: u8, s: u8)
    requires { Ready plan.now w.old × (todo (state_of plan.now w.old) ≡ Close t s) }
    ensures { Turns (state_of plan.now w.old) 1 (state_of plan.now w.new) (codes order.now) known.old known.new }
{
    let _ = effects::close(plan, w, t, s);
    known::after_close(order, w, known, usize::from(s));
}

// DELIVER at s of who stands at position p, where that comes next, and what is known after it.
fn deliver_next(plan: &Plan, order: &Order, w: &mut Parts, known: &mut Known, s: u8, p: usize)
    requires ready { Ready plan.now w.old × ((todo (state_of plan.now w.old) ≡ Deliver s) × (get_or (codes order.now) p nobody ≡ next_at (state_of plan.now w.old) s)) }
    requires p_bound { p < 128 }
    ensures { Turns (state_of plan.now w.old) 1 (state_of plan.now w.new) (codes order.now) known.old known.new }
{
    if let Some(t) = order::standing(order, p) {
        let site = usize::from(s);
        let _ = effects::deliver_at(plan, w, t, site);
        known::after_deliver(plan, w, known, t, site, p);
    }
}

// What comes next, taken: one CLOSE, one DELIVER, or up to n CARRYs; the answer is how many steps.
fn turn(plan: &Plan, order: &Order, w: &mut Parts, known: &mut Known, n: u32) -> u32
    requires ready { Ready plan.now w.old × Knows plan.now.tables (seen w.old) (codes order.now) known.old }
    requires n_bound { 0 < n }
    ensures turns { Turns (state_of plan.now w.old) result (state_of plan.now w.new) (codes order.now) known.old known.new }
    ensures bound { result ≤ n }
{
    match search::next_step(plan, order, w, known) {
        Some(Next::Close { t, s }) => {
            close_next(plan, order, w, known, t, s);
            1
        }
        Some(Next::Deliver { s, at }) => {
            deliver_next(plan, order, w, known, s, at);
            1
        }
        Some(Next::Carry { t, .. }) => known::carry_on(plan, order, w, known, usize::from(t), n),
        None => 0,
    }
}

// SETTLE, which may be known to have nothing to do; the answer is how many steps.
fn take_settle(plan: &Plan, w: &mut Parts, idle: bool) -> u32
    requires { Ready plan.now w.old }
    ensures { let st = state_of plan.now w.old in (idle ≡ true → todo st ≡ Nothing) → (Ok (Answer.Settled result) ≡ (settle_done st).answer) × (state_of plan.now w.new ≡ (settle_done st).next) }
{
    if idle {
        return 0;
    }
    // Looked at for its length: who stands past its end is in no queue.
    let _delivered = &w.delivered;
    let order = order::order_of(plan, w);
    let mut known = known::first_known();
    let mut n: u32 = 0;
    // A turn takes up to as many steps as are left, so their number is not the loop's own.
    while n < 34816 {
        let k = turn(plan, &order, w, &mut known, 34816 - n);
        if k == 0 {
            break;
        }
        n += k;
    }
    n
}

// ---- any step

// A step on a state that it can run on; SETTLE may be known to have nothing to do.
pub fn take_in(plan: &Plan, w: &mut Parts, idle: bool, x: Step) -> Result<Answer, StepRefusal>
    requires { Ready plan.now w.old }
    ensures { (idle ≡ true → todo (state_of plan.now w.old) ≡ Nothing) → Takes (state_of plan.now w.old) x result (state_of plan.now w.new) }
{
    refusals::refusal(plan, w, x)?;
    Ok(match x {
        Step::Read { t, i, s } => effects::read_found(plan, w, t, i, s),
        Step::Submit(t) => effects::submit(plan, w, t),
        Step::Deliver(s) => effects::deliver(plan, w, s),
        Step::Carry { t, from, to } => effects::carry(w, t, from, to),
        Step::Close { t, s } => effects::close(plan, w, t, s),
        Step::Settle => Answer::Settled(take_settle(plan, w, idle)),
    })
}

// Whether SETTLE is known to have nothing to do after such an answer.
#[tactic(auto, unfolding(crate::specs::Lent::idle_after))]
pub fn idle_after<R: Copy>(idle: bool, answer: Result<Answer, R>) -> bool
    ensures { result ≡ idle_after idle answer }
{
    let Ok(answer) = answer else {
        return idle;
    };
    match answer {
        Answer::Settled(n) => n < 34816,
        Answer::Read(_, _) => idle,
        _ => false,
    }
}

impl State {
    // Whether a step can run on this state.
    #[tactic(auto, using(crate::proofs::Start::counts_txns), unfolding(crate::specs::Usable::usable))]
    fn is_usable(&self) -> bool
        ensures { result ≡ usable self.now }
    {
        rules::counts_fit(&self.tables)
            && rules::txns_fit(&self.tables)
            && rules::places_fit(&self.parts.places, self.tables.txns)
    }

    // ---- what a caller has: any state, any step, an answer

    #[tactic(auto, unfolding(crate::specs::Steps::step_of, numbers::specs::Numbers::step_refusal))]
    pub fn step(self, x: Step) -> Stepped
        ensures { result ≡ step_of self x }
    {
        if !self.is_usable() {
            return Stepped {
                answer: Err(StepRefusal::Unusable),
                next: self,
            };
        }
        let tables = self.tables;
        let mut parts = self.parts;
        let answer = take_in(&Plan::of(tables), &mut parts, false, x);
        Stepped {
            answer,
            next: State { tables, parts },
        }
    }

    pub fn read(self, t: u8, i: u8, s: u8) -> Stepped
        ensures { result ≡ step_of self (Step.Read t i s) }
    {
        self.step(Step::Read { t, i, s })
    }

    pub fn submit(self, t: u8) -> Stepped
        ensures { result ≡ step_of self (Step.Submit t) }
    {
        self.step(Step::Submit(t))
    }

    pub fn deliver(self, s: u8) -> Stepped
        ensures { result ≡ step_of self (Step.Deliver s) }
    {
        self.step(Step::Deliver(s))
    }

    pub fn carry(self, t: u8, from: u8, to: u8) -> Stepped
        ensures { result ≡ step_of self (Step.Carry t «from» to) }
    {
        self.step(Step::Carry { t, from, to })
    }

    pub fn close(self, t: u8, s: u8) -> Stepped
        ensures { result ≡ step_of self (Step.Close t s) }
    {
        self.step(Step::Close { t, s })
    }

    pub fn settle(self) -> Stepped
        ensures { result ≡ step_of self Step.Settle }
    {
        self.step(Step::Settle)
    }

    // ---- fresh

    // The state of these tables with nothing done.
    fn start(tables: Tables) -> State
        requires { tables.groups ≤ 8 }
        ensures { result ≡ start_of tables }
    {
        State {
            tables,
            parts: Parts {
                versions: [Version(1); 1024],
                values: tables.first_store(),
                recorded: [false; 1024],
                readversions: [Version(0); 1024],
                readvalues: [0; 1024],
                places: [Place(0); 128],
                delivered: [false; 2048],
                closed: [0; 2048],
                cast: [0; 2048],
                carried: [0; 2048],
            },
        }
    }

    // It takes its room for a while only.
    #[inline(never)]
    pub fn fresh(tables: Tables) -> Fresh
        ensures { result ≡ fresh_of tables }
    {
        let outcome = tables.judged();
        Fresh {
            outcome,
            state: State::start(if outcome.is_ok() {
                tables
            } else {
                tables::no_tables()
            }),
        }
    }
}
