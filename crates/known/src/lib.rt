// What SETTLE knows: at first, after each of its steps, and CARRY after CARRY.
#![tactic(auto)]

ghost use Rattle.std.specs.Prelude.{◌≡◌, List, ℕ, ◌+◌, ◌≤◌, ◌<◌, eqb, get_or, length};
ghost use Rattle.order.specs.Order.{codes, transactions, Ordered};
ghost use Rattle.plan.specs.Planned.{Laid, Planned};
ghost use Rattle.parts.specs.Cells.{nobody};
ghost use Rattle.parts.specs.Changed.{with_votes};
ghost use Rattle.search.specs.Search.{Seen, seen, closing, todo_in, Deliver, Carry};
ghost use Rattle.search.specs.Known.{closable_code, Knows};
ghost use Rattle.tables.specs.declared.Tables.{Tables};
ghost use Rattle.known.specs.After.{shared, joined, Closed, delivered_parts, carried_parts, Carried};

use order::Order;
use parts::Parts;
use plan::Plan;
use search::{Closable, Known, Positions};

// ---- at first

// At first nothing.
pub fn first_known() -> Known
    ensures { (T : Tables) (w : Seen) (order : List ℕ) → Ordered w.places T.txns order → length order ≡ 128 → length w.delivered ≡ 2048 → Knows T w order result }
{
    Known {
        closable: [Closable::Anyone; 16],
        stuck: [false; 16],
        next: Positions { at: [0; 16] },
        low: [0; 16],
        top: Positions { at: [128; 16] },
        passed: [0; 128],
        open: 0,
    }
}

// ---- after a step

// After a CLOSE at s: what it blocked may come, and the new head may be closed.
pub fn after_close(order: &Order, w: &Parts, known: &mut Known, s: usize)
    requires { s < 16 }
    ensures { Closed (codes order.now) known.old known.new s w.now.delivered w.now.closed × Closed (transactions order.now) known.old known.new s w.now.delivered w.now.closed }
{
    // Where the array is named, its length is known.
    let _ = &w.delivered;
    let q = known.top.at[s];
    let p = order::head_from(order, w, s, known.low[s], q);
    known.low[s] = p;
    known.stuck[s] = false;
    if known.closable[s] != Closable::Anyone {
        known.closable[s] = match order::head_number(order, p, q) {
            // What stands in an order is a byte.
            Some(t) => Closable::Only(t as u8),
            None => Closable::Nobody,
        };
    }
}

// Whether the vote of s on t was carried to one of n sites.
fn is_shared(w: &Parts, n: usize, t: usize, s: usize) -> bool
    requires { (n ≤ 16) × (t < 128) }
    ensures { result ≡ shared w.now.carried n t s }
{
    (0..n)
        .rev()
        .any(|a| keys::has(u64::from(w.carried[t * 16 + a]), s))
}

// Beside those, t may be closed now.
#[tactic(auto, unfolding(crate::specs::After::joined))]
fn joined(those: Closable, t: u8) -> Closable
    requires { t < 128 }
    ensures { closable_code result ≡ joined (closable_code those) t }
{
    match those {
        Closable::Nobody => Closable::Only(t),
        Closable::Only(u) if u == t || 128 <= u => Closable::Only(t),
        _ => Closable::Anyone,
    }
}

// After t, at position p, was delivered at s: its vote is new, and those who hold it already may judge t anew.
pub fn after_deliver(plan: &Plan, w: &Parts, known: &mut Known, t: usize, s: usize, p: usize)
    requires laid { Laid plan.now }
    requires t_bound { (t < 128) × ((s < 16) × (p < 128)) }
    ensures { (x : Seen) (order : List ℕ) (v : ℕ) → Planned plan.now → todo_in plan.now.tables x ≡ Deliver s → get_or order p nobody ≡ t → t < plan.now.tables.txns → x.carried ≡ w.now.carried → Knows plan.now.tables x order known.old → Knows plan.now.tables (delivered_parts x t s v) order known.new }
{
    known.stuck[s] = false;
    known.passed[t] = 0;
    known.low[s] = known.low[s].min(p);
    known.top.at[s] = known.top.at[s].max(p + 1);
    known.open = known.open.min(p);
    if is_shared(w, plan.sites, t, s) {
        known.closable = [Closable::Anyone; 16];
    } else {
        // A transaction is below 128.
        known.closable[s] = joined(known.closable[s], t as u8);
    }
}

// ---- CARRY after CARRY

// Whether t can be closed at s now that s was handed a vote; the head of the queue is found on the way.
fn closes_now(plan: &Plan, order: &Order, w: &Parts, known: &mut Known, t: usize, s: usize) -> bool
    requires laid { Laid plan.now }
    requires t_bound { (t < plan.now.tables.txns) × (s < 16) }
    ensures knows { Planned plan.now → s < plan.now.sites → Knows plan.now.tables (seen w.now) (codes order.now) known.old → Knows plan.now.tables (seen w.now) (codes order.now) known.new × (result ≡ eqb (closing plan.now.tables (seen w.now) t s) 0) }
    ensures kept { known.new ≡ record known.old { low = known.new.low } }
{
    if !queues::is_queued(w, t, s) {
        return false;
    }
    // Where the array is named, its length is known.
    let _ = &w.delivered;
    let q = known.top.at[s];
    let p = order::head_from(order, w, s, known.low[s], q);
    known.low[s] = p;
    search::can_close(plan, w, t, s, order::head_number(order, p, q))
}

// CARRY of votes on t, one after the other, until one can be closed by it, none is left or n were carried; the answer is how many were.
pub fn carry_on(
    plan: &Plan,
    order: &Order,
    w: &mut Parts,
    known: &mut Known,
    t: usize,
    n: u32,
) -> u32
    requires laid { Laid plan.now }
    requires t_bound { t < plan.now.tables.txns }
    ensures carried { («from» to : ℕ) → Planned plan.now → Knows plan.now.tables (seen w.old) (codes order.now) known.old → todo_in plan.now.tables (seen w.old) ≡ Carry t «from» to → Carried plan.now.tables (seen w.old) result w.new.carried × (Knows plan.now.tables (carried_parts (seen w.old) w.new.carried) (codes order.now) known.new × (0 < n → 0 < result)) }
    ensures kept { w.new ≡ with_votes w.old w.new.carried }
    ensures bound { result ≤ n }
{
    let mut k: u32 = 0;
    let mut q = known.passed[t];
    // What is left of the pairs is remembered, so the pair is not the loop's own.
    while q < 256 && k < n {
        let (f, s) = (q / 16, q % 16);
        if search::can_carry(plan, w, t, f, s) {
            rules::hand(&mut w.carried, t * 16 + s, f);
            k += 1;
            // A transaction is below 128.
            known.closable[s] = Closable::Only(t as u8);
            if closes_now(plan, order, w, known, t, s) {
                known.passed[t] = q + 1;
                return k;
            }
            known.closable[s] = Closable::Nobody;
        }
        q += 1;
    }
    known.passed[t] = q;
    k
}

#[cfg(test)]
mod tests {
    use super::*;
    use steps::{Place, Version};

    // At position 0 stands a number that is no transaction, at 1 the head of the queue of site 0.
    #[test]
    fn the_new_head_may_be_closed(rt: HostRuntime) {
        let mut order: Order = [None; 128];
        order[0] = Some(200);
        order[1] = Some(3);
        let mut w = Parts {
            versions: [Version(1); 1024],
            values: [0; 1024],
            recorded: [false; 1024],
            readversions: [Version(0); 1024],
            readvalues: [0; 1024],
            places: [Place(0); 128],
            delivered: [false; 2048],
            closed: [0; 2048],
            cast: [0; 2048],
            carried: [0; 2048],
        };
        w.delivered[48] = true;
        let mut known = first_known();
        known.closable[0] = Closable::Nobody;
        after_close(&order, &w, &mut known, 0);
        assert_eq!(rt; known.closable[0], Closable::Only(3));
        assert_eq!(rt; known.low[0], 1);
        w.closed[48] = 1;
        after_close(&order, &w, &mut known, 0);
        assert_eq!(rt; known.closable[0], Closable::Nobody);
    }
}
