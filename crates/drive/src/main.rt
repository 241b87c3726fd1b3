// Drives the lettered cases' steps through the machine, and prints each answer's three numbers.
#![tactic(auto)]

use machine::State;
use std::io;
use steps::{Numbers, Step};
use tables::{Group, Tables};

// The state after a step, whose answer is printed.
fn go(rt: &HostRuntime, st: State, x: Step) -> io::Result<State> {
    let stepped = st.step(x);
    let n = Numbers::from(stepped.answer);
    println!(rt; "{} {} {}", n.code, n.first, n.second)?;
    Ok(stepped.next)
}

// Keys 0 to 2 with the first values 10, 20, 30.
fn keys() -> Tables {
    let mut t = tables::no_tables();
    t.keys = 3;
    t.first[0] = 10;
    t.first[1] = 20;
    t.first[2] = 30;
    t
}

// Case G: the sites hold {0, 1}, {1, 2} and {0, 2}; both transactions read key 0 and write it and another.
fn case_g(rt: &HostRuntime) -> io::Result<()> {
    let mut t = keys();
    t.groups = 3;
    t.group[0] = Group { sites: 1, keys: 3 };
    t.group[1] = Group { sites: 1, keys: 6 };
    t.group[2] = Group { sites: 1, keys: 5 };
    t.txns = 2;
    t.txn[0].reads.count = 1;
    t.txn[0].writes.count = 2;
    t.txn[0].writes.keys[1] = 1;
    t.txn[0].values[0] = 11;
    t.txn[0].values[1] = 21;
    t.txn[1].reads.count = 1;
    t.txn[1].writes.count = 2;
    t.txn[1].writes.keys[1] = 2;
    t.txn[1].values[0] = 12;
    t.txn[1].values[1] = 31;
    let mut st = State::fresh(t).state;
    st = go(rt, st, Step::Read { t: 0, i: 0, s: 0 })?;
    st = go(rt, st, Step::Read { t: 1, i: 0, s: 2 })?;
    st = go(rt, st, Step::Submit(1))?;
    st = go(rt, st, Step::Submit(0))?;
    st = go(rt, st, Step::Settle)?;
    go(rt, st, Step::Close { t: 0, s: 1 })?;
    Ok(())
}

// Case I: site 0 holds keys 0 and 2, site 1 holds 1; t0 reads 1 and writes 0, t1 reads 2, t2 writes 2.
fn case_i(rt: &HostRuntime) -> io::Result<()> {
    let mut t = keys();
    t.groups = 2;
    t.group[0] = Group { sites: 1, keys: 5 };
    t.group[1] = Group { sites: 1, keys: 2 };
    t.txns = 3;
    t.txn[0].reads.count = 1;
    t.txn[0].reads.keys[0] = 1;
    t.txn[0].writes.count = 1;
    t.txn[0].values[0] = 11;
    t.txn[1].reads.count = 1;
    t.txn[1].reads.keys[0] = 2;
    t.txn[2].writes.count = 1;
    t.txn[2].writes.keys[0] = 2;
    t.txn[2].values[0] = 31;
    let mut st = State::fresh(t).state;
    st = go(rt, st, Step::Read { t: 1, i: 0, s: 0 })?;
    st = go(rt, st, Step::Submit(2))?;
    st = go(rt, st, Step::Deliver(0))?;
    st = go(rt, st, Step::Close { t: 2, s: 0 })?;
    st = go(rt, st, Step::Read { t: 0, i: 0, s: 1 })?;
    st = go(rt, st, Step::Submit(0))?;
    st = go(rt, st, Step::Submit(1))?;
    st = go(rt, st, Step::Deliver(0))?;
    st = go(rt, st, Step::Deliver(0))?;
    st = go(rt, st, Step::Close { t: 1, s: 0 })?;
    st = go(rt, st, Step::Close { t: 0, s: 0 })?;
    go(rt, st, Step::Settle)?;
    Ok(())
}

fn main(rt: HostRuntime) -> io::Result<()> {
    case_g(&rt)?;
    case_i(&rt)
}
