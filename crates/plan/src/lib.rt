// The plan of the tables: beside them the sets of keys and sites by which the protocol's questions are answered.
#![tactic(auto)]

ghost use Rattle.std.specs.Prelude.{◌≡◌, ◌&&◌, ℕ, ◌+◌, ◌*◌, ◌≤◌, ◌<◌, ◌||◌, true, ltb, get_or};
ghost use Rattle.keys.specs.Keys.{member};
ghost use Rattle.tables.specs.Lists.{row_at, in_row, read_count, read_key, write_count, write_key, write_value, conflict};
ghost use Rattle.tables.specs.Concern.{votes, concerns, local};
ghost use Rattle.tables.specs.Fits.{Fits};
ghost use Rattle.plan.specs.Planned.{Laid, Planned};

use std::array;
use tables::{Keys, Tables};

// That its counts and keys fit (`Laid`) and its sets are those of the tables (`Planned`) are clauses and no part of the
// type: some functions answer on any plan. It is lent beside the parts of a state, since those may change.
#[derive(Clone, Copy)]
pub struct Plan {
    pub tables: Tables,
    pub sites: usize,
    // The keys of each site, of which the first `sites` are, and the sites that hold each key.
    pub site_sets: [u64; 16],
    pub holders: [u64; 64],
    // The keys that each transaction reads, and writes.
    pub read_sets: [u64; 128],
    pub write_sets: [u64; 128],
}

// A list of keys as a set.
fn row_set(row: &Keys) -> u64
    requires bound { row.now.count ≤ 8 }
    requires by_index { (i : ℕ) → i < row.now.count → row_at row.now.keys i < 64 }
    ensures { (k : ℕ) → member result k ≡ in_row row.now.keys row.now.count k }
{
    let mut m = 0;
    for i in 0..usize::from(row.count) {
        m = keys::with(m, usize::from(row.keys[i]));
    }
    m
}

// The set of a list of keys, where it is one that counts; else none.
fn set_of(counts: bool, row: &Keys) -> u64
    requires bound { counts ≡ true → row.now.count ≤ 8 }
    requires by_index { counts ≡ true → (i : ℕ) → i < row.now.count → row_at row.now.keys i < 64 }
    ensures { counts ≡ true → (k : ℕ) → member result k ≡ in_row row.now.keys row.now.count k }
{
    if counts { row_set(row) } else { 0 }
}

// Of n sites, the set of those that hold key k.
fn holder_set(site_sets: &[u64; 16], n: usize, k: usize) -> u64
    requires { (n ≤ 16) × (k < 64) }
    ensures { (s : ℕ) → member result s ≡ (ltb s n && member (get_or site_sets.now s 0) k) }
{
    let mut m = 0;
    for s in 0..n {
        if keys::has(site_sets[s], k) {
            m = keys::with(m, s);
        }
    }
    m
}

// Of n sites, the sets of those that hold each key.
fn holder_sets(site_sets: &[u64; 16], n: usize) -> [u64; 64]
    requires { n ≤ 16 }
    ensures { (k s : ℕ) → k < 64 → member (get_or result k 0) s ≡ (ltb s n && member (get_or site_sets.now s 0) k) }
{
    array::from_fn(|k| holder_set(site_sets, n, k))
}

impl Plan {
    // The plan of tables whose counts and keys are within their limits.
    pub fn of(tables: Tables) -> Plan
        requires fits { Fits tables }
        requires by_index { (t i : ℕ) → t < tables.txns → i < read_count tables t → read_key tables t i < 64 }
        requires by_index_2 { (t i : ℕ) → t < tables.txns → i < write_count tables t → write_key tables t i < 64 }
        ensures { (result.tables ≡ tables) × Planned result }
    {
        let n = usize::from(tables.txns);
        let sites = tables.sites();
        let site_sets = array::from_fn(|s| tables.site_keys(s));
        Plan {
            tables,
            sites,
            site_sets,
            holders: holder_sets(&site_sets, sites),
            read_sets: array::from_fn(|t| set_of(t < n, &tables.txn[t].reads)),
            write_sets: array::from_fn(|t| set_of(t < n, &tables.txn[t].writes)),
        }
    }

    // The keys of t.
    fn keys_of(&self, t: usize) -> u64
        requires { t < 128 }
        ensures { (k : ℕ) → member result k ≡ (member (get_or self.now.read_sets t 0) k || member (get_or self.now.write_sets t 0) k) }
    {
        keys::union(self.read_sets[t], self.write_sets[t])
    }

    // Whether s is in R(t).
    pub fn is_concerned(&self, t: usize, s: usize) -> bool
        requires { (t < 128) × (s < 16) }
        ensures { Planned self.now → t < self.now.tables.txns → result ≡ concerns self.now.tables t s }
    {
        keys::meet(self.keys_of(t), self.site_sets[s])
    }

    // Whether s is in V(t).
    pub fn is_voter(&self, t: usize, s: usize) -> bool
        requires { (t < 128) × (s < 16) }
        ensures { Planned self.now → t < self.now.tables.txns → result ≡ votes self.now.tables t s }
    {
        keys::meet(self.read_sets[t], self.site_sets[s])
    }

    // Whether one of t and u reads a key that the other writes.
    pub fn is_conflict(&self, t: usize, u: usize) -> bool
        requires { (t < 128) × (u < 128) }
        ensures { Planned self.now → t < self.now.tables.txns → u < self.now.tables.txns → result ≡ conflict self.now.tables t u }
    {
        keys::meet(self.read_sets[t], self.write_sets[u])
            || keys::meet(self.read_sets[u], self.write_sets[t])
    }

    // Whether each site of R(t) holds all keys of t.
    pub fn is_local(&self, t: usize) -> bool
        requires laid { Laid self.now }
        requires t_bound { t < 128 }
        ensures { Planned self.now → t < self.now.tables.txns → result ≡ local self.now.tables t }
    {
        let all = self.keys_of(t);
        (0..self.sites).rev().all(|s| !keys::meet(all, self.site_sets[s])
            || keys::is_inside(all, self.site_sets[s]))
    }

    // ---- the lists of a transaction

    // No caller asks for reads or writes as the case may be, so one of each, told which, would be no plainer.

    // How many keys t reads, and writes.
    pub fn reads(&self, t: usize) -> usize
        requires { t < 128 }
        ensures { result ≡ read_count self.now.tables t }
    {
        usize::from(self.tables.txn[t].reads.count)
    }

    pub fn writes(&self, t: usize) -> usize
        requires { t < 128 }
        ensures { result ≡ write_count self.now.tables t }
    {
        usize::from(self.tables.txn[t].writes.count)
    }

    // The i-th key that t reads.
    pub fn read_key(&self, t: usize, i: usize) -> usize
        requires { (t < 128) × (i < 8) }
        ensures { (result ≡ read_key self.now.tables t i) × (result < 256) }
    {
        usize::from(self.tables.txn[t].reads.keys[i])
    }

    // The i-th key that t writes, and its value.
    pub fn write_key(&self, t: usize, i: usize) -> usize
        requires { (t < 128) × (i < 8) }
        ensures { (result ≡ write_key self.now.tables t i) × (result < 256) }
    {
        usize::from(self.tables.txn[t].writes.keys[i])
    }

    pub fn given(&self, t: usize, i: usize) -> u32
        requires { (t < 128) × (i < 8) }
        ensures { result ≡ write_value self.now.tables t i }
    {
        self.tables.txn[t].values[i]
    }
}
