// The tables of a setup: keys with their first values, groups of sites, transactions; and the questions asked of them.
#![tactic(auto)]

ghost use Rattle.std.specs.Prelude.{◌≡◌, ◌*◌, ◌≤◌, ◌<◌};
ghost use Rattle.bounded.specs.Bounded.{first_of, list_from};
ghost use Rattle.numbers.specs.Numbers.{file_answer};
ghost use Rattle.tables.specs.Empty.{no_tables};
ghost use Rattle.tables.specs.Lists.{in_row, twice, present, read_count, write_count};
ghost use Rattle.tables.specs.Sites.{site_count, site_keys};
ghost use Rattle.tables.specs.First.{first_at};
ghost use Rattle.tables.specs.Judge.{keys_refusal, size_refusal, group_refusal, count_refusal, key_refusal, txn_refusal, some_group, end_refusal, judge};

use numbers::FileRefusal;

// A list of keys: the first `count` of these.
#[derive(Clone, Copy, Debug, PartialEq, Eq)]
pub struct Keys {
    pub count: u8,
    pub keys: [u8; 8],
}

// How many sites a group has, and the set of keys that all of them hold.
#[derive(Clone, Copy, Debug, PartialEq, Eq)]
pub struct Group {
    pub sites: u8,
    pub keys: u64,
}

// The keys that a transaction reads, those that it writes, and the value of each of these. The values stand apart, since
// reads and writes are asked alike.
#[derive(Clone, Copy, Debug, PartialEq, Eq)]
pub struct Txn {
    pub reads: Keys,
    pub writes: Keys,
    pub values: [u32; 8],
}

// A count over its limit can be handed in and nothing is allocated, so counts stand beside arrays.
#[derive(Clone, Copy, Debug, PartialEq, Eq)]
pub struct Tables {
    // Keys 0 to keys - 1, and the first value of each.
    pub keys: u8,
    pub first: [u32; 64],
    // The first `groups` and `txns` of these.
    pub groups: u8,
    pub group: [Group; 8],
    pub txns: u8,
    pub txn: [Txn; 128],
}

pub fn no_tables() -> Tables
    ensures { result ≡ no_tables }
{
    let none = Keys {
        count: 0,
        keys: [0; 8],
    };
    Tables {
        keys: 0,
        first: [0; 64],
        groups: 0,
        group: [Group { sites: 0, keys: 0 }; 8],
        txns: 0,
        txn: [Txn {
            reads: none,
            writes: none,
            values: [0; 8],
        }; 128],
    }
}

impl Keys {
    // Whether k is among the first n.
    fn has(&self, n: usize, k: u8) -> bool
        requires { n ≤ 8 }
        ensures { result ≡ in_row self.now.keys n k }
    {
        (0..n).rev().any(|i| self.keys[i] == k)
    }

    // Whether one of them stands there twice.
    pub fn is_twice(&self) -> bool
        requires { self.now.count ≤ 8 }
        ensures { result ≡ twice self.now.keys self.now.count }
    {
        (0..usize::from(self.count))
            .rev()
            .any(|i| self.has(i, self.keys[i]))
    }

    // Whether each of them is below the number of keys.
    pub fn are_present(&self, keys: u8) -> bool
        requires { self.now.count ≤ 8 }
        ensures { result ≡ present self.now.keys self.now.count keys }
    {
        (0..usize::from(self.count))
            .rev()
            .all(|i| self.keys[i] < keys)
    }
}

// The refusal that a number of keys has.
fn keys_refusal(keys: u8) -> Result<(), FileRefusal>
    ensures { file_answer result ≡ keys_refusal keys }
{
    if keys == 0 || 64 < keys {
        return Err(FileRefusal::Length);
    }
    Ok(())
}

// The refusal that group g has, with n sites in all up to it.
pub fn group_refusal(keys: u8, g: u8, size: u8, n: usize, mask: u64) -> Result<(), FileRefusal>
    ensures { file_answer result ≡ size_refusal keys g size n mask }
{
    if 8 <= g || size == 0 || 16 < n || mask == 0 || !keys::keys_below(mask, keys) {
        return Err(FileRefusal::Range);
    }
    Ok(())
}

// The refusal that the counts of transaction t have.
pub fn count_refusal(t: u8, r: u8, w: u8) -> Result<(), FileRefusal>
    ensures { file_answer result ≡ count_refusal t r w }
{
    if 128 <= t || 8 < r || 8 < w || (r == 0 && w == 0) {
        return Err(FileRefusal::Range);
    }
    Ok(())
}

impl Tables {
    // How many sites the groups have.
    pub fn sites(&self) -> usize
        requires { self.now.groups ≤ 8 }
        ensures { (result ≡ site_count self.now) × (result ≤ 255 * self.now.groups) }
    {
        let mut sum: usize = 0;
        for g in 0..usize::from(self.groups) {
            sum += usize::from(self.group[g].sites);
        }
        sum
    }

    // The keys of site s, none where there is no such site.
    pub fn site_keys(&self, s: usize) -> u64
        requires { self.now.groups ≤ 8 }
        ensures { result ≡ site_keys self.now s }
    {
        let mut left = s;
        for g in 0..usize::from(self.groups) {
            let size = usize::from(self.group[g].sites);
            if left < size {
                return self.group[g].keys;
            }
            left -= size;
        }
        0
    }

    // Whether a group holds key k.
    fn some_group(&self, k: usize) -> bool
        requires { self.now.groups ≤ 8 }
        ensures { result ≡ some_group self.now.group self.now.groups k }
    {
        (0..usize::from(self.groups))
            .rev()
            .any(|g| keys::has(self.group[g].keys, k))
    }

    // The refusal that the keys of transaction t have.
    pub fn key_refusal(&self, t: usize) -> Result<(), FileRefusal>
        requires t_bound { t < 128 }
        requires t_bound_2 { (read_count self.now t ≤ 8) × (write_count self.now t ≤ 8) }
        ensures { file_answer result ≡ key_refusal self.now t }
    {
        let txn = &self.txn[t];
        if !txn.reads.are_present(self.keys) || !txn.writes.are_present(self.keys) {
            return Err(FileRefusal::Range);
        }
        if txn.reads.is_twice() || txn.writes.is_twice() {
            return Err(FileRefusal::Twice);
        }
        Ok(())
    }

    // The refusal that transaction t has.
    fn txn_refusal(&self, t: u8) -> Result<(), FileRefusal>
        ensures { file_answer result ≡ txn_refusal self.now t }
    {
        if 128 <= t {
            return Err(FileRefusal::Range);
        }
        let at = usize::from(t);
        count_refusal(t, self.txn[at].reads.count, self.txn[at].writes.count)?;
        self.key_refusal(at)
    }

    // The first refusal among the groups.
    fn groups_refusal(&self) -> Result<(), FileRefusal>
        ensures { file_answer result ≡ first_of self.now.groups (group_refusal self.now) }
    {
        let mut n: usize = 0;
        for g in 0..self.groups {
            if 8 <= g {
                return Err(FileRefusal::Range);
            }
            let group = &self.group[usize::from(g)];
            n += usize::from(group.sites);
            group_refusal(self.keys, g, group.sites, n, group.keys)?;
        }
        Ok(())
    }

    // The first refusal among the transactions.
    fn txns_refusal(&self) -> Result<(), FileRefusal>
        ensures { file_answer result ≡ first_of self.now.txns (txn_refusal self.now) }
    {
        for t in 0..self.txns {
            self.txn_refusal(t)?;
        }
        Ok(())
    }

    // The refusal that END has: a key that no group holds.
    pub fn end_refusal(&self) -> Result<(), FileRefusal>
        requires { self.now.groups ≤ 8 }
        ensures { file_answer result ≡ end_refusal self.now }
    {
        if (0..usize::from(self.keys))
            .rev()
            .all(|k| self.some_group(k))
        {
            return Ok(());
        }
        Err(FileRefusal::Unheld)
    }

    // The refusal that the reader would give for these tables.
    pub fn judged(&self) -> Result<(), FileRefusal>
        ensures { file_answer result ≡ judge self.now }
    {
        keys_refusal(self.keys)?;
        if self.groups == 0 {
            return Err(FileRefusal::Misplaced);
        }
        self.groups_refusal()?;
        self.txns_refusal()?;
        self.end_refusal()
    }

    // ---- the first store

    // The first values, of site s and key k at s * 64 + k, where s holds k.
    pub fn first_store(&self) -> [u32; 1024]
        requires { self.now.groups ≤ 8 }
        ensures { result ≡ list_from 0 1024 (first_at self.now) }
    {
        let mut values = [0u32; 1024];
        for j in 0..1024 {
            let k = j % 64;
            if keys::has(self.site_keys(j / 64), k) {
                values[j] = self.first[k];
            }
        }
        values
    }
}
