// Sets as the bits of one number: keys are below 64, sites below 16. They stay numbers, as GROUP has them: a struct would
// be opened by each store.
#![tactic(auto)]

ghost use Rattle.std.specs.Prelude.{◌≡◌, false, ◌||◌, cond, ℕ, ◌<◌, ◌≤◌, eqb};
ghost use Rattle.keys.specs.Keys.{member, within, adding, meeting, including};

pub fn has(m: u64, k: usize) -> bool
    ensures { result ≡ member m k }
{
    k < 64 && (m >> k) % 2 == 1
}

// Whether each key of m is below n.
pub fn keys_below(m: u64, n: u8) -> bool
    ensures { result ≡ within m n }
{
    64 <= n || m >> n == 0
}

pub fn with(m: u64, k: usize) -> u64
    requires { k < 64 }
    ensures set { result ≡ cond (member m k) m (adding m k) }
    ensures members { (j : ℕ) → member result j ≡ (eqb k j || member m j) }
    ensures narrow { m < 65536 → k < 16 → result < 65536 }
{
    m | (1u64 << k)
}

pub fn without(m: u64, k: usize) -> u64
    requires { k < 64 }
    ensures members { (f : ℕ) → member result f ≡ cond (eqb f k) false (member m f) }
    ensures narrow { result ≤ m }
{
    m & !(1u64 << k)
}

pub fn union(a: u64, b: u64) -> u64
    ensures { (k : ℕ) → member result k ≡ (member a k || member b k) }
{
    a | b
}

// Whether two sets have a key in common.
pub fn meet(a: u64, b: u64) -> bool
    ensures { result ≡ meeting a b }
{
    a & b != 0
}

// Whether each key of a is in b.
pub fn is_inside(a: u64, b: u64) -> bool
    ensures { result ≡ including a b }
{
    a & b == a
}
