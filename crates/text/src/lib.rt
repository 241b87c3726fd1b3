// Lines of a word and decimal numbers, written into a lent buffer from a place on. A byte past the
// buffer's end is dropped, and the writer stands at the next place all the same.
#![tactic(auto)]

ghost use Rattle.std.specs.Prelude.{◌≡◌, [], ◌∷◌, ◌+◌, ◌*◌, ◌^◌, ◌≤◌, ◌<◌, length};
ghost use Rattle.text.specs.Text.{digits_of, line_of};
ghost use Rattle.text.specs.Wrote.{Wrote, Writes};

// A buffer and the next place in it. How much more must fit differs from call to call, so each asks for it.
pub struct Writer<'a> {
    out: &'a mut [u8],
    at: usize,
}

impl<'a> Writer<'a> {
    pub fn new(out: &'a mut [u8], at: usize) -> Writer<'a>
        ensures lent { result.out.ghost_name ≡ out.entry.ghost_name }
        ensures holds { (result.out.now ≡ out.old) × (result.at ≡ at) }
    {
        Writer { out, at }
    }

    // The next place; the buffer is given back.
    pub fn end(self) -> usize
        ensures place { result ≡ self.entry.at }
        ensures left { self.exit.0.now ≡ self.entry.out.now }
    {
        let Writer { out: _, at } = self;
        at
    }

    pub fn byte(&mut self, b: u8)
        requires { self.old.at + 1 < 2 ^ 64 }
        ensures { Writes self.old self.new (b ∷ []) }
    {
        self.at = put_byte(self.out, self.at, b);
    }

    pub fn number(&mut self, n: u32)
        requires { self.old.at + 10 < 2 ^ 64 }
        ensures wrote { Writes self.old self.new (digits_of n) }
        ensures upper_bound { self.new.at ≤ self.old.at + 10 }
    {
        self.at = put_number(self.out, self.at, n);
    }

    pub fn text(&mut self, s: &[u8])
        requires { self.old.at + length s.now < 2 ^ 64 }
        ensures { Writes self.old self.new s.now }
    {
        self.at = put_text(self.out, self.at, s);
    }

    // A space and a number.
    pub fn field(&mut self, n: u32)
        requires { self.old.at + 11 < 2 ^ 64 }
        ensures wrote { Writes self.old self.new (32 ∷ digits_of n) }
        ensures upper_bound { self.new.at ≤ self.old.at + 11 }
    {
        self.at = put_field(self.out, self.at, n);
    }

    // A word, its numbers, a line feed.
    pub fn line(&mut self, word: &[u8], ns: &[u32])
        requires { self.old.at + length word.now + 11 * length ns.now + 1 < 2 ^ 64 }
        ensures wrote { Writes self.old self.new (line_of word.now ns.now) }
        ensures upper_bound { self.new.at ≤ self.old.at + length word.now + 11 * length ns.now + 1 }
    {
        self.at = put_line(self.out, self.at, word, ns);
    }
}

// ---- the writes themselves: each answers the next place, so a loop need not store it

fn put_byte(out: &mut [u8], at: usize, b: u8) -> usize
    requires { at + 1 < 2 ^ 64 }
    ensures { Wrote out.old at out.new result (b ∷ []) }
{
    let next = at + 1;
    if at < out.len() {
        out[at] = b;
    }
    next
}

// The last digit after the others.
fn put_number(out: &mut [u8], at: usize, n: u32) -> usize
    requires { at + 10 < 2 ^ 64 }
    ensures wrote { Wrote out.old at out.new result (digits_of n) }
    ensures upper_bound { result ≤ at + 10 }
{
    if n < 10 {
        return put_byte(out, at, digit(n));
    }
    let next = put_number(out, at, n / 10);
    put_byte(out, next, digit(n % 10))
}

fn digit(n: u32) -> u8
    requires { n < 10 }
    ensures { result ≡ 48 + n }
{
    b'0' + n as u8
}

fn put_text(out: &mut [u8], at: usize, s: &[u8]) -> usize
    requires { at + length s.now < 2 ^ 64 }
    ensures { Wrote out.old at out.new result s.now }
{
    let mut next = at;
    for &b in s {
        next = put_byte(out, next, b);
    }
    next
}

fn put_field(out: &mut [u8], at: usize, n: u32) -> usize
    requires { at + 11 < 2 ^ 64 }
    ensures wrote { Wrote out.old at out.new result (32 ∷ digits_of n) }
    ensures upper_bound { result ≤ at + 11 }
{
    let next = put_byte(out, at, b' ');
    put_number(out, next, n)
}

fn put_line(out: &mut [u8], at: usize, word: &[u8], ns: &[u32]) -> usize
    requires { at + length word.now + 11 * length ns.now + 1 < 2 ^ 64 }
    ensures wrote { Wrote out.old at out.new result (line_of word.now ns.now) }
    ensures upper_bound { result ≤ at + length word.now + 11 * length ns.now + 1 }
{
    let mut next = put_text(out, at, word);
    for &n in ns {
        next = put_field(out, next, n);
    }
    put_byte(out, next, b'\n')
}
