// Reads a file from standard input, one byte past the limit, and writes its listing or the line of its refusal.
#![tactic(auto)]

use listing::MOST;
use std::io;
use std::io::Write;

fn main(rt: HostRuntime) -> io::Result<()> {
    let mut file = [0u8; 60001];
    let n = input::read_full(&mut rt.stdin(), &mut file)?;
    let mut out = input::zeros::<MOST>();
    let k = listing::print(&file[..n], &mut out);
    rt.stdout().write_all(&out[..k])
}
