// Lists the stored files on standard input, each after its length in two bytes, one listing after the other.
#![tactic(auto)]

ghost use Rattle.std.specs.Prelude.{◌≤◌};

use listing::MOST;
use std::io;
use std::io::Write;

// Room for a file of any length in two bytes.
const LONGEST_FILE: usize = 65535;

// The next n bytes, as a file.
fn list_next(rt: &HostRuntime, n: usize) -> io::Result<()>
    requires { n ≤ 65535 }
{
    let mut file = input::zeros::<LONGEST_FILE>();
    let k = input::read_full(&mut rt.stdin(), &mut file[..n])?;
    let mut out = input::zeros::<MOST>();
    let end = listing::print(&file[..k], &mut out);
    rt.stdout().write_all(&out[..end])
}

// At most 10,000 files.
fn main(rt: HostRuntime) -> io::Result<()> {
    for _ in 0..10000 {
        let mut head = [0u8; 2];
        let got = input::read_full(&mut rt.stdin(), &mut head)?;
        if got < 2 {
            return Ok(());
        }
        list_next(&rt, usize::from(u16::from_be_bytes(head)))?;
    }
    Ok(())
}
