// Reads into a lent buffer until it is full or there is no more.
#![tactic(auto)]

ghost use Rattle.std.specs.Prelude.{◌≡◌, ◌<◌, ◌≤◌, length, take, IfOk, All};
ghost use Rattle.std.specs.Io.KnownBytes.{Consumes, IsAtEnd};

use std::io;
use std::io::Read;

// How many bytes were read: those that the input gave, fewer than there is room for only where it ends.
pub fn read_full<R: Read>(input: &mut R, buf: &mut [u8]) -> io::Result<usize>
    ensures bound { IfOk result (λ n. n ≤ length buf.old) }
    ensures bytes { IfOk result (λ n. Consumes (R.remaining input.old) (R.remaining input.new) (take n buf.new)) }
    ensures end { IfOk result (λ n. n < length buf.old → IsAtEnd (R.remaining input.new)) }
{
    let mut at = 0;
    // A read may give fewer bytes than there is room for: how many turns there are is known only at the end.
    while at < buf.len() {
        let n = input.read(&mut buf[at..])?;
        if n == 0 {
            return Ok(at);
        }
        at += n;
    }
    Ok(at)
}

// A buffer of N zeros, made in a function of its own: its caller's proof is told its length.
pub fn zeros<const N: usize>() -> [u8; N]
    ensures room { length result ≡ N }
    ensures zeros { All (λ b. b ≡ 0) result }
{
    [0; N]
}
