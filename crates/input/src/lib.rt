// Input read whole: a read may give fewer bytes than there is room for.

#![tactic(auto)]

ghost use Rattle.std.specs.Prelude.{◌≡◌, ◌<◌, length, take, IfOk, IfErr};
ghost use Rattle.std.specs.Io.{ReadsAtMost};
ghost use Rattle.std.specs.Io.KnownBytes.{Consumes, IsAtEnd};

use std::io;
use std::io::Read;

// Reads until `to` is full or the input ends, and answers how many bytes it put at the start of
// `to`.
pub fn read_full<R: Read>(input: &mut R, to: &mut [u8]) -> io::Result<usize>
    ensures ok { ReadsAtMost result to.new }
    ensures err { IfErr result (λ e. length to.new ≡ length to.old) }
    ensures bytes { IfOk result (λ n. Consumes (R.remaining input.old) (R.remaining input.new) (take n to.new)) }
    ensures end { IfOk result (λ n. n < length to.new → IsAtEnd (R.remaining input.new)) }
{
    let mut done = 0;
    while done < to.len() {
        let n = input.read(&mut to[done..])?;
        if n == 0 {
            break;
        }
        done += n;
    }
    Ok(done)
}
