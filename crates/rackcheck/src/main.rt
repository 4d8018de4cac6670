// The checking program: reads an image from standard input and prints what is to be said of it.
#![tactic(auto)]

ghost use Rattle.std.specs.Prelude.{◌≤◌, ◌<◌, length, take, IfOk};
ghost use Rattle.std.specs.Io.KnownBytes.{Consumes, IsAtEnd};

use std::io;
use std::io::Read;

fn main(rt: HostRuntime) -> io::Result<()> {
    // One byte more than an image may have, so that one byte too many is seen.
    let mut buffer = [255u8; 4097];
    let n = read_full(&mut rt.stdin(), &mut buffer)?;
    let mut text = [0u8; 4402];
    let end = report::report(&buffer[..n], &mut text);
    rt.write_all(&text[..end])
}

// Reads until the buffer is full or the input ends, and says how many bytes it put at the buffer's start. What the input
// has beyond these is left unread. Each program that reads has this function: a library's public function would owe the
// statement that its contract allows one result, and reading has more.
fn read_full<R: Read>(input: &mut R, buf: &mut [u8]) -> io::Result<usize>
    ensures inside { IfOk result (λ n. n ≤ length buf.new) }
    ensures bytes { IfOk result (λ n. Consumes (R.remaining input.old) (R.remaining input.new) (take n buf.new)) }
    ensures whole { IfOk result (λ n. n < length buf.new → IsAtEnd (R.remaining input.new)) }
{
    let mut done = 0;
    while done < buf.len() {
        let n = input.read(&mut buf[done..])?;
        if n == 0 {
            return Ok(done);
        }
        done += n;
    }
    Ok(done)
}
