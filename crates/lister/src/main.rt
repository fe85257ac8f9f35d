// Reads a message on standard input, at most one byte more than the longest, and prints its listing.
#![tactic(auto)]

ghost use Rattle.std.specs.Prelude.{◌≤◌, length};

use std::io::Read;

// Reads until the buffer is full, the input ends or a read fails, and gives back how many bytes there are. Of std's own readers, `read_exact`
// does not say how many there were, and the others need the heap.
fn read_full(input: &mut impl Read, buffer: &mut [u8]) -> usize
    ensures { result ≤ length buffer.new }
{
    let mut n = 0;
    for _ in 0..buffer.len() {
        match input.read(&mut buffer[n..]) {
            Ok(0) | Err(_) => break,
            Ok(more) => n += more,
        }
    }
    n
}

// What is printed is what is compared: a read that fails ends the input, and a write that fails is not reported.
fn main(rt: HostRuntime) {
    let mut buffer = [0u8; 32796];
    let n = read_full(&mut rt.stdin(), &mut buffer);
    let l = listing::list(&buffer[..n]);
    let text = l.text;
    let _ = rt.write_all(&text[..l.len]);
}
