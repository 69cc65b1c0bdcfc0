#![tactic(auto)]
// Document 01's program: reads a bound byte and then f32 distances, and prints how many nodes, leaves and vertices the tree has. The line is proved, in
// `counting`, and here that the line of the whole input is written, for each reader and writer whose bytes are known. No contract can say which bytes
// standard input gives and standard output takes: that is tested.
ghost use Rattle.std.specs.Prelude.{◌<◌, ◌≤◌, length, take, IfOk, OnOk, IfSome};
ghost use Rattle.std.specs.Io.KnownBytes.{Appends, Consumes, IsAtEnd};
ghost use Rattle.counting.specs.Printed.{line_of};

use std::io;
use std::io::{Read, Write};

// Standard input as the program takes it: a read that fails, as of a closed one, ends the input.
#[derive(Drop)]
struct UntilFailure<R> {
    input: R,
}

impl<R: Read> Read for UntilFailure<R> {
    fn read(&mut self, buffer: &mut [u8]) -> io::Result<usize> {
        match self.input.read(buffer) {
            Ok(n) => Ok(n),
            Err(_) => Ok(0),
        }
    }
}

// Fills the buffer as far as the input goes, by as many reads as that takes, and says how far.
fn fill<R: Read>(input: &mut R, buffer: &mut [u8]) -> io::Result<usize>
    ensures bound { IfOk result (λ n. n ≤ length buffer.new) }
    ensures bytes { IfOk result (λ n. Consumes (R.remaining input.old) (R.remaining input.new) (take n buffer.new)) }
    ensures end { IfOk result (λ n. n < length buffer.new → IsAtEnd (R.remaining input.new)) }
{
    let mut got = 0;
    // Kept: how many reads it takes is known at the end alone; `read_exact` says little where the input is shorter.
    while got < buffer.len() {
        let n = input.read(&mut buffer[got..])?;
        if n == 0 {
            return Ok(got);
        }
        got += n;
    }
    Ok(got)
}

// Writes the line of the whole input, whatever its reader and its writer are.
fn answer<R: Read, W: Write>(input: &mut R, output: &mut W) -> io::Result<()>
    ensures { OnOk result (IfSome (R.remaining input.old)
        (λ bytes. Appends (W.contents output.old) (W.contents output.new) (line_of bytes))) }
{
    // A bound byte, the 1,024 distances that can be accepted and one that is refused: no later byte matters (`later_ignored` in crates/counting).
    let mut start = [0u8; 4101];
    let got = fill(input, &mut start)?;
    let text = counting::line(&start[..got]);
    output.write_all(text.as_bytes())
}

fn main(rt: HostRuntime) -> io::Result<()> {
    let mut input = UntilFailure { input: rt.stdin() };
    answer(&mut input, &mut rt.stdout())
}
