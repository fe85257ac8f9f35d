// Runs the generated cases of peer/CASES.md: standard input has a row for each, and standard output gets a line for each.
// The file stdin is peer/cases.txt, and stdout is what the independent second program prints.
#![tactic(auto)]

mod buffers;
mod calls;
mod inputs;
mod lending;
mod row;
mod running;
mod show;

use row::{Case, LINE_BYTES};
use std::io::Read;

// Far more rows than there are.
const MOST_ROWS: u32 = 65536;

// The case of the next row; none where the input has not a whole one left, or a read fails.
fn next(input: &mut impl Read) -> Option<Case> {
    let mut line = [0u8; LINE_BYTES];
    input.read_exact(&mut line).ok()?;
    Some(row::read(&line))
}

// What is printed is what is compared: a read that fails ends the input, and a write that fails is not reported.
fn main(rt: HostRuntime) {
    let mut input = rt.stdin();
    for number in 0..MOST_ROWS {
        match next(&mut input) {
            Some(case) => running::run(&rt, number, &case),
            None => break,
        }
    }
}
