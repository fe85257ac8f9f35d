// Bytes in hexadecimal, verdicts, and what the modules make their inputs by.
use basics::{Refusal, Verdict};
use std::fmt;

// What every byte of an output is before a call: a refusal leaves it so.
pub(crate) const OLD: u8 = 165;

// Bytes, printed as two hexadecimal digits each.
#[derive(Clone, Copy)]
pub(crate) struct Hex<'a>(pub &'a [u8]);

impl fmt::Display for Hex<'_> {
    fn fmt<W: fmt::Write>(&self, f: &mut fmt::Formatter<W>) -> fmt::Result {
        for byte in self.0 {
            write!(f, "{byte:02x}")?;
        }
        Ok(())
    }
}

// What a call answered, printed as its code and its place. Each program's lines have their own words.
#[derive(Clone, Copy)]
pub(crate) struct Outcome(pub Result<(), Refusal>);

impl fmt::Display for Outcome {
    fn fmt<W: fmt::Write>(&self, f: &mut fmt::Formatter<W>) -> fmt::Result {
        let Verdict { code, place } = self.0.into();
        write!(f, "{code} at {place}")
    }
}

// The end of a line: what a call answered, and what a lent output holds.
pub(crate) fn end_line(rt: &impl Print, answer: Result<(), Refusal>, out: &[u8]) {
    let _ = println!(rt; " {} {}", Outcome(answer), Hex(out));
}

// The first `len` bytes, or all where there are not so many. Two programs have these two; a crate for them would be longer than they are.
pub(crate) fn front(bytes: &[u8], len: usize) -> &[u8] {
    &bytes[..len.min(bytes.len())]
}

pub(crate) fn front_mut(bytes: &mut [u8], len: usize) -> &mut [u8] {
    let n = len.min(bytes.len());
    &mut bytes[..n]
}

// Byte i is (7 * (i % 251) + start % 251) % modulus; a modulus that bytes do not go by changes nothing.
pub(crate) fn fill(start: usize, modulus: usize, out: &mut [u8]) {
    if modulus == 0 || 256 < modulus {
        return;
    }
    for (i, byte) in out.iter_mut().enumerate() {
        *byte = ((7 * (i % 251) + start % 251) % modulus) as u8;
    }
}
