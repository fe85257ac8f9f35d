// The numbers of a line.
use basics::{Refusal, Verdict};
use std::fmt;

// What a call answered, printed as its code and its place. Each program's lines have their own words.
#[derive(Clone, Copy)]
pub(crate) struct Outcome(pub Result<(), Refusal>);

impl fmt::Display for Outcome {
    fn fmt<W: fmt::Write>(&self, f: &mut fmt::Formatter<W>) -> fmt::Result {
        let Verdict { code, place } = self.0.into();
        write!(f, "{code} {place}")
    }
}

// Bytes, printed as the first eight of their digest, in hexadecimal.
#[derive(Clone, Copy)]
pub(crate) struct Digest<'a>(pub &'a [u8]);

impl fmt::Display for Digest<'_> {
    fn fmt<W: fmt::Write>(&self, f: &mut fmt::Formatter<W>) -> fmt::Result {
        let mut all = [0u8; 32];
        let _ = symmetric::hash(self.0, &mut all);
        for byte in &all[..8] {
            write!(f, "{byte:02x}")?;
        }
        Ok(())
    }
}

// The listing of a message, by its length and its digest.
pub(crate) fn listing(rt: &impl Print, message: &[u8]) {
    let l = listing::list(message);
    let (text, len) = (l.text, l.len);
    let _ = print!(rt; " l {len} {}", Digest(&text[..len]));
}
