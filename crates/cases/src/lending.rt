// At what length a call is lent each buffer (peer/CASES.md, "The procedure").
ghost use Rattle.std.specs.Prelude.{◌≤◌};

use crate::row::{Buffer, Call, Case, Lent};
use columns::entry_bytes;
use wire::{BLOCK_AT, SESSION_BYTES, Shape, volume};

// k, here also of a mode that is not lawful: peer/CASES.md has 256 for each but 1, and the layer 128 for each but 2.
pub(crate) fn columns_of(mode: u8) -> usize
    ensures { result ≤ 256 }
{
    if mode == 1 { 128 } else { 256 }
}

pub(crate) fn row_bytes(mode: u8) -> usize
    ensures { result ≤ 32 }
{
    columns_of(mode) / 8
}

pub(crate) fn set_bytes(seeded: bool, s: Shape) -> usize
    ensures { result ≤ 2097152 }
{
    columns_of(s.mode) * entry_bytes(seeded, s.rows)
}

// The shape of the message that a call sends or receives; one that is received has the inputs' shape.
fn message_shape(case: &Case, call: Call, sender: Call) -> Shape {
    if call == sender {
        case.shape_of(call)
    } else {
        case.shape
    }
}

// The usual length of a buffer, by the shape of the call.
fn usual(case: &Case, lent: Lent) -> usize {
    let call = lent.call;
    let s = case.shape_of(call);
    match lent.buffer {
        Buffer::Session => SESSION_BYTES,
        Buffer::First | Buffer::Second | Buffer::Taken => set_bytes(case.seeded, s),
        Buffer::Selections => usize::from(s.rows),
        Buffer::Message => BLOCK_AT + set_bytes(false, message_shape(case, call, Call::Prepare)),
        Buffer::Kept => usize::from(s.rows) * row_bytes(s.mode),
        Buffer::Secret => row_bytes(s.mode),
        Buffer::Strings => volume(s),
        Buffer::Answered => BLOCK_AT + volume(message_shape(case, call, Call::Answer)),
        Buffer::Opened => volume(Shape { places: 1, ..s }),
    }
}

fn length(case: &Case, lent: Lent) -> usize {
    for own in case.lengths.into_iter().flatten() {
        if own.lent == lent {
            return own.length;
        }
    }
    usual(case, lent)
}

// The first `len` bytes, or all where there are not so many. Two programs have these two; a crate for them would be longer than they are.
pub(crate) fn front(bytes: &[u8], len: usize) -> &[u8] {
    &bytes[..len.min(bytes.len())]
}

pub(crate) fn front_mut(bytes: &mut [u8], len: usize) -> &mut [u8] {
    let n = len.min(bytes.len());
    &mut bytes[..n]
}

// Lends buffers to a call of a case.
#[derive(Clone, Copy)]
pub(crate) struct Lender<'a> {
    pub case: &'a Case,
    pub call: Call,
}

impl Lender<'_> {
    fn length(self, buffer: Buffer) -> usize {
        let call = self.call;
        length(self.case, Lent { call, buffer })
    }

    pub(crate) fn lend<'b>(self, buffer: Buffer, bytes: &'b [u8]) -> &'b [u8] {
        front(bytes, self.length(buffer))
    }

    pub(crate) fn lend_mut<'b>(self, buffer: Buffer, bytes: &'b mut [u8]) -> &'b mut [u8] {
        front_mut(bytes, self.length(buffer))
    }
}
