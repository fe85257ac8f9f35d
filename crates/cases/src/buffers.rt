// What the calls are lent, at its whole room (peer/CASES.md, "A row"), and the pokes in it.
use crate::row::{Buffer, Call, Case, Change};

// What every byte is before the inputs are generated: a refusal leaves outputs so.
const OLD: u8 = 165;

// The room of every buffer but the session, the selections and the secret.
const ROOM: usize = 33000;

#[derive(Drop)]
pub(crate) struct Buffers {
    pub session: [u8; 16],
    pub first: [u8; ROOM],
    pub second: [u8; ROOM],
    pub selections: [u8; 1040],
    pub message: [u8; ROOM],
    pub kept: [u8; ROOM],
    pub secret: [u8; 48],
    pub taken: [u8; ROOM],
    pub strings: [u8; ROOM],
    pub answered: [u8; ROOM],
    pub opened: [u8; ROOM],
}

impl Buffers {
    pub(crate) fn new() -> Buffers {
        Buffers {
            session: [OLD; 16],
            first: [OLD; ROOM],
            second: [OLD; ROOM],
            selections: [OLD; 1040],
            message: [OLD; ROOM],
            kept: [OLD; ROOM],
            secret: [OLD; 48],
            taken: [OLD; ROOM],
            strings: [OLD; ROOM],
            answered: [OLD; ROOM],
            opened: [OLD; ROOM],
        }
    }

    fn room(&mut self, buffer: Buffer) -> &mut [u8] {
        match buffer {
            Buffer::Session => &mut self.session,
            Buffer::First => &mut self.first,
            Buffer::Second => &mut self.second,
            Buffer::Selections => &mut self.selections,
            Buffer::Message => &mut self.message,
            Buffer::Kept => &mut self.kept,
            Buffer::Secret => &mut self.secret,
            Buffer::Taken => &mut self.taken,
            Buffer::Strings => &mut self.strings,
            Buffer::Answered => &mut self.answered,
            Buffer::Opened => &mut self.opened,
        }
    }

    // Makes the pokes before a call.
    pub(crate) fn poke(&mut self, case: &Case, call: Call) {
        for poke in case.pokes.into_iter().flatten() {
            if poke.lent.call == call {
                change(self.room(poke.lent.buffer), poke.place, poke.change);
            }
        }
    }
}

// Changes the byte at a place, where there is one.
fn change(bytes: &mut [u8], place: usize, change: Change) {
    if let Some(byte) = bytes.get_mut(place) {
        match change {
            Change::Set(value) => *byte = value,
            Change::Xor(mask) => *byte ^= mask,
        }
    }
}
