// A row of 21 small numbers, and the case that it stands for (peer/CASES.md, "A row").
ghost use Rattle.std.specs.Prelude.{◌<◌};

use basics::byte_or_zero;
use wire::Shape;

pub(crate) const LINE_BYTES: usize = 127;

const NUMBERS: usize = 21;

// What a number and the comma after it take.
const NUMBER_BYTES: usize = 6;

#[derive(Clone, Copy, PartialEq, Eq)]
pub(crate) enum Call {
    Prepare,
    Answer,
    Open,
}

#[derive(Clone, Copy, PartialEq, Eq)]
pub(crate) enum Buffer {
    Session,
    First,
    Second,
    Selections,
    Message,
    Kept,
    Secret,
    Taken,
    Strings,
    Answered,
    Opened,
}

// The calls and the buffers in the order of their numbers, from 1 on.
const CALLS: [Call; 3] = [Call::Prepare, Call::Answer, Call::Open];

const BUFFERS: [Buffer; 11] = [
    Buffer::Session,
    Buffer::First,
    Buffer::Second,
    Buffer::Selections,
    Buffer::Message,
    Buffer::Kept,
    Buffer::Secret,
    Buffer::Taken,
    Buffer::Strings,
    Buffer::Answered,
    Buffer::Opened,
];

// A buffer as it is lent to a call.
#[derive(Clone, Copy, PartialEq, Eq)]
pub(crate) struct Lent {
    pub call: Call,
    pub buffer: Buffer,
}

impl Lent {
    // A number of a row is 16 times the call's number plus the buffer's, and 0 for none.
    fn read(number: usize) -> Option<Lent> {
        let (call, buffer) = (number / 16, number % 16);
        Some(Lent {
            call: *CALLS.get(call.checked_sub(1)?)?,
            buffer: *BUFFERS.get(buffer.checked_sub(1)?)?,
        })
    }
}

#[derive(Clone, Copy)]
pub(crate) enum Change {
    Set(u8),
    Xor(u8),
}

impl Change {
    // A value below 256 is what the byte becomes, and from there on what is above is xored into it.
    fn read(value: usize) -> Change {
        match u8::try_from(value) {
            Ok(byte) => Change::Set(byte),
            Err(_) => Change::Xor((value % 256) as u8),
        }
    }
}

// A byte of a buffer that is changed before a call.
#[derive(Clone, Copy)]
pub(crate) struct Poke {
    pub lent: Lent,
    pub place: usize,
    pub change: Change,
}

impl Poke {
    fn read(at: usize, place: usize, value: usize) -> Option<Poke> {
        Some(Poke {
            lent: Lent::read(at)?,
            place,
            change: Change::read(value),
        })
    }
}

// A length at which a call is lent a buffer in place of the usual one.
#[derive(Clone, Copy)]
pub(crate) struct Length {
    pub lent: Lent,
    pub length: usize,
}

impl Length {
    fn read(at: usize, length: usize) -> Option<Length> {
        Some(Length {
            lent: Lent::read(at)?,
            length,
        })
    }
}

#[derive(Clone, Copy)]
pub(crate) enum Secret {
    Generated,
    Zeros,
    Ones,
}

#[derive(Clone, Copy)]
pub(crate) struct Case {
    // The inputs' shape, and the shapes that the calls are given.
    pub shape: Shape,
    pub prepare: Shape,
    pub answer: Shape,
    pub open: Shape,
    pub seeded: bool,
    pub secret: Secret,
    pub pokes: [Option<Poke>; 2],
    pub lengths: [Option<Length>; 2],
}

impl Case {
    pub(crate) fn shape_of(&self, call: Call) -> Shape {
        match call {
            Call::Prepare => self.prepare,
            Call::Answer => self.answer,
            Call::Open => self.open,
        }
    }
}

// The digit at a byte of a field; a space counts as 0, and what is no digit as its remainder.
fn digit(field: &[u8], at: usize) -> usize
    ensures { result < 10 }
{
    usize::from(byte_or_zero(field, at).saturating_sub(b'0') % 10)
}

// The number in the five columns of a field.
fn number(field: &[u8]) -> usize
    ensures { result < 100000 }
{
    let high = digit(field, 0) * 10000 + digit(field, 1) * 1000;
    high + digit(field, 2) * 100 + digit(field, 3) * 10 + digit(field, 4)
}

// The numbers of a line, a field each.
fn numbers(line: &[u8; LINE_BYTES]) -> [usize; NUMBERS] {
    let mut numbers = [0usize; NUMBERS];
    for (out, field) in numbers.iter_mut().zip(line.chunks(NUMBER_BYTES)) {
        *out = number(field);
    }
    numbers
}

fn shape(mode: usize, rows: usize, places: usize, bytes: usize) -> Shape {
    Shape {
        mode: (mode % 256) as u8,
        rows: (rows % 65536) as u16,
        places: (places % 65536) as u16,
        bytes: (bytes % 256) as u8,
    }
}

// The case of a line.
pub(crate) fn read(line: &[u8; LINE_BYTES]) -> Case {
    let n = numbers(line);
    let own = shape(n[0], n[1], n[2], n[3]);
    let other = shape(n[7], n[8], n[9], n[10]);
    // Number 6 adds up the calls that are given the other shape.
    let given = |bit: usize| if n[6] & bit == 0 { own } else { other };
    Case {
        shape: own,
        prepare: given(1),
        answer: given(2),
        open: given(4),
        seeded: n[4] == 1,
        secret: match n[5] {
            0 => Secret::Generated,
            2 => Secret::Ones,
            _ => Secret::Zeros,
        },
        pokes: [
            Poke::read(n[11], n[12], n[13]),
            Poke::read(n[14], n[15], n[16]),
        ],
        lengths: [Length::read(n[17], n[18]), Length::read(n[19], n[20])],
    }
}
