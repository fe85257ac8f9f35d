// The reader of messages (document 01, section 6): a cursor by value, one step, and the walk of a whole message.
#![tactic(auto)]

mod holding;
mod walking;

pub use basics::Refusal;
pub use walking::{judge_step, start, step_at, step_from, walk};
use wire::Shape;

// The place of the next header, and the shape found so far.
#[derive(Clone, Copy)]
pub struct Cursor {
    pub place: usize,
    pub shape: Shape,
}

// What a step yields: a field with the cursor behind it, the end, or a refusal. Document 01 names this form, the refusal as one of the cases.
#[derive(Clone, Copy)]
pub enum Step {
    Shape(Shape, Cursor),
    Session {
        place: usize,
        len: usize,
        next: Cursor,
    },
    Block {
        tag: u8,
        place: usize,
        len: usize,
        next: Cursor,
    },
    End,
    Refused(Refusal),
}

// What the walk of a whole message found. On a refusal the fields hold what stands in their places, and 0 past the message's end: so they stand beside the
// answer, as `Walks` has them, and not in its `Ok`.
#[derive(Clone, Copy)]
pub struct Walked {
    pub judged: Result<(), Refusal>,
    pub shape: Shape,
    pub tag: u8,
    pub len: usize,
}

// A step together with where the next one begins. Place and shape stand apart here and in the reader, as `advanced` and `reader_of` name them.
#[derive(Clone, Copy)]
pub struct Advance {
    pub step: Step,
    pub place: usize,
    pub shape: Shape,
}

// The reader: the message, its place in it, and the shape that it found.
#[derive(Clone, Copy)]
pub struct Reader<'a> {
    pub message: &'a [u8],
    pub place: usize,
    pub shape: Shape,
}
