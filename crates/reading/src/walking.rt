// The walk over a slice and a cursor by value.
ghost use Rattle.std.specs.Prelude.{◌≡◌, ◌||◌, ◌+◌, ◌^◌, ◌<◌, eqb};
ghost use Rattle.basics.specs.Verdicts.{unless, verdict};
ghost use Rattle.wire.specs.Shapes.{verdict_of};
ghost use Rattle.wire.specs.Message.{header_ok};
ghost use Rattle.reading.specs.Reading.{cursor, start as start₀, shape_in, tag_in, block_ok, step_verdict, field_at, Stepped, steps_verdict, Walks, moved_by, advanced};

use crate::{Advance, Cursor, Step, Walked};
use basics::{Reason, Refusal, byte_or_zero, check};
use wire::{
    BLOCK_AT, BLOCK_HEADER_AT, SESSION_AT, SESSION_BYTES, SESSION_VALUE_AT, SHAPE_AT, SHAPE_BYTES,
    Shape, TAG_COLUMNS, TAG_SESSION, TAG_SHAPE, TAG_STRINGS, block_length, has_header, judge_shape,
    number,
};

impl Cursor {
    fn at(place: usize, shape: Shape) -> Cursor
        ensures { result ≡ cursor place shape }
    {
        Cursor { place, shape }
    }
}

// Before the first field.
pub fn start() -> Cursor
    ensures { result ≡ start₀ }
{
    let none = Shape {
        mode: 0,
        rows: 0,
        places: 0,
        bytes: 0,
    };
    Cursor::at(SHAPE_AT, none)
}

// The shape in field 1's value.
#[tactic(auto, unfolding(crate::specs::Reading::shape_in))]
fn shape_in(message: &[u8]) -> Shape
    ensures { result ≡ shape_in message.now }
{
    Shape {
        mode: byte_or_zero(message, 3),
        rows: number(byte_or_zero(message, 4), byte_or_zero(message, 5)),
        places: number(byte_or_zero(message, 6), byte_or_zero(message, 7)),
        bytes: byte_or_zero(message, 8),
    }
}

// Columns, or masked strings.
#[tactic(auto, using(std::proofs::lemmas::Bool::Decides::nat_tests))]
fn is_block_tag(tag: u8) -> bool
    ensures { result ≡ (eqb tag 3 || eqb tag 4) }
{
    tag == TAG_COLUMNS || tag == TAG_STRINGS
}

// Field 3's header has tag 3 or 4 with that tag's length.
#[tactic(auto, unfolding(crate::specs::Reading::block_ok))]
fn has_block(message: &[u8], shape: Shape) -> bool
    ensures { result ≡ block_ok message.now shape }
{
    let tag = byte_or_zero(message, BLOCK_HEADER_AT);
    is_block_tag(tag) && has_header(message, BLOCK_HEADER_AT, tag, block_length(tag, shape))
}

// Refusal 10 at field 1's header, or 1 to 5 of its value. A header and the place of its refusal are written apart in this file: the edits
// `value_judged_before_header` and `session_refused_at_its_value` hold each.
fn judge_first(message: &[u8]) -> Result<(), Refusal>
    ensures { verdict result ≡ unless (header_ok message.now 0 1 6) 10 0 (verdict_of (shape_in message.now)) }
{
    check(
        has_header(message, SHAPE_AT, TAG_SHAPE, SHAPE_BYTES),
        Reason::Field,
        SHAPE_AT,
    )?;
    judge_shape(shape_in(message))
}

// The refusal of the step at a cursor, if it is one.
#[tactic(auto, using(std::proofs::lemmas::Bool::Decides::nat_tests), unfolding(crate::specs::Reading::step_verdict))]
pub fn judge_step(message: &[u8], c: Cursor) -> Result<(), Refusal>
    ensures { verdict result ≡ step_verdict message.now c }
{
    match c.place {
        SHAPE_AT => judge_first(message),
        SESSION_AT => check(
            has_header(message, SESSION_AT, TAG_SESSION, SESSION_BYTES),
            Reason::Field,
            SESSION_AT,
        ),
        BLOCK_HEADER_AT => check(has_block(message, c.shape), Reason::Field, BLOCK_HEADER_AT),
        place => check(message.len() <= place, Reason::Field, place),
    }
}

// The field at a cursor whose step is no refusal.
#[tactic(auto, using(std::proofs::lemmas::Bool::Decides::nat_tests), unfolding(crate::specs::Reading::field_at))]
fn field_at(message: &[u8], c: Cursor) -> Step
    ensures { result ≡ field_at message.now c }
{
    match c.place {
        SHAPE_AT => {
            let shape = shape_in(message);
            Step::Shape(shape, Cursor::at(SESSION_AT, shape))
        }
        SESSION_AT => Step::Session {
            place: SESSION_VALUE_AT,
            len: SESSION_BYTES,
            next: Cursor::at(BLOCK_HEADER_AT, c.shape),
        },
        BLOCK_HEADER_AT => {
            let tag = byte_or_zero(message, BLOCK_HEADER_AT);
            let len = block_length(tag, c.shape);
            Step::Block {
                tag,
                place: BLOCK_AT,
                len,
                next: Cursor::at(BLOCK_AT + len, c.shape),
            }
        }
        _ => Step::End,
    }
}

// One step: the field at the cursor, the end, or a refusal with its place.
pub fn step_at(message: &[u8], c: Cursor) -> Step
    ensures { Stepped message.now c result }
{
    match judge_step(message, c) {
        Ok(()) => field_at(message, c),
        Err(refusal) => Step::Refused(refusal),
    }
}

// The four steps of a whole message.
fn judge_walk(message: &[u8], shape: Shape, len: usize) -> Result<(), Refusal>
    requires { len < 2 ^ 40 }
    ensures { verdict result ≡ steps_verdict message.now shape len }
{
    judge_step(message, start())?;
    judge_step(message, Cursor::at(SESSION_AT, shape))?;
    judge_step(message, Cursor::at(BLOCK_HEADER_AT, shape))?;
    judge_step(message, Cursor::at(BLOCK_AT + len, shape))
}

// The walk of a whole message.
pub fn walk(message: &[u8]) -> Walked
    ensures { Walks message.now result }
{
    let shape = shape_in(message);
    let tag = byte_or_zero(message, BLOCK_HEADER_AT);
    let len = block_length(tag, shape);
    Walked {
        judged: judge_walk(message, shape, len),
        shape,
        tag,
        len,
    }
}

// Where the step after this one begins: behind the field, and where it began at the end and on a refusal.
fn moved_by(c: Cursor, s: Step) -> Cursor
    ensures { result ≡ moved_by c s }
{
    match s {
        Step::Shape(_, next) | Step::Session { next, .. } | Step::Block { next, .. } => next,
        Step::End | Step::Refused(_) => c,
    }
}

// One step from a place and the shape found, for a reader to keep.
#[tactic(auto, unfolding(crate::specs::Reading::advanced))]
pub fn step_from(message: &[u8], place: usize, shape: Shape) -> Advance
    ensures { result ≡ advanced message.now place shape }
{
    let c = Cursor::at(place, shape);
    let step = step_at(message, c);
    let next = moved_by(c, step);
    Advance {
        step,
        place: next.place,
        shape: next.shape,
    }
}
