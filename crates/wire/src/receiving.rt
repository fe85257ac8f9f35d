// What operations ask of a received message (document 01, section 7), each field compared before the next step is taken.
ghost use Rattle.std.specs.Prelude.{◌≡◌, ◌+◌, ◌*◌, ◌^◌, ◌<◌, ◌≤◌, length};
ghost use Rattle.basics.specs.Verdicts.{at_first, number as number₀, pass, unless, verdict};
ghost use Rattle.wire.specs.Message.{header_ok};
ghost use Rattle.wire.specs.Received.{differs, padding_verdict, block_verdict, received};

use crate::Shape;
use crate::fields::{
    BLOCK_AT, BLOCK_HEADER_AT, SESSION_AT, SESSION_BYTES, SESSION_VALUE_AT, SHAPE_AT, SHAPE_BYTES,
    SHAPE_VALUE_AT, TAG_COLUMNS, TAG_SESSION, TAG_SHAPE,
};
use crate::judging::{block_length, columns_of};
use crate::writing::shape_bytes;
use basics::{Reason, Refusal, byte_or_zero, check, check_clear};

// The number of two bytes, big-endian.
pub fn number(high: u8, low: u8) -> u16
    ensures { result ≡ high * 256 + low }
{
    u16::from_be_bytes([high, low])
}

// A header at `at` with this tag and this length, and so many bytes after it.
pub fn has_header(message: &[u8], at: usize, tag: u8, len: usize) -> bool
    ensures { result ≡ header_ok message.now at tag len }
{
    if message.len() < at {
        return false;
    }
    let [first, high, low, value @ ..] = &message[at..] else {
        return false;
    };
    if *first != tag {
        return false;
    }
    if value.len() < len {
        return false;
    }
    number(*high, *low) as usize == len
}

// Refusal 10 at a header that is not there.
fn check_header(message: &[u8], at: usize, tag: u8, len: usize) -> Result<(), Refusal>
    ensures { verdict result ≡ unless (header_ok message.now at tag len) 10 at pass }
{
    check(has_header(message, at, tag, len), Reason::Field, at)
}

// The refusal at the first byte of the value at `at` that is not that of the expected value of n bytes. n is told beside it, since a lent session may
// have any length.
fn compare(reason: Reason, message: &[u8], at: usize, value: &[u8], n: usize) -> Result<(), Refusal>
    requires { at + n < 256 }
    ensures { verdict result ≡ at_first n (differs message.now at value.now) (number₀ reason) 0 }
{
    for i in 0..n {
        if byte_or_zero(message, at + i) != byte_or_zero(value, i) {
            return Err(Refusal { reason, place: i });
        }
    }
    Ok(())
}

// Refusal 13. A message that ends before its block has no padding.
pub fn check_padding(tag: u8, s: Shape, message: &[u8]) -> Result<(), Refusal>
    ensures { verdict result ≡ padding_verdict tag s.mode s.rows message.now }
{
    if message.len() < BLOCK_AT {
        return Ok(());
    }
    if tag != TAG_COLUMNS {
        return Ok(());
    }
    let block = &message[BLOCK_AT..];
    check_clear(
        s.rows,
        columns_of(s.mode) as u16,
        block,
        Reason::MessagePadding,
        0,
    )
}

// Refusals 10 and 13 from field 3's header on, for a block of `len` bytes.
fn check_block(tag: u8, len: usize, s: Shape, message: &[u8]) -> Result<(), Refusal>
    requires { len < 2 ^ 40 }
    ensures { verdict result ≡ block_verdict tag len s.mode s.rows message.now }
{
    let end = BLOCK_AT + len;
    check_header(message, BLOCK_HEADER_AT, tag, len)?;
    check(message.len() == end, Reason::Field, end)?;
    check_padding(tag, s, message)
}

// Refusals 10 to 13 of a received message, from its front.
pub fn check_received(tag: u8, s: Shape, session: &[u8], message: &[u8]) -> Result<(), Refusal>
    ensures { verdict result ≡ received tag s.mode s.rows s.places s.bytes session.now message.now }
{
    check_header(message, SHAPE_AT, TAG_SHAPE, SHAPE_BYTES)?;
    compare(
        Reason::OtherShape,
        message,
        SHAPE_VALUE_AT,
        &shape_bytes(s),
        SHAPE_BYTES,
    )?;
    check_header(message, SESSION_AT, TAG_SESSION, SESSION_BYTES)?;
    compare(
        Reason::OtherSession,
        message,
        SESSION_VALUE_AT,
        session,
        SESSION_BYTES,
    )?;
    check_block(tag, block_length(tag, s), s, message)
}
