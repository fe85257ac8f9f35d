// The bytes of a message before its block (document 01, section 6).
ghost use Rattle.std.specs.Prelude.{◌≡◌, ◌+◌, ◌<◌, length};
ghost use Rattle.wire.specs.Message.{header_written, shape_bytes};

use crate::Shape;
use crate::fields::{
    BLOCK_AT, BLOCK_HEADER_AT, SESSION_BYTES, SESSION_VALUE_AT, TAG_SESSION, TAG_SHAPE,
};

const MOST_LENGTH: usize = 65535;

// A shape's six bytes, numbers big-endian.
pub(crate) fn shape_bytes(s: Shape) -> [u8; 6]
    ensures { result ≡ shape_bytes s.mode s.rows s.places s.bytes }
{
    let rows = s.rows.to_be_bytes();
    let places = s.places.to_be_bytes();
    [s.mode, rows[0], rows[1], places[0], places[1], s.bytes]
}

// Writes the shape field, the session field and the block's header into a part of 27 bytes. A part or a session of another length, or a length
// of the block that two bytes do not hold, leaves the part as it is.
#[tactic(auto, using(std::proofs::lemmas::Bool::Decides::nat_tests), unfolding(crate::specs::Message::header_written))]
pub fn write_header(tag: u8, len: usize, s: Shape, session: &[u8], out: &mut [u8])
    ensures { out.new ≡ header_written tag len s.mode s.rows s.places s.bytes session.now out.old }
{
    if session.len() != SESSION_BYTES {
        return;
    }
    if out.len() != BLOCK_AT {
        return;
    }
    if MOST_LENGTH < len {
        return;
    }
    let shape = shape_bytes(s);
    let front = [
        TAG_SHAPE,
        0,
        6,
        shape[0],
        shape[1],
        shape[2],
        shape[3],
        shape[4],
        shape[5],
        TAG_SESSION,
        0,
        12,
    ];
    out[0..SESSION_VALUE_AT].copy_from_slice(&front);
    out[SESSION_VALUE_AT..BLOCK_HEADER_AT].copy_from_slice(session);
    let length = (len as u16).to_be_bytes();
    let block = [tag, length[0], length[1]];
    out[BLOCK_HEADER_AT..BLOCK_AT].copy_from_slice(&block);
}
