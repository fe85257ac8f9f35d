// Messages of document 01, sections 6 to 8: what is listed of each, and what an operation says of a received one.
use crate::show::Outcome;
use wire::{BLOCK_AT, Shape, TAG_COLUMNS, TAG_STRINGS};

pub(crate) const SESSION: [u8; 12] = [0, 1, 2, 3, 4, 5, 6, 7, 8, 9, 10, 11];

// The room of a message: one byte more than the longest.
const ROOM: usize = 32796;

pub(crate) fn shape(mode: u8, rows: u16, places: u16, bytes: u8) -> Shape {
    Shape {
        mode,
        rows,
        places,
        bytes,
    }
}

// The message that a shape, a tag and a block of zeros make, cut or lengthened to `total` bytes, with a byte of it changed: its place,
// and what it becomes.
#[derive(Clone, Copy)]
struct Case {
    shape: Shape,
    tag: u8,
    len: usize,
    total: usize,
    changed: Option<(usize, u8)>,
}

impl Case {
    fn whole(tag: u8, shape: Shape) -> Case {
        let len = wire::block_length(tag, shape);
        Case {
            shape,
            tag,
            len,
            total: BLOCK_AT + len,
            changed: None,
        }
    }

    fn cut(self, total: usize) -> Case {
        Case { total, ..self }
    }

    fn set(self, at: usize, value: u8) -> Case {
        let changed = Some((at, value));
        Case { changed, ..self }
    }

    // Writes the message into a buffer of zeros, and gives back what there is room for.
    fn build(self, buffer: &mut [u8; ROOM]) -> &[u8] {
        let header = &mut buffer[..BLOCK_AT];
        wire::write_header(self.tag, self.len, self.shape, &SESSION, header);
        if let Some((at, value)) = self.changed {
            if let Some(byte) = buffer.get_mut(at) {
                *byte = value;
            }
        }
        &buffer[..self.total.min(ROOM)]
    }
}

// Two kinds of cases by name, a tag each.
fn answers(mode: u8, rows: u16, places: u16, bytes: u8) -> Case {
    Case::whole(TAG_STRINGS, shape(mode, rows, places, bytes))
}

fn columns(mode: u8, rows: u16, places: u16, bytes: u8) -> Case {
    Case::whole(TAG_COLUMNS, shape(mode, rows, places, bytes))
}

fn list_line(rt: &impl Print, name: &str, c: Case) {
    let _ = println!(rt; "list {name}");
    let l = listing::list(c.build(&mut [0; ROOM]));
    let text = l.text;
    let _ = rt.write_all(&text[..l.len]);
}

fn list_lines(rt: &impl Print, cases: &[(&str, Case)]) {
    for &(name, c) in cases {
        list_line(rt, name, c);
    }
}

// Messages that are listed.
fn whole_messages(rt: &impl Print) {
    let cases = [
        ("example", answers(1, 1, 2, 1).set(27, 170)),
        ("columns of pairs", columns(1, 9, 2, 1)),
        ("columns of choices", columns(2, 8, 40, 5)),
        ("longest answers of pairs", answers(1, 1024, 2, 16)),
        ("longest answers of choices", answers(2, 4, 256, 32)),
        ("longest columns", columns(2, 1024, 2, 1)),
    ];
    list_lines(rt, &cases);
}

// Refusals 1 to 5.
fn refused_shapes(rt: &impl Print) {
    let large_choices = answers(2, 5, 256, 32).cut(BLOCK_AT);
    let large_pairs = answers(1, 1024, 2, 17).cut(BLOCK_AT);
    let cases = [
        ("mode 0", answers(0, 1, 2, 1)),
        ("mode 3", answers(3, 1, 2, 1)),
        ("rows 0", answers(1, 0, 2, 1)),
        ("rows 1025", answers(1, 1025, 2, 1)),
        ("pairs with 3 places", answers(1, 1, 3, 1)),
        ("choices with 1 place", answers(2, 1, 1, 1)),
        ("choices with 257 places", answers(2, 1, 257, 1)),
        ("bytes 0", answers(1, 1, 2, 0)),
        ("bytes 33", answers(1, 1, 2, 33)),
        ("5 rows of 256 places of 32 bytes", large_choices),
        ("1024 rows of 2 places of 17 bytes", large_pairs),
        ("mode 3 and rows 0", answers(3, 0, 2, 1)),
    ];
    list_lines(rt, &cases);
}

// Refusal 10 at each header.
fn refused_fields(rt: &impl Print) {
    let c = answers(1, 1, 2, 1);
    let cases = [
        ("nothing", c.cut(0)),
        ("2 bytes", c.cut(2)),
        ("field 1 with tag 2", c.set(0, 2)),
        ("field 1 of length 7", c.set(2, 7)),
        ("field 1 of length 262", c.set(1, 1)),
        ("8 bytes", c.cut(8)),
        ("9 bytes", c.cut(9)),
        ("field 2 with tag 3", c.set(9, 3)),
        ("field 2 of length 11", c.set(11, 11)),
        ("23 bytes", c.cut(23)),
        ("24 bytes", c.cut(24)),
        ("block with tag 5", c.set(24, 5)),
        ("answers as columns", c.set(24, 3)),
        ("block of length 3", c.set(26, 3)),
        ("block of length 258", c.set(25, 1)),
        ("one byte short", c.cut(28)),
    ];
    list_lines(rt, &cases);
}

// Bytes left over, and padding.
fn refused_ends(rt: &impl Print) {
    let longest = answers(1, 1024, 2, 16);
    let c = columns(1, 9, 2, 1);
    let padded = c.set(28, 2);
    let cases = [
        ("one byte more", answers(1, 1, 2, 1).cut(30)),
        ("one byte more than the longest", longest.cut(ROOM)),
        ("columns, one byte more", c.cut(284)),
        ("padding in column 0", padded),
        ("padding in column 127", c.set(282, 128)),
        ("padding, and one byte more", padded.cut(284)),
        ("row 8, and no padding", c.set(28, 1)),
    ];
    list_lines(rt, &cases);
}

// Refusals 10 to 13: what an operation that holds a shape and asks for a tag says of the message of a case.
fn received_messages(rt: &impl Print) {
    let c = columns(2, 9, 41, 3);
    let a = answers(2, 9, 41, 3);
    let cases = [
        ("columns", TAG_COLUMNS, c),
        ("answers", TAG_STRINGS, a),
        ("answers for columns", TAG_COLUMNS, a),
        ("columns for answers", TAG_STRINGS, c),
        ("40 places for 41", TAG_COLUMNS, columns(2, 9, 40, 3)),
        ("pairs for choices", TAG_COLUMNS, columns(1, 9, 2, 3)),
        ("265 rows for 9", TAG_COLUMNS, columns(2, 265, 41, 3)),
        ("10 rows for 9", TAG_COLUMNS, columns(2, 10, 41, 3)),
        ("4 bytes for 3", TAG_COLUMNS, columns(2, 9, 41, 4)),
        ("session, first byte", TAG_COLUMNS, c.set(12, 1)),
        ("session, last byte", TAG_COLUMNS, c.set(23, 12)),
        ("nothing", TAG_COLUMNS, c.cut(0)),
        ("field 1 alone", TAG_COLUMNS, c.cut(9)),
        ("no block", TAG_COLUMNS, c.cut(24)),
        ("one byte short", TAG_COLUMNS, c.cut(538)),
        ("one byte more", TAG_COLUMNS, c.cut(540)),
        ("padding in column 255", TAG_COLUMNS, c.set(538, 4)),
    ];
    for (name, tag, case) in cases {
        let v = wire::check_received(tag, c.shape, &SESSION, case.build(&mut [0; ROOM]));
        let _ = println!(rt; "received {name} {}", Outcome(v));
    }
}

// Not inlined: its buffers would lie in the frame of `main`, below those of the other modules.
#[inline(never)]
pub(crate) fn run(rt: &impl Print) {
    whole_messages(rt);
    refused_shapes(rt);
    refused_fields(rt);
    refused_ends(rt);
    received_messages(rt);
}
