// The fields of a message (document 01, section 6): their tags, where headers and values begin, and the lengths that every message has. And mode 2.

// A mode stays a byte too: `Shape` holds what came from outside, and refusal 1 is about it.
pub const CHOICES: u8 = 2;

// Tags stay bytes: any byte may stand where a tag is expected, and `block_length` and `has_header` promise an answer for each.
pub const TAG_SHAPE: u8 = 1;

pub const TAG_SESSION: u8 = 2;

pub const TAG_COLUMNS: u8 = 3;

pub const TAG_STRINGS: u8 = 4;

// The first field's header, and its value.
pub const SHAPE_AT: usize = 0;

pub const SHAPE_VALUE_AT: usize = 3;

pub const SHAPE_BYTES: usize = 6;

// The second field's header, and its value.
pub const SESSION_AT: usize = 9;

pub const SESSION_VALUE_AT: usize = 12;

pub const SESSION_BYTES: usize = 12;

// The third field's header, and its value, the block.
pub const BLOCK_HEADER_AT: usize = 24;

pub const BLOCK_AT: usize = 27;
