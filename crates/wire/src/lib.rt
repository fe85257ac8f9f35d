// Messages of document 01: the shape of a batch, the fields, and what operations ask of a received message.
#![tactic(auto)]

mod fields;
mod judging;
mod receiving;
mod writing;

pub use fields::{
    BLOCK_AT, BLOCK_HEADER_AT, CHOICES, SESSION_AT, SESSION_BYTES, SESSION_VALUE_AT, SHAPE_AT,
    SHAPE_BYTES, SHAPE_VALUE_AT, TAG_COLUMNS, TAG_SESSION, TAG_SHAPE, TAG_STRINGS,
};
pub use judging::{block_length, column_bytes, columns_of, judge_shape, volume};
pub use receiving::{check_padding, check_received, has_header, number};
pub use writing::write_header;

// Mode, rows m, places n and bytes l, at their widths on the wire.
#[derive(Clone, Copy)]
pub struct Shape {
    pub mode: u8,
    pub rows: u16,
    pub places: u16,
    pub bytes: u8,
}
