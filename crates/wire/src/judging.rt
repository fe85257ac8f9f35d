// A shape's numbers and refusals 1 to 5 (document 01, sections 2 and 7).
ghost use Rattle.std.specs.Prelude.{◌≡◌, ◌+◌, ◌*◌, ◌^◌, ◌≤◌, ◌<◌};
ghost use Rattle.basics.specs.Padding.{col_bytes};
ghost use Rattle.basics.specs.Verdicts.{verdict};
ghost use Rattle.wire.specs.Shapes.{most_places, within, verdict_of, block_length, Width};

use crate::Shape;
use crate::fields::{CHOICES, TAG_COLUMNS};
use basics::{Reason, Refusal, check};

const MOST_ROWS: usize = 1024;

const MOST_BYTES: usize = 32;

const MOST_VOLUME: usize = 32768;

// k. What goes by the mode stands in a function for each definition: `k_of` and `most_places` here, a word's width in `columns`.
#[tactic(auto, using(std::proofs::lemmas::Bool::Decides::nat_tests), unfolding(crate::specs::Shapes::k_of))]
pub fn columns_of(mode: u8) -> usize
    ensures { Width mode result }
{
    if mode == CHOICES { 256 } else { 128 }
}

// c
pub fn column_bytes(rows: u16) -> usize
    ensures { result ≡ col_bytes rows }
{
    (rows as usize).div_ceil(8)
}

// m·n·l
pub fn volume(s: Shape) -> usize
    ensures { (result ≡ s.rows * s.places * s.bytes) × (result < 2 ^ 40) }
{
    (s.rows as usize) * (s.places as usize) * (s.bytes as usize)
}

// The length of the block that a tag and a shape give: k·c for columns, m·n·l for masked strings. Whatever the shape, it is far from what
// a usize holds.
#[tactic(auto, using(std::proofs::lemmas::Bool::Decides::nat_tests), unfolding(crate::specs::Shapes::block_length))]
pub fn block_length(tag: u8, s: Shape) -> usize
    ensures { (result ≡ block_length tag s.mode s.rows s.places s.bytes) × (result < 2 ^ 40) }
{
    if tag == TAG_COLUMNS {
        columns_of(s.mode) * column_bytes(s.rows)
    } else {
        volume(s)
    }
}

#[tactic(auto, using(std::proofs::lemmas::Bool::Decides::nat_tests))]
fn most_places(mode: u8) -> usize
    ensures { result ≡ most_places mode }
{
    if mode == CHOICES { 256 } else { 2 }
}

#[tactic(auto, using(std::proofs::lemmas::Bool::Decides::nat_tests))]
fn is_within(low: usize, x: usize, high: usize) -> bool
    ensures { result ≡ within low x high }
{
    low <= x && x <= high
}

// Refusals 1 to 5. Numbers are widened by `as`, which a clause sees through.
pub fn judge_shape(s: Shape) -> Result<(), Refusal>
    ensures { verdict result ≡ verdict_of s }
{
    check(is_within(1, s.mode as usize, 2), Reason::Mode, 0)?;
    check(is_within(1, s.rows as usize, MOST_ROWS), Reason::Rows, 0)?;
    check(
        is_within(2, s.places as usize, most_places(s.mode)),
        Reason::Places,
        0,
    )?;
    check(is_within(1, s.bytes as usize, MOST_BYTES), Reason::Bytes, 0)?;
    check(volume(s) <= MOST_VOLUME, Reason::Volume, 0)
}
