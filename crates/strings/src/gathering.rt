// All strings of a row gone over under masks, so that every selection reads the same bytes in the same order. A byte's mask comes of the whole selection and
// of the byte's own place: it differs from byte to byte, and no loop can be left out under it.
ghost use Rattle.std.specs.Prelude.{◌≡◌, ◌+◌, ◌-◌, ◌*◌, ◌/◌, ◌%◌, ◌≤◌, length, get_or};
ghost use Rattle.basics.specs.Bytes.{build};
ghost use Rattle.strings.specs.Gathered.{equal_mask, under, added, Alone};

use crate::shape::Shape;

// Where strings are left after the first that are held, those are fewer than 256, and none of them has this place. A number and no Option: the mask made of it
// is all zeros without a branch.
const NO_PLACE: u8 = 255;

// All ones where two bytes are equal, else 0: what the sum of 255 and their difference carries tells them apart.
#[tactic(auto, using(crate::proofs::Gathered::equal_carry))]
fn equal(a: u8, b: u8) -> u8
    ensures { result ≡ equal_mask a b }
{
    let apart = (u32::from(a ^ b) + 255) >> 8;
    ((1 - apart) * 255) as u8
}

// Puts into work the bytes of src that stand at a place, and zeros for the others.
fn hold(place: u8, places: &[u8], src: &[u8], work: &mut [u8])
    requires places { length work.old ≤ length places.now }
    requires src { length work.old ≤ length src.now }
    ensures { work.new ≡ build (length work.old) (under place places.now src.now) }
{
    for p in 0..work.len() {
        work[p] = src[p] & equal(places[p], place);
    }
}

// Xors into work the bytes of src that stand at a place, and those of more that stand at another: two of them a turn, since reading and writing work
// costs as much as they do.
fn add(place: u8, other: u8, places: &[u8], src: &[u8], more: &[u8], work: &mut [u8])
    requires places { length work.old ≤ length places.now }
    requires src { length work.old ≤ length src.now }
    requires more { length work.old ≤ length more.now }
    ensures { work.new ≡ added place other places.now src.now more.now work.old }
{
    for p in 0..work.len() {
        let here = src[p] & equal(places[p], place);
        let there = more[p] & equal(places[p], other);
        work[p] = work[p] ^ here ^ there;
    }
}

// The place r counted from place i on, in a byte: below i it comes round to where there are no places.
fn counted_from(i: usize, r: u8) -> u8
    requires { i ≤ 256 }
    ensures { result ≡ (256 + r - i) % 256 }
{
    r.wrapping_sub((i % 256) as u8)
}

// Leaves string r of a row alone in a workspace: the first strings, as many as it holds, are held under their masks, and the others are added, twice as many
// at a time while there are so many.
pub(crate) fn gather(shape: Shape, r: u8, places: &[u8], row: &[u8], work: &mut [u8])
    requires places { places.now ≡ build (shape.held * shape.bytes) (λ p. p / shape.bytes) }
    requires row { length row.now ≡ shape.strings * shape.bytes }
    requires work { length work.old ≡ shape.held * shape.bytes }
    ensures { Alone shape.bytes shape.held (λ t. get_or row.now (r * shape.bytes + t) 0) (λ p. get_or work.new p 0) }
{
    hold(r, places, &row[..shape.front()], work);
    let mut i = shape.held;
    // a turn takes as many strings as are held, or twice as many: no range has such a step
    while i < shape.strings {
        let count = shape.held.min(shape.strings - i);
        let next = i + count;
        let len = count * shape.bytes;
        let a = i * shape.bytes;
        let b = a + len;
        if shape.held <= shape.strings - next {
            add(
                counted_from(i, r),
                counted_from(next, r),
                places,
                &row[a..b],
                &row[b..b + len],
                &mut work[..len],
            );
            i = next + count;
        } else {
            add(
                counted_from(i, r),
                NO_PLACE,
                places,
                &row[a..b],
                &row[a..b],
                &mut work[..len],
            );
            i = next;
        }
    }
}
