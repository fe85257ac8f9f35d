// The table of places: for each byte of the workspace, which of its strings the byte belongs to.
ghost use Rattle.std.specs.Prelude.{◌≡◌, ℕ, ◌+◌, ◌*◌, ◌/◌, ◌≤◌, ◌<◌, length, get_or};
ghost use Rattle.basics.specs.Bytes.{build};
ghost use Rattle.strings.specs.Gathered.{PutOn};

use crate::shape::Shape;

// Puts the first len bytes once more from `at` on, each greater by a number.
fn put_on(at: usize, len: usize, by: u8, places: &mut [u8])
    requires apart { len ≤ at }
    requires inside { at + len ≤ length places.old }
    requires small { (p : ℕ) → p < len → get_or places.old p 0 + by < 256 }
    ensures { PutOn at len by places.old places.new }
{
    for p in 0..len {
        places[at + p] = places[p] + by;
    }
}

// The place of each byte of the strings that are held, into zeros. The places of k strings give those of as many more, so that there are few and long loops:
// a division for each byte, or a loop for each string, would take longer than a row.
pub(crate) fn put_places(shape: Shape, places: &mut [u8])
    requires long { length places.old ≡ shape.held * shape.bytes }
    requires zeros { (p : ℕ) → get_or places.old p 0 ≡ 0 }
    ensures { places.new ≡ build (shape.held * shape.bytes) (λ p. p / shape.bytes) }
{
    let mut k = 1;
    // k doubles, which no range does
    while k < shape.held {
        let more = k.min(shape.held - k);
        put_on(k * shape.bytes, more * shape.bytes, k as u8, places);
        k += more;
    }
}
