// The selected string of each row, document 01, section 5. A selection chooses no branch and no address: all strings of a row are gone over under masks.
#![tactic(auto)]

ghost use Rattle.std.specs.Prelude.{◌≡◌, ◌+◌, ◌*◌, ◌/◌, length, get_or};
ghost use Rattle.basics.specs.Bytes.{build};
ghost use Rattle.strings.specs.Selected.{selected, select_fit, selected_over, Fits};

use folding::fold;
use gathering::gather;
use placing::put_places;
use shape::Shape;

mod folding;
mod gathering;
mod placing;
mod shape;

const MOST_PLACES: u16 = 256;

// String r of a row, by way of a workspace.
fn select_row(shape: Shape, r: u8, places: &[u8], row: &[u8], work: &mut [u8], out: &mut [u8])
    requires places { places.now ≡ build (shape.held * shape.bytes) (λ p. p / shape.bytes) }
    requires row { length row.now ≡ shape.strings * shape.bytes }
    requires work { length work.old ≡ shape.held * shape.bytes }
    requires out { length out.old ≡ shape.bytes }
    ensures { out.new ≡ build shape.bytes (λ t. get_or row.now (r * shape.bytes + t) 0) }
{
    gather(shape, r, places, row, work);
    fold(shape, work);
    out.copy_from_slice(&work[..shape.bytes]);
}

// The selected string of every row. Workspace and places are made once for all rows. `a` and `at` go on with the rows: as products of a counter each would
// ask for a bound of its own.
fn select_rows(shape: Shape, selections: &[u8], strings: &[u8], out: &mut [u8])
    requires { Fits (length selections.now) shape.strings shape.bytes (length selections.now) (length strings.now) (length out.old) }
    ensures { out.new ≡ selected (length selections.now) shape.strings shape.bytes selections.now strings.now }
{
    let front = shape.front();
    let row = shape.row();
    let mut places = [0u8; 256];
    put_places(shape, &mut places[..front]);
    let mut work = [0u8; 256];
    let mut a = 0;
    let mut at = 0;
    for r in selections {
        select_row(
            shape,
            *r,
            &places[..front],
            &strings[at..at + row],
            &mut work[..front],
            &mut out[a..a + shape.bytes],
        );
        a += shape.bytes;
        at += row;
    }
}

// Numbers and lengths that fit each other.
fn select_fit(m: u16, n: u16, l: u8, selections: usize, strings: usize, out: usize) -> bool
    ensures { result ≡ select_fit m n l selections strings out }
{
    let rows = usize::from(m);
    let one = usize::from(l);
    1 <= n
        && n <= MOST_PLACES
        && 1 <= l
        && selections == rows
        && strings == rows * usize::from(n) * one
        && out == rows * one
}

// Gives the selected string of each row; nothing where numbers and lengths do not fit.
pub fn select(rows: u16, places: u16, bytes: u8, selections: &[u8], strings: &[u8], out: &mut [u8])
    ensures { out.new ≡ selected_over rows places bytes selections.now strings.now out.old }
{
    if select_fit(
        rows,
        places,
        bytes,
        selections.len(),
        strings.len(),
        out.len(),
    ) {
        let shape = Shape::of(usize::from(places), usize::from(bytes));
        select_rows(shape, selections, strings, out);
    }
}
