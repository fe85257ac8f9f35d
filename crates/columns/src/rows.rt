// A set of columns turned into rows, eight columns at a time: eight columns give one byte to each row.
ghost use Rattle.std.specs.Prelude.{◌≡◌, ℕ, ◌+◌, ◌*◌, ◌<◌, ◌≤◌, length};
ghost use Rattle.basics.specs.Choice.{pick};
ghost use Rattle.basics.specs.Bytes.{bit_in, lines};
ghost use Rattle.basics.specs.Padding.{col_bytes};
ghost use Rattle.words.specs.Code.{code_of};
ghost use Rattle.construction.specs.Transfer.{rows as rows_of};
ghost use Rattle.columns.specs.Turned.{eight_bytes, swapped, turned, byte_of};
ghost use Rattle.columns.specs.Gathered.{gathered, given, rows_fit, RowBytes, GivesWords};

use wire::{CHOICES, column_bytes};

// Byte number `byte` of each of eight columns of c bytes, as one number, the first column's lowest: gathered one by one, since the eight do not stand side by side.
pub(crate) fn eight_bytes(c: usize, eight: &[u8], byte: usize) -> u64
    requires { (length eight.now ≡ 8 * c) × (byte < c) × (c < 65536) }
    ensures { result ≡ eight_bytes c eight.now byte }
{
    let mut w = 0u64;
    for e in (0..8usize).rev() {
        w = w * 256 + u64::from(eight[e * c + byte]);
    }
    w
}

// Each bit of x at a place of the mask changes places with the bit `by` places above it, by three xors and no branch.
#[tactic(auto, unfolding(crate::specs::Turned::swapped))]
fn swap(x: u64, mask: u64, by: usize) -> u64
    requires { by < 64 }
    ensures { result ≡ swapped mask by x }
{
    let t = (x ^ (x >> by)) & mask;
    x ^ t ^ (t << by)
}

// Eight bytes turned: bit s of byte e becomes bit e of byte s. Single bits change places across the diagonal, then pairs, then fours, so that eight rows
// have their bytes after three steps and not after 64.
pub(crate) fn turn(w: u64) -> u64
    ensures { result ≡ turned w }
{
    let singles = swap(w, 0x00aa_00aa_00aa_00aa, 7);
    let pairs = swap(singles, 0x0000_cccc_0000_cccc, 14);
    swap(pairs, 0x0000_0000_f0f0_f0f0, 28)
}

// Gives each of `count` rows, which are no more than eight, its byte g: row i has byte i of w. By a shift, as `byte_of` and the edit `msb_first` have it.
fn give_word(w: u64, count: usize, width: usize, g: usize, out: &mut [u8])
    requires { (count ≤ 8) × (length out.old ≡ count * width) × (g < width) × (width < 256) }
    ensures { out.new ≡ given width g (byte_of w) out.old }
{
    for i in 0..count {
        out[i * width + g] = ((w >> (i * 8)) % 256) as u8;
    }
}

// Gives each row its byte g, eight rows at a time, and last the rows that are fewer than eight: `word` gives the bytes of eight rows as one number. `rows` and
// `width` come in their own small types, and whole eights apart from the last rows, since the compiler makes a faster loop where it knows how many there are.
// The place `a` runs beside b: with a product in its place prepare from columns takes one part in ten more instructions.
pub(crate) fn give_words<F: Fn(usize) -> u64>(
    rows: u16,
    width: u8,
    g: usize,
    word: F,
    out: &mut [u8],
)
    requires callable { (b : ℕ) → b < col_bytes rows → F.pre word b }
    requires fits { (length out.old ≡ rows * width) × (g < width) }
    ensures { (f : ℕ → ℕ) → GivesWords (F.post word) (col_bytes rows) f → out.new ≡ given width g f out.old }
{
    let m = usize::from(rows);
    let w = usize::from(width);
    let whole = m / 8;
    let step = 8 * w;
    let mut a = 0;
    for b in 0..column_bytes(rows) {
        let v = word(b);
        if b < whole {
            give_word(v, 8, w, g, &mut out[a..a + step]);
        } else {
            give_word(v, m % 8, w, g, &mut out[a..]);
        }
        a += step;
    }
}

// Gives each row its byte g from eight columns.
fn give_bytes(rows: u16, width: u8, g: usize, eight: &[u8], out: &mut [u8])
    requires { (length eight.now ≡ 8 * col_bytes rows) × (length out.old ≡ rows * width) × (g < width) }
    ensures { out.new ≡ given width g (gathered (col_bytes rows) eight.now) out.old }
{
    let c = column_bytes(rows);
    give_words(rows, width, g, move |b| turn(eight_bytes(c, eight, b)), out);
}

// The bytes of a row, which are those of a code word, as two numbers: a division of k would have to be shown to leave nothing over.
#[tactic(auto, using(std::proofs::lemmas::Bool::Decides::nat_tests), unfolding(words::specs::Code::code_of))]
pub fn row_bytes(mode: u8) -> usize
    ensures { RowBytes mode result }
{
    if mode == CHOICES { 32 } else { 16 }
}

// Gives each of m rows its bytes in turn, eight columns for each.
fn give_rows(rows: u16, width: u8, columns: &[u8], out: &mut [u8])
    requires { (length columns.now ≡ width * (8 * col_bytes rows)) × (length out.old ≡ rows * width) }
    ensures { out.new ≡ lines rows width (λ j i. bit_in (col_bytes rows) columns.now i j) }
{
    let eight = 8 * column_bytes(rows);
    for g in 0..usize::from(width) {
        let a = g * eight;
        give_bytes(rows, width, g, &columns[a..a + eight], out);
    }
}

// A whole set of columns, and the rows that it fills.
fn rows_fit(rows: u16, width: usize, columns: usize, out: usize) -> bool
    requires { width ≤ 32 }
    ensures { result ≡ rows_fit width rows columns out }
{
    columns == width * 8 * column_bytes(rows) && out == usize::from(rows) * width
}

// A set of columns turned into rows; nothing where the lengths do not fit.
pub fn gather_rows(mode: u8, rows: u16, columns: &[u8], out: &mut [u8])
    ensures { out.new ≡ pick (rows_fit (code_of mode).width rows (length columns.now) (length out.old)) (rows_of (code_of mode) rows columns.now) out.old }
{
    let width = row_bytes(mode);
    if rows_fit(rows, width, columns.len(), out.len()) {
        give_rows(rows, width as u8, columns, out);
    }
}
