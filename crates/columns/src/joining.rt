// Joining, for the supplier's rows: eight columns and eight others turned into rows together. A row's byte is the first's xor what `keep` leaves of the others'.
// `keep` may come of a secret: it is used whole, eight times over in one word, so that there is nothing in it to branch on.
ghost use Rattle.std.specs.Prelude.{◌≡◌, true, ◌*◌, ◌<◌, length};
ghost use Rattle.basics.specs.Padding.{col_bytes};
ghost use Rattle.columns.specs.Turned.{eight_bytes, turned, eight_times, joined_words};
ghost use Rattle.columns.specs.Gathered.{given, joined, eight_fit, joined_over};

use crate::rows::{eight_bytes, give_words, turn};
use wire::column_bytes;

// A byte, eight times over.
fn eight_times(x: u8) -> u64
    ensures { result ≡ eight_times x }
{
    u64::from(x) * 0x0101_0101_0101_0101
}

// Byte number `byte` of eight columns and of eight others, turned and joined.
fn joined_word(c: usize, keep: u64, eight: &[u8], others: &[u8], byte: usize) -> u64
    requires { (length eight.now ≡ 8 * c) × (length others.now ≡ 8 * c) × (byte < c) × (c < 65536) }
    ensures { result ≡ joined_words keep (turned (eight_bytes c eight.now byte)) (turned (eight_bytes c others.now byte)) }
{
    turn(eight_bytes(c, eight, byte)) ^ (turn(eight_bytes(c, others, byte)) & keep)
}

// Gives each row its byte g from eight columns and eight others.
fn join_bytes(rows: u16, width: u8, g: usize, keep: u8, eight: &[u8], others: &[u8], out: &mut [u8])
    requires { eight_fit rows width g (length eight.now) (length others.now) (length out.old) ≡ true }
    ensures { out.new ≡ given width g (joined (col_bytes rows) keep eight.now others.now) out.old }
{
    let c = column_bytes(rows);
    let eight_keep = eight_times(keep);
    give_words(
        rows,
        width,
        g,
        move |b| joined_word(c, eight_keep, eight, others, b),
        out,
    );
}

// Eight columns of m rows, eight others, and m rows of more than g bytes.
fn eight_fit(rows: u16, width: u8, g: usize, eight: usize, others: usize, out: usize) -> bool
    ensures { result ≡ eight_fit rows width g eight others out }
{
    let columns = 8 * column_bytes(rows);
    eight == columns
        && others == columns
        && out == usize::from(rows) * usize::from(width)
        && g < usize::from(width)
}

// Gives each row its byte g from eight columns and eight others; nothing where the lengths do not fit. The numbers come in small types, each a parameter, since
// the compiler makes a faster loop of them (`give_words`).
pub fn join_eight(
    rows: u16,
    width: u8,
    g: usize,
    keep: u8,
    eight: &[u8],
    others: &[u8],
    out: &mut [u8],
)
    ensures { out.new ≡ joined_over rows width g keep eight.now others.now out.old }
{
    if eight_fit(rows, width, g, eight.len(), others.len(), out.len()) {
        join_bytes(rows, width, g, keep, eight, others, out);
    }
}
