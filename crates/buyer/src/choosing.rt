// D, added to a block of columns (document 01, section 5). A selection is the buyer's secret: it chooses no branch and no address. Eight rows at a time give
// each column one byte. These bytes stand in a table that is doubled, since at place 2^t + x a word differs from its place x by one digit for all x below
// 2^t: so a byte of D costs two xors, and not eight places of words.
ghost use Rattle.std.specs.Prelude.{◌≡◌, ◌+◌, ◌*◌, ◌^◌, ◌<◌, ◌≤◌, length, get_or};
ghost use Rattle.basics.specs.Bytes.{◌⊕◌};
ghost use Rattle.basics.specs.Padding.{col_bytes};
ghost use Rattle.words.specs.Code.{k, code_of};
ghost use Rattle.construction.specs.Transfer.{chosen};
ghost use Rattle.buyer.specs.Chosen.{place_byte, Begins, added_bytes};

use basics::byte_or_zero;
use wire::CHOICES;

// The most columns of a batch.
const MOST_COLUMNS: usize = 256;

// Place i of word r, from the bits of r.
fn place_of(mode: u8, r: u8, i: usize) -> u8
    requires { i < k (code_of mode) }
    ensures { (result ≡ (code_of mode).word r i) × (result < 2) }
{
    (words::selected_byte(mode, r, i / 8) >> (i % 8)) % 2
}

// How often one column is doubled to k: by the mode, as k is, since a logarithm of k would be longer.
#[tactic(auto, using(std::proofs::lemmas::Bool::Decides::nat_tests), unfolding(words::specs::Code::code_of))]
fn doublings(mode: u8) -> usize
    ensures { (2 ^ result ≡ k (code_of mode)) × (result ≤ 8) }
{
    if mode == CHOICES { 8 } else { 7 }
}

// Place i of the words that the first eight of these rows select, the first row's lowest.
fn places(mode: u8, rows: &[u8], i: usize) -> u8
    requires { i < k (code_of mode) }
    ensures { result ≡ place_byte (code_of mode) rows.now 0 i }
{
    let mut byte: u8 = 0;
    for e in 0..8 {
        byte += place_of(mode, byte_or_zero(rows, e), i) << e;
    }
    byte
}

// From the bytes of 2^t columns those of twice as many.
fn double(mode: u8, rows: &[u8], t: usize, table: &mut [u8; MOST_COLUMNS])
    requires few { t < 8 }
    requires half { 2 ^ t < k (code_of mode) }
    requires front { Begins (code_of mode) rows.now 0 (2 ^ t) table.old }
    ensures { Begins (code_of mode) rows.now 0 (2 ^ t + 2 ^ t) table.new }
{
    let half = 1usize << t;
    let turn = places(mode, rows, half) ^ table[0];
    for x in 0..half {
        table[half + x] = table[x] ^ turn;
    }
}

// The bytes that the first eight of these rows give to the k columns.
fn fill_table(mode: u8, rows: &[u8], table: &mut [u8; MOST_COLUMNS])
    ensures { Begins (code_of mode) rows.now 0 (k (code_of mode)) table.new }
{
    table[0] = places(mode, rows, 0);
    for t in 0..doublings(mode) {
        double(mode, rows, t, table);
    }
}

// Adds a table of k bytes to byte b of k columns of c bytes.
fn add_table(c: usize, b: usize, k: usize, table: &[u8; MOST_COLUMNS], block: &mut [u8])
    requires { (b < c) × (c ≤ 8192) × (k ≤ 256) × (length block.old ≡ k * c) }
    ensures { block.new ≡ added_bytes c b (λ i. get_or table.now i 0) block.old }
{
    for i in 0..k {
        let at = i * c + b;
        block[at] ^= table[i];
    }
}

// Adds byte b of D's columns.
fn add_eight(mode: u8, c: usize, b: usize, selections: &[u8], block: &mut [u8])
    requires { (b < c) × (c ≤ 8192) × (b * 8 ≤ length selections.now) × (length block.old ≡ k (code_of mode) * c) }
    ensures { block.new ≡ added_bytes c b (place_byte (code_of mode) selections.now (b * 8)) block.old }
{
    let mut table = [0u8; MOST_COLUMNS];
    fill_table(mode, &selections[b * 8..], &mut table);
    add_table(c, b, wire::columns_of(mode), &table, block);
}

// Adds D to a block of k columns.
pub(crate) fn add_chosen(mode: u8, rows: u16, selections: &[u8], block: &mut [u8])
    requires { (length selections.now ≡ rows) × (length block.old ≡ k (code_of mode) * col_bytes rows) }
    ensures { block.new ≡ block.old ⊕ chosen (code_of mode) rows selections.now }
{
    let c = wire::column_bytes(rows);
    for b in 0..c {
        add_eight(mode, c, b, selections, block);
    }
}
