// The columns of a lent set, added to a block by xor: handed in as they are, or worked out from seeds.
ghost use Rattle.std.specs.Prelude.{◌≡◌, ◌++◌, ℕ, ◌+◌, ◌-◌, ◌*◌, ◌%◌, ◌^◌, ◌<◌, ◌≤◌, length, get_or, take};
ghost use Rattle.basics.specs.Choice.{pick};
ghost use Rattle.basics.specs.Bytes.{◌⊕◌};
ghost use Rattle.basics.specs.Padding.{col_bytes};
ghost use Rattle.symmetric.specs.ChaCha.{chacha20};
ghost use Rattle.columns.specs.Sets.{seed_column, expanded, columns_of, entry_bytes, set_fit};

use basics::xor_into;
use wire::{SESSION_BYTES, column_bytes};

pub const SEED_BYTES: usize = 32;

const MOST_ROWS: u16 = 1024;

// A block of a seed's keystream; of these lengths the cipher refuses none.
fn put_block(session: &[u8; SESSION_BYTES], seed: &[u8; SEED_BYTES], counter: u32, part: &mut [u8])
    requires { length part.old ≡ 64 }
    ensures { part.new ≡ chacha20 seed.now session.now counter }
{
    let _ = symmetric::block(seed, session, counter, part);
}

// The first c bytes of a seed's keystream, into a workspace of 128 bytes. The second block is worked out only where c reaches it.
fn keystream(c: usize, session: &[u8; SESSION_BYTES], seed: &[u8; SEED_BYTES], work: &mut [u8; 128])
    requires { c ≤ 128 }
    ensures { take c work.new ≡ take c (chacha20 seed.now session.now 0 ++ chacha20 seed.now session.now 1) }
{
    put_block(session, seed, 0, &mut work[..64]);
    if 64 < c {
        put_block(session, seed, 1, &mut work[64..]);
    }
}

// The lowest u bits of a byte.
fn low_bits(x: u8, u: usize) -> u8
    requires { u ≤ 8 }
    ensures { result ≡ x % 2 ^ u }
{
    (u32::from(x) % (1 << u)) as u8
}

// Columns of so many rows under one session, worked out from seeds.
#[derive(Clone, Copy)]
struct Seeded<'a> {
    rows: u16,
    session: &'a [u8; SESSION_BYTES],
    ghost bounded: { (0 < rows) × (rows ≤ 1024) },
}

impl Seeded<'_> {
    // The column of a seed, in the front of a workspace: the keystream cut to c bytes, with the padding cleared.
    fn expand(&self, seed: &[u8; SEED_BYTES]) -> [u8; 128]
        ensures { (p : ℕ) → p < col_bytes self.now.rows → get_or result p 0 ≡ get_or (seed_column self.now.session.now self.now.rows seed.now) p 0 }
    {
        let m = usize::from(self.rows);
        let c = column_bytes(self.rows);
        let mut work = [0u8; 128];
        keystream(c, self.session, seed, &mut work);
        let last = c - 1;
        work[last] = low_bits(work[last], m - last * 8);
        work
    }

    // Xors the column of a seed into a part of c bytes.
    fn add(&self, seed: &[u8; SEED_BYTES], out: &mut [u8])
        requires { length out.old ≡ col_bytes self.now.rows }
        ensures { out.new ≡ out.old ⊕ seed_column self.now.session.now self.now.rows seed.now }
    {
        let work = self.expand(seed);
        xor_into(&work, out);
    }

    // Xors the columns of a set of seeds into a block, one column after the other.
    fn add_all(&self, count: u16, set: &[u8], block: &mut [u8])
        requires { (length set.now ≡ count * 32) × (length block.old ≡ count * col_bytes self.now.rows) }
        ensures { block.new ≡ block.old ⊕ expanded count self.now.rows self.now.session.now set.now }
    {
        let c = column_bytes(self.rows);
        let (seeds, _) = set.as_chunks::<SEED_BYTES>();
        for (i, seed) in seeds.iter().enumerate() {
            let a = i * c;
            self.add(seed, &mut block[a..a + c]);
        }
    }
}

// The bytes that stand for one column in a lent set. `seeded` stays a flag beside the sets: prepare lends two of one kind, and `columns_of` and the calls'
// definitions take it.
pub fn entry_bytes(seeded: bool, rows: u16) -> usize
    ensures { (result ≡ entry_bytes seeded rows) × (result ≤ 8192) }
{
    if seeded {
        SEED_BYTES
    } else {
        column_bytes(rows)
    }
}

// A session of 12 bytes, a set of `count` entries, and a block of as many columns of 1 to 1,024 rows.
fn set_fit(seeded: bool, count: u16, rows: u16, session: usize, set: usize, block: usize) -> bool
    ensures { result ≡ set_fit seeded count rows session set block }
{
    let k = usize::from(count);
    1 <= rows
        && rows <= MOST_ROWS
        && session == SESSION_BYTES
        && set == k * entry_bytes(seeded, rows)
        && block == k * column_bytes(rows)
}

// Xors the columns of a lent set into a block; nothing where the lengths do not fit.
pub fn add_set(seeded: bool, count: u16, rows: u16, session: &[u8], set: &[u8], block: &mut [u8])
    ensures { block.new ≡ pick (set_fit seeded count rows (length session.now) (length set.now) (length block.old)) (block.old ⊕ columns_of seeded count rows session.now set.now) block.old }
{
    if !set_fit(seeded, count, rows, session.len(), set.len(), block.len()) {
        return;
    }
    if !seeded {
        xor_into(set, block);
    } else if let Some(session) = session.as_array() {
        Seeded { rows, session }.add_all(count, set, block);
    }
}
