// FIPS 180-4, section 6.2.2, step 1: the 64 words that a block is made into.
ghost use Rattle.std.specs.Prelude.{◌≡◌, ℕ, ◌+◌, ◌/◌, ◌^◌, ◌<◌, ◌≤◌, List, bit_xor, length};
ghost use Rattle.std.specs.Int.{w32, rotate_right};
ghost use Rattle.basics.specs.Bytes.{be32_at};
ghost use Rattle.symmetric.specs.Sha.{expanded};
ghost use Rattle.symmetric.specs.Values.{Scheduled};

// Section 4.1.2: both functions of the schedule are two rotations and a shift under xor.
fn small_sigma<const A: u32, const B: u32, const C: u32>(x: u32) -> u32
    requires { C < 32 }
    ensures { result ≡ bit_xor (bit_xor (rotate_right w32 x A) (rotate_right w32 x B)) (x / 2 ^ C) }
{
    x.rotate_right(A) ^ x.rotate_right(B) ^ (x >> C)
}

// A word from four bytes, the most significant first.
fn word_at(b: &[u8; 64], i: usize) -> u32
    requires { i + 4 ≤ 64 }
    ensures { result ≡ be32_at b.now i }
{
    u32::from_be_bytes([b[i], b[i + 1], b[i + 2], b[i + 3]])
}

// Word t, from 16 on, from the words before it.
fn expanded_word(w: &[u32; 64], t: usize) -> u32
    requires { (16 ≤ t) × (t < 64) }
    ensures { result ≡ expanded w.now t }
{
    small_sigma::<17, 19, 10>(w[t - 2])
        .wrapping_add(w[t - 7])
        .wrapping_add(small_sigma::<7, 18, 3>(w[t - 15]))
        .wrapping_add(w[t - 16])
}

// The first 16 words are the block's.
pub(crate) fn load(block: &[u8; 64]) -> [u32; 64]
    ensures { Scheduled block.now 16 result }
{
    let mut w = [0u32; 64];
    for t in 0..16 {
        w[t] = word_at(block, t * 4);
    }
    w
}

// Words t to t + 7: so few at a time that those just made need not be read back.
pub(crate) fn extend(w: &mut [u32; 64], t: usize)
    requires { (16 ≤ t) × (t + 8 ≤ 64) }
    ensures { (bs : List ℕ) → Scheduled bs t w.old → Scheduled bs (t + 8) w.new }
{
    for i in 0..8 {
        w[t + i] = expanded_word(w, t + i);
    }
}
