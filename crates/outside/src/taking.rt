// The base transfers: of each pair of entries, seeds or columns, the supplier comes to hold the one that its secret names. The secret
// chooses branches here, as it must not in the layer.
ghost use Rattle.std.specs.Prelude.{◌≡◌, ◌/◌, length};
ghost use Rattle.basics.specs.Bytes.{bit_at};
ghost use Rattle.outside.specs.Taken.{taken_byte, taken_set};

use basics::byte_or_zero;

// The entry in which byte p stands.
fn entry_of(width: usize, p: usize) -> usize
    ensures { result ≡ p / width }
{
    p.checked_div(width).unwrap_or(0)
}

// Bit i of a string.
fn bit_of(s: &[u8], i: usize) -> u8
    ensures { result ≡ bit_at s.now i }
{
    (byte_or_zero(s, i / 8) >> (i % 8)) % 2
}

fn taken_byte(width: usize, secret: &[u8], first: &[u8], second: &[u8], p: usize) -> u8
    ensures { result ≡ taken_byte width secret.now first.now second.now p }
{
    if bit_of(secret, entry_of(width, p)) == 0 {
        byte_or_zero(first, p)
    } else {
        byte_or_zero(second, p)
    }
}

// Takes entries of `width` bytes, as many as `taken` has room for.
pub fn take(width: usize, secret: &[u8], first: &[u8], second: &[u8], taken: &mut [u8])
    ensures { taken.new ≡ taken_set width secret.now first.now second.now (length taken.old) }
{
    for (p, byte) in taken.iter_mut().enumerate() {
        *byte = taken_byte(width, secret, first, second, p);
    }
}
