// FIPS 180-4, sections 5.1.1 and 6.2: the blocks of the padded message, one after the other, and the digest's bytes.
ghost use Rattle.std.specs.Prelude.{◌≡◌, ◌-◌, ◌*◌, ◌/◌, ◌<◌, ◌≤◌, ◌∷◌, ◌++◌, length, take, replicate};
ghost use Rattle.symmetric.specs.Sha.{padded, be64, blocks, sha256};
ghost use Rattle.symmetric.specs.Values.{words};

use crate::rounds::State;

// The hash value after the blocks that lie whole in the message.
fn whole(input: &[u8]) -> State
    ensures { words result ≡ blocks (padded input.now) (length input.now / 64) }
{
    let mut h = State::first();
    for block in input.as_chunks::<64>().0 {
        h = h.compressed(block);
    }
    h
}

// What is left of the message, the byte 128 after it, and zeros to the end of the block.
fn marked(rest: &[u8]) -> [u8; 64]
    requires { length rest.now < 64 }
    ensures { result ≡ rest.now ++ (128 ∷ replicate (63 - length rest.now) 0) }
{
    let mut block = [0u8; 64];
    block[..rest.len()].copy_from_slice(rest);
    block[rest.len()] = 128;
    block
}

// The last eight bytes of a block take the length of a message of n bytes, in bits.
fn put_size(n: usize, block: &mut [u8; 64])
    requires { n ≤ 65535 }
    ensures { block.new ≡ take 56 block.old ++ be64 (8 * n) }
{
    let bits = 8 * n;
    block[56..].copy_from_slice(&bits.to_be_bytes());
}

// The hash value after the one or two blocks that are left: the length stands in the block of the mark if it fits there.
fn finished(input: &[u8]) -> State
    requires { length input.now ≤ 65535 }
    ensures { words result ≡ blocks (padded input.now) (length (padded input.now) / 64) }
{
    let h = whole(input);
    let rest = input.as_chunks::<64>().1;
    let fits = rest.len() < 56;
    let mut b = marked(rest);
    if fits {
        put_size(input.len(), &mut b);
        return h.compressed(&b);
    }
    let mut e = [0u8; 64];
    put_size(input.len(), &mut e);
    h.compressed(&b).compressed(&e)
}

pub(crate) fn put_digest(input: &[u8], digest: &mut [u8])
    requires { (length input.now ≤ 65535) × (length digest.old ≡ 32) }
    ensures { digest.new ≡ sha256 input.now }
{
    let h = finished(input).listed();
    digest.copy_from_slice(h.map(u32::to_be_bytes).as_flattened());
}
