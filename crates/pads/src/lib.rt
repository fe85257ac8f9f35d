// Pads over SHA-256, document 01, section 4. No other crate of the transfer layer hashes.
#![tactic(auto)]

ghost use Rattle.std.specs.Prelude.{◌≡◌, ◌++◌, ◌+◌, ◌≤◌, length, take, replicate};
ghost use Rattle.basics.specs.Bytes.{be32};
ghost use Rattle.pads.specs.Pads.{pad_bytes, pad_masked};

use basics::xor_into;
use symmetric::hash;

// The length is `wire`'s too, which this crate does not build on.
const SESSION_BYTES: usize = 12;

const MOST_ROW: usize = 32;

const DIGEST_BYTES: usize = 32;

// Puts the bytes that are hashed into the front of 48 zeros: session, j as four bytes big-endian, row. The row is xored over its zeros: a copy whose length is
// not known is made into two calls of the C library, which a pad would wait for, and an xor is not.
fn put_input(session: &[u8; SESSION_BYTES], j: u32, row: &[u8], input: &mut [u8; 48])
    requires { (length row.now ≤ 32) × (input.old ≡ replicate 48 0) }
    ensures { take (16 + length row.now) input.new ≡ session.now ++ be32 j ++ row.now }
{
    input[0..12].copy_from_slice(session);
    input[12..16].copy_from_slice(&j.to_be_bytes());
    xor_into(row, &mut input[16..48]);
}

// The pad of (j, row), all the bytes that a digest has.
fn pad(session: &[u8; SESSION_BYTES], j: u32, row: &[u8]) -> [u8; DIGEST_BYTES]
    requires { length row.now ≤ 32 }
    ensures { result ≡ pad_bytes session.now 32 j row.now }
{
    let mut input = [0u8; 48];
    put_input(session, j, row, &mut input);
    let end = 16 + row.len();
    let mut digest = [0u8; DIGEST_BYTES];
    let _ = hash(&input[0..end], &mut digest);
    digest
}

// Xors the pad of (j, row) over a string, which masks it or opens it. Lengths that do not fit leave the string as it is.
pub fn mask(session: &[u8], j: u32, row: &[u8], string: &mut [u8])
    ensures { string.new ≡ pad_masked session.now j row.now string.old }
{
    let Some(session) = session.as_array() else {
        return;
    };
    if row.len() <= MOST_ROW && string.len() <= DIGEST_BYTES {
        xor_into(&pad(session, j, row), string);
    }
}
