// The two standards of document 01, section 4, and nothing else public: SHA-256 (FIPS 180-4) and the ChaCha20 block (RFC 8439).
#![tactic(auto)]

ghost use Rattle.std.specs.Prelude.{◌≡◌, length};
ghost use Rattle.basics.specs.Verdicts.{Gives, verdict};
ghost use Rattle.symmetric.specs.Sha.{sha256};
ghost use Rattle.symmetric.specs.ChaCha.{chacha20};
ghost use Rattle.symmetric.specs.Calls.{hash_verdict, block_verdict};

mod cipher;
mod constants;
mod message;
mod rounds;
mod schedule;

use basics::{Reason, Refusal, check};

// The longest input of the hash.
const MOST_INPUT: usize = 65535;

fn judge_hash(input: usize, digest: usize) -> Result<(), Refusal>
    ensures { verdict result ≡ hash_verdict input digest }
{
    check(input <= MOST_INPUT, Reason::InputLength, 1)?;
    check(digest == 32, Reason::OutputLength, 1)
}

// The SHA-256 digest of up to 65,535 bytes.
pub fn hash(input: &[u8], digest: &mut [u8]) -> Result<(), Refusal>
    ensures { Gives (hash_verdict (length input.now) (length digest.old)) (sha256 input.now) digest.old (verdict result) digest.new }
{
    judge_hash(input.len(), digest.len())?;
    message::put_digest(input, digest);
    Ok(())
}

fn judge_block(key: usize, nonce: usize, out: usize) -> Result<(), Refusal>
    ensures { verdict result ≡ block_verdict key nonce out }
{
    check(key == 32, Reason::InputLength, 1)?;
    check(nonce == 12, Reason::InputLength, 2)?;
    check(out == 64, Reason::OutputLength, 1)
}

// One block of the ChaCha20 keystream.
pub fn block(key: &[u8], nonce: &[u8], counter: u32, out: &mut [u8]) -> Result<(), Refusal>
    ensures { Gives (block_verdict (length key.now) (length nonce.now) (length out.old)) (chacha20 key.now nonce.now counter) out.old (verdict result) out.new }
{
    judge_block(key.len(), nonce.len(), out.len())?;
    cipher::put_block(key, nonce, counter, out);
    Ok(())
}
