// The C library: thin exported functions over the public calls. A slice is a pointer and a length; a verdict is one number. Names, parameters and their order
// are what C links, so a shape comes as four numbers and no buffers are gathered in a struct.
#![tactic(auto, using(crate::proofs::Exports::exported))]

ghost use Rattle.std.specs.Prelude.{◌≡◌, true, false, eqb, length};
ghost use Rattle.basics.specs.Choice.{pick};
ghost use Rattle.basics.specs.Verdicts.{verdict};
ghost use Rattle.symmetric.specs.Sha.{sha256};
ghost use Rattle.symmetric.specs.ChaCha.{chacha20};
ghost use Rattle.symmetric.specs.Calls.{hash_verdict, block_verdict};
ghost use Rattle.buyer.specs.Prepare.{prepare_verdict, column_message, kept_rows};
ghost use Rattle.buyer.specs.Open.{open_verdict, opened_strings};
ghost use Rattle.supplier.specs.Answer.{answer_verdict, answer_message};
ghost use Rattle.listing.specs.Text.{listed};
ghost use Rattle.listing.specs.Lines.{listing_of};
ghost use Rattle.capi.specs.Exports.{verdict_number, Exports};

use basics::{Refusal, Verdict};
use wire::Shape;

// An answer as one number: success is 0.
fn number(answer: Result<(), Refusal>) -> u64
    ensures { result ≡ verdict_number (verdict answer) }
{
    let v = Verdict::from(answer);
    (v.code as u64) * 4294967296 + (v.place as u64) % 4294967296
}

#[unsafe(no_mangle)]
pub extern "C" fn adw_hash(input: &[u8], digest: &mut [u8]) -> u64
    ensures { Exports (hash_verdict (length input.now) (length digest.old)) (sha256 input.now) digest.old result digest.new }
{
    number(symmetric::hash(input, digest))
}

#[unsafe(no_mangle)]
pub extern "C" fn adw_cipher_block(key: &[u8], nonce: &[u8], counter: u32, block: &mut [u8]) -> u64
    ensures { Exports (block_verdict (length key.now) (length nonce.now) (length block.old)) (chacha20 key.now nonce.now counter) block.old result block.new }
{
    number(symmetric::block(key, nonce, counter, block))
}

#[unsafe(no_mangle)]
pub extern "C" fn adw_prepare_from_seeds(
    mode: u8,
    rows: u16,
    places: u16,
    bytes: u8,
    session: &[u8],
    first: &[u8],
    second: &[u8],
    selections: &[u8],
    message: &mut [u8],
    kept: &mut [u8],
) -> u64
    ensures { (Exports (prepare_verdict true mode rows places bytes session.now first.now second.now selections.now (length message.old) (length kept.old)) (column_message true mode rows places bytes session.now first.now second.now selections.now) message.old result message.new) × (Exports (prepare_verdict true mode rows places bytes session.now first.now second.now selections.now (length message.old) (length kept.old)) (kept_rows true mode rows session.now second.now selections.now) kept.old result kept.new) }
{
    let shape = Shape {
        mode,
        rows,
        places,
        bytes,
    };
    number(buyer::prepare_from_seeds(shape, session, first, second, selections, message, kept))
}

#[unsafe(no_mangle)]
pub extern "C" fn adw_prepare_from_columns(
    mode: u8,
    rows: u16,
    places: u16,
    bytes: u8,
    session: &[u8],
    first: &[u8],
    second: &[u8],
    selections: &[u8],
    message: &mut [u8],
    kept: &mut [u8],
) -> u64
    ensures { (Exports (prepare_verdict false mode rows places bytes session.now first.now second.now selections.now (length message.old) (length kept.old)) (column_message false mode rows places bytes session.now first.now second.now selections.now) message.old result message.new) × (Exports (prepare_verdict false mode rows places bytes session.now first.now second.now selections.now (length message.old) (length kept.old)) (kept_rows false mode rows session.now second.now selections.now) kept.old result kept.new) }
{
    let shape = Shape {
        mode,
        rows,
        places,
        bytes,
    };
    number(buyer::prepare_from_columns(shape, session, first, second, selections, message, kept))
}

#[unsafe(no_mangle)]
pub extern "C" fn adw_answer_from_seeds(
    mode: u8,
    rows: u16,
    places: u16,
    bytes: u8,
    session: &[u8],
    secret: &[u8],
    taken: &[u8],
    strings: &[u8],
    received: &[u8],
    message: &mut [u8],
) -> u64
    ensures { Exports (answer_verdict true mode rows places bytes session.now secret.now taken.now strings.now received.now (length message.old)) (answer_message true mode rows places bytes session.now secret.now taken.now strings.now received.now) message.old result message.new }
{
    let shape = Shape {
        mode,
        rows,
        places,
        bytes,
    };
    number(supplier::answer_from_seeds(shape, session, secret, taken, strings, received, message))
}

#[unsafe(no_mangle)]
pub extern "C" fn adw_answer_from_columns(
    mode: u8,
    rows: u16,
    places: u16,
    bytes: u8,
    session: &[u8],
    secret: &[u8],
    taken: &[u8],
    strings: &[u8],
    received: &[u8],
    message: &mut [u8],
) -> u64
    ensures { Exports (answer_verdict false mode rows places bytes session.now secret.now taken.now strings.now received.now (length message.old)) (answer_message false mode rows places bytes session.now secret.now taken.now strings.now received.now) message.old result message.new }
{
    let shape = Shape {
        mode,
        rows,
        places,
        bytes,
    };
    number(supplier::answer_from_columns(shape, session, secret, taken, strings, received, message))
}

#[unsafe(no_mangle)]
pub extern "C" fn adw_open(
    mode: u8,
    rows: u16,
    places: u16,
    bytes: u8,
    session: &[u8],
    selections: &[u8],
    kept: &[u8],
    received: &[u8],
    opened: &mut [u8],
) -> u64
    ensures { Exports (open_verdict mode rows places bytes session.now selections.now kept.now received.now (length opened.old)) (opened_strings mode rows places bytes session.now selections.now kept.now received.now) opened.old result opened.new }
{
    let shape = Shape {
        mode,
        rows,
        places,
        bytes,
    };
    number(buyer::open(shape, session, selections, kept, received, opened))
}

// The listing's bytes into a text buffer of 128, and their number; 0 where the buffer has another length, and it is then as it was.
#[tactic(auto, using(std::proofs::lemmas::Bool::Decides::nat_tests))]
#[unsafe(no_mangle)]
pub extern "C" fn adw_list(message: &[u8], text: &mut [u8]) -> usize
    ensures { (result ≡ pick (eqb (length text.old) 128) (listed (listing_of message.now)).len 0) × (text.new ≡ pick (eqb (length text.old) 128) (listed (listing_of message.now)).text text.old) }
{
    if text.len() != 128 {
        return 0;
    }
    let l = listing::list(message);
    text.copy_from_slice(&l.text);
    l.len
}
