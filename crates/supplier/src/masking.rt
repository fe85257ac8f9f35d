// Masking, document 01, section 5: the string at row j, place r under the pad of (j, q(j) xor (word r AND secret)). The strings are copied into the
// message, and there each pad is xored over its string, once. A place's word is worked out once for all rows.
ghost use Rattle.std.specs.Prelude.{◌≡◌, ◌<◌, ◌≤◌, length, get_or};
ghost use Rattle.std.specs.Int.Bits.{bit_and};
ghost use Rattle.basics.specs.Bytes.{build, ◌⊕◌};
ghost use Rattle.words.specs.Code.{code_of, word_bytes};
ghost use Rattle.pads.specs.Pads.{pad_bytes};
ghost use Rattle.supplier.specs.Calls.{CanMask, masked_of};
ghost use Rattle.supplier.specs.Masking.{Placed};

use crate::lent::Answering;
use basics::{byte_or_zero, copy, xor_into};
use columns::row_bytes;
use pads::mask;
use words::selected_byte;

// Word r AND the secret, zeros after its last byte.
fn masked_word(mode: u8, r: u8, secret: &[u8]) -> [u8; 32]
    ensures { result ≡ build 32 (λ p. bit_and (get_or (word_bytes (code_of mode) r) p 0) (get_or secret.now p 0)) }
{
    let mut word = [0u8; 32];
    for p in 0..32 {
        word[p] = selected_byte(mode, r, p) & byte_or_zero(secret, p);
    }
    word
}

// The session is a slice, as it was lent, and so that `pads::mask` can judge it. A string of row j under its pad: `row` is q(j), `word` the place's word AND the secret.
fn mask_string(session: &[u8], j: u32, row: &[u8], word: [u8; 32], string: &mut [u8])
    requires { (length session.now ≡ 12) × (length row.now ≤ 32) × (length string.old ≤ 32) }
    ensures { string.new ≡ string.old ⊕ pad_bytes session.now (length string.old) j (row.now ⊕ word) }
{
    let mut hashed = word;
    xor_into(row, &mut hashed);
    let w = row.len();
    mask(session, j, &hashed[0..w], string);
}

impl Answering<'_> {
    // Masks the string at place r of every row.
    fn mask_place(&self, r: u16, rows: &[u8], strings: &mut [u8])
        requires fit { CanMask self.now (length rows.now) (length strings.old) }
        requires inside { r < self.now.shape.places }
        ensures { let s = self.now.shape in
            Placed (λ p. get_or (masked_of self.now rows.now strings.old) p 0) s.places s.bytes r s.rows strings.old strings.new }
    {
        let word = masked_word(self.shape.mode, r as u8, self.secret);
        let w = row_bytes(self.shape.mode);
        let n = usize::from(self.shape.places);
        let l = usize::from(self.shape.bytes);
        let place = usize::from(r);
        for j in 0..usize::from(self.shape.rows) {
            let row = j * w;
            let at = (j * n + place) * l;
            mask_string(
                self.session,
                j as u32,
                &rows[row..row + w],
                word,
                &mut strings[at..at + l],
            );
        }
    }

    // All strings, masked under the rows q: copied, and then masked where they stand.
    pub(crate) fn mask_strings(&self, rows: &[u8], out: &mut [u8])
        requires fit { CanMask self.now (length rows.now) (length self.now.strings.now) }
        requires room { length out.old ≡ length self.now.strings.now }
        ensures { out.new ≡ masked_of self.now rows.now self.now.strings.now }
    {
        copy(self.strings, out);
        for r in 0..self.shape.places {
            self.mask_place(r, rows, out);
        }
    }
}
