// The lines that the lister prints.
ghost use Rattle.std.specs.Prelude.{◌≡◌, eqb};
ghost use Rattle.basics.specs.Choice.{pick};
ghost use Rattle.basics.specs.Verdicts.{number, verdict, or_else};
ghost use Rattle.wire.specs.Received.{padding_verdict};
ghost use Rattle.listing.specs.Text.{hexed, grown, Holds};
ghost use Rattle.listing.specs.Lines.{columns_word, answers_word, shape_line, session_byte, session_line, block_line, refused_line, listing_of};

use crate::Listing;
use basics::{Refusal, byte_or_zero};
use reading::{Walked, walk};
use wire::{SESSION_BYTES, SESSION_VALUE_AT, Shape, TAG_COLUMNS, check_padding};

impl Listing {
    // `columns` or `answers`.
    fn put_kind(&mut self, tag: u8)
        ensures { self.new ≡ grown self.old (pick (eqb tag 3) columns_word answers_word) }
    {
        if tag == TAG_COLUMNS {
            self.put(b"columns");
        } else {
            self.put(b"answers");
        }
    }

    // The kind, and the shape in decimal.
    #[tactic(auto, using(crate::proofs::Text::growing), unfolding(crate::specs::Text::grown, crate::specs::Lines::shape_line))]
    fn put_shape(&mut self, tag: u8, shape: Shape)
        ensures { self.new ≡ grown self.old (shape_line tag shape) }
    {
        self.put_kind(tag);
        self.put(b" mode ");
        self.put_decimal(usize::from(shape.mode));
        self.put(b" rows ");
        self.put_decimal(usize::from(shape.rows));
        self.put(b" places ");
        self.put_decimal(usize::from(shape.places));
        self.put(b" bytes ");
        self.put_decimal(usize::from(shape.bytes));
        self.put(b"\n");
    }

    // The session's twelve bytes in hexadecimal.
    #[tactic(auto, using(crate::proofs::Text::growing), unfolding(crate::specs::Text::grown))]
    fn put_twelve(&mut self, message: &[u8])
        ensures { self.new ≡ grown self.old (hexed 12 (session_byte message.now)) }
    {
        for i in 0..SESSION_BYTES {
            self.put_hex(byte_or_zero(message, SESSION_VALUE_AT + i));
        }
    }

    #[tactic(auto, using(crate::proofs::Text::growing), unfolding(crate::specs::Text::grown, crate::specs::Lines::session_line))]
    fn put_session(&mut self, message: &[u8])
        ensures { self.new ≡ grown self.old (session_line message.now) }
    {
        self.put(b"session ");
        self.put_twelve(message);
        self.put(b"\n");
    }

    #[tactic(auto, using(crate::proofs::Text::growing), unfolding(crate::specs::Text::grown, crate::specs::Lines::block_line))]
    fn put_block(&mut self, len: usize)
        ensures { self.new ≡ grown self.old (block_line len) }
    {
        self.put(b"block ");
        self.put_decimal(len);
        self.put(b"\n");
    }

    #[tactic(auto, using(crate::proofs::Text::growing), unfolding(crate::specs::Text::grown, crate::specs::Lines::refused_line))]
    fn put_refusal(&mut self, refusal: Refusal)
        ensures { self.new ≡ grown self.old (refused_line (number refusal.reason) refusal.place) }
    {
        self.put(b"refused ");
        self.put_decimal(refusal.reason as usize);
        self.put(b" at ");
        self.put_decimal(refusal.place);
        self.put(b"\n");
    }
}

// What the message is refused for, in section 7's order.
fn judge(walked: Walked, message: &[u8]) -> Result<(), Refusal>
    ensures { verdict result ≡ or_else (verdict walked.judged) (padding_verdict walked.tag walked.shape.mode walked.shape.rows message.now) }
{
    walked.judged?;
    check_padding(walked.tag, walked.shape, message)
}

// The listing of a message.
pub fn list(message: &[u8]) -> Listing
    ensures { Holds (listing_of message.now) result }
{
    let walked = walk(message);
    let mut listing = Listing::empty();
    match judge(walked, message) {
        Ok(()) => {
            listing.put_shape(walked.tag, walked.shape);
            listing.put_session(message);
            listing.put_block(walked.len);
        }
        Err(refusal) => listing.put_refusal(refusal),
    }
    listing
}
