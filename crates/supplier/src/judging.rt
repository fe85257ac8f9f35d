// What answering refuses, document 01, section 7: 1 to 7 and 9 in number order, then the received message from its front.
ghost use Rattle.std.specs.Prelude.{◌≡◌};
ghost use Rattle.basics.specs.Verdicts.{verdict};
ghost use Rattle.wire.specs.Shapes.{k_of};
ghost use Rattle.supplier.specs.Answer.{taken_padding};
ghost use Rattle.supplier.specs.Calls.{lengths_of, verdict_of};

use crate::lent::Answering;
use basics::{Reason, Refusal, check, check_clear};
use columns::entry_bytes;
use wire::{BLOCK_AT, SESSION_BYTES, TAG_COLUMNS, check_received, columns_of, judge_shape, volume};

impl Answering<'_> {
    // Refusals 6 and 7, for an output of that length.
    fn judge_lengths(&self, message: usize) -> Result<(), Refusal>
        ensures { verdict result ≡ lengths_of self.now message }
    {
        let k = columns_of(self.shape.mode);
        let taken = k * entry_bytes(self.seeded, self.shape.rows);
        let block = volume(self.shape);
        check(self.session.len() == SESSION_BYTES, Reason::InputLength, 1)?;
        check(self.secret.len() == k / 8, Reason::InputLength, 2)?;
        check(self.taken.len() == taken, Reason::InputLength, 3)?;
        check(self.strings.len() == block, Reason::InputLength, 4)?;
        check(message == BLOCK_AT + block, Reason::OutputLength, 1)
    }

    // Refusal 9, for columns that are handed in.
    fn judge_taken(&self) -> Result<(), Refusal>
        ensures { verdict result ≡ taken_padding self.now.seeded (k_of self.now.shape.mode) self.now.shape.rows self.now.taken.now }
    {
        if self.seeded {
            return Ok(());
        }
        let columns = columns_of(self.shape.mode) as u16;
        check_clear(
            self.shape.rows,
            columns,
            self.taken,
            Reason::ColumnPadding,
            0,
        )
    }

    // All that is asked before anything is written, for an output of that length.
    pub(crate) fn judge(&self, message: usize) -> Result<(), Refusal>
        ensures { verdict result ≡ verdict_of self.now message }
    {
        judge_shape(self.shape)?;
        self.judge_lengths(message)?;
        self.judge_taken()?;
        check_received(TAG_COLUMNS, self.shape, self.session, self.received)
    }
}
