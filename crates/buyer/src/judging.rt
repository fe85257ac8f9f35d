// What prepare and open refuse by their lent buffers (document 01, section 7): lengths (6, 7), a selection that is n or more (8), and padding (9).
ghost use Rattle.std.specs.Prelude.{◌≡◌, length};
ghost use Rattle.basics.specs.First.{first_at};
ghost use Rattle.basics.specs.Verdicts.{verdict};
ghost use Rattle.wire.specs.Shapes.{k_of};
ghost use Rattle.buyer.specs.Selections.{too_large, selections_verdict};
ghost use Rattle.buyer.specs.Prepare.{prepare_lengths, sets_padding, prepare_verdict};
ghost use Rattle.buyer.specs.Open.{open_lengths, open_verdict};

use crate::opening::Opening;
use crate::preparing::Preparing;
use basics::{Reason, Refusal, check, check_clear};
use columns::entry_bytes;
use wire::{
    BLOCK_AT, SESSION_BYTES, TAG_STRINGS, check_received, column_bytes, columns_of, judge_shape,
};

// The first row whose selection is n or more, and m where there is none. The document names this form: a loop that yields the row by `break`.
fn first_large(m: usize, n: u16, selections: &[u8]) -> usize
    requires { length selections.now ≡ m }
    ensures { result ≡ first_at m (too_large n selections.now) }
{
    let mut j = 0;
    let row = loop {
        if m <= j {
            break m;
        }
        if n <= u16::from(selections[j]) {
            break j;
        }
        j += 1;
    };
    row
}

// Refusal 8.
fn judge_selections(rows: u16, places: u16, selections: &[u8]) -> Result<(), Refusal>
    requires { length selections.now ≡ rows }
    ensures { verdict result ≡ selections_verdict rows places selections.now }
{
    let m = usize::from(rows);
    let row = first_large(m, places, selections);
    check(row == m, Reason::Selection, row)
}

impl<'a> Preparing<'a> {
    // Refusals 6 and 7 of prepare.
    fn judge_lengths(self, message: usize, kept: usize) -> Result<(), Refusal>
        ensures { verdict result
            ≡ prepare_lengths self.entry.seeded self.entry.shape.mode self.entry.shape.rows
            (length self.entry.session.now) (length self.entry.first.now) (length self.entry.second.now) (length self.entry.selections.now) message kept }
    {
        let k = columns_of(self.shape.mode);
        let set = k * entry_bytes(self.seeded, self.shape.rows);
        let block = k * column_bytes(self.shape.rows);
        let m = usize::from(self.shape.rows);
        check(self.session.len() == SESSION_BYTES, Reason::InputLength, 1)?;
        check(self.first.len() == set, Reason::InputLength, 2)?;
        check(self.second.len() == set, Reason::InputLength, 3)?;
        check(self.selections.len() == m, Reason::InputLength, 4)?;
        check(message == BLOCK_AT + block, Reason::OutputLength, 1)?;
        check(kept == m * (k / 8), Reason::OutputLength, 2)
    }

    // Refusal 9, for columns that are handed in.
    fn judge_sets(self) -> Result<(), Refusal>
        ensures { verdict result
            ≡ sets_padding self.entry.seeded (k_of self.entry.shape.mode) self.entry.shape.rows self.entry.first.now self.entry.second.now }
    {
        if self.seeded {
            return Ok(());
        }
        let rows = self.shape.rows;
        let k = columns_of(self.shape.mode) as u16;
        check_clear(rows, k, self.first, Reason::ColumnPadding, 0)?;
        check_clear(rows, k, self.second, Reason::ColumnPadding, k)
    }

    // Refusals 1 to 9 of prepare, in number order.
    pub(crate) fn judge(self, message: usize, kept: usize) -> Result<(), Refusal>
        ensures { verdict result
            ≡ prepare_verdict self.entry.seeded self.entry.shape.mode self.entry.shape.rows self.entry.shape.places self.entry.shape.bytes
            self.entry.session.now self.entry.first.now self.entry.second.now self.entry.selections.now message kept }
    {
        judge_shape(self.shape)?;
        self.judge_lengths(message, kept)?;
        judge_selections(self.shape.rows, self.shape.places, self.selections)?;
        self.judge_sets()
    }
}

impl<'a> Opening<'a> {
    // Refusals 6 and 7 of open.
    fn judge_lengths(self, opened: usize) -> Result<(), Refusal>
        ensures { verdict result
            ≡ open_lengths self.entry.shape.mode self.entry.shape.rows self.entry.shape.bytes
            (length self.entry.session.now) (length self.entry.selections.now) (length self.entry.kept.now) opened }
    {
        let m = usize::from(self.shape.rows);
        let l = usize::from(self.shape.bytes);
        let width = columns_of(self.shape.mode) / 8;
        check(self.session.len() == SESSION_BYTES, Reason::InputLength, 1)?;
        check(self.selections.len() == m, Reason::InputLength, 2)?;
        check(self.kept.len() == m * width, Reason::InputLength, 3)?;
        check(opened == m * l, Reason::OutputLength, 1)
    }

    // Refusals 1 to 8 of open in number order, then those of the received message from its front.
    pub(crate) fn judge(self, opened: usize) -> Result<(), Refusal>
        ensures { verdict result
            ≡ open_verdict self.entry.shape.mode self.entry.shape.rows self.entry.shape.places self.entry.shape.bytes
            self.entry.session.now self.entry.selections.now self.entry.kept.now self.entry.received.now opened }
    {
        judge_shape(self.shape)?;
        self.judge_lengths(opened)?;
        judge_selections(self.shape.rows, self.shape.places, self.selections)?;
        check_received(TAG_STRINGS, self.shape, self.session, self.received)
    }
}
