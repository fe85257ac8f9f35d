// Prepare (document 01, section 5), one core for both forms: they differ in where a column comes from and in nothing else. Once nothing can be refused any
// more, the message's block is the workspace: it takes the second set's columns and D, gives the kept rows, and then takes the first set's columns.
ghost use Rattle.std.specs.Prelude.{◌≡◌, true, ◌++◌, ◌-◌, ◌*◌, ◌/◌, ◌≤◌, ◌<◌, length, drop};
ghost use Rattle.basics.specs.Bytes.{◌⊕◌};
ghost use Rattle.basics.specs.Verdicts.{verdict};
ghost use Rattle.wire.specs.Shapes.{k_of};
ghost use Rattle.wire.specs.Message.{header};
ghost use Rattle.columns.specs.Sets.{set_fit, columns_of};
ghost use Rattle.buyer.specs.Prepare.{kept_columns, column_block, kept_rows, Prepared};

use crate::choosing::add_chosen;
use basics::Refusal;
use columns::{add_set, gather_rows};
use wire::{BLOCK_AT, Shape, TAG_COLUMNS, columns_of, write_header};

// What the buyer lends to prepare, without the outputs: so what is asked of an output's length stands with each step that gets it.
// `seeded` says that the sets are seeds: it is what `columns::add_set` and `Prepared` take, and so not an enum of two kinds of sets.
#[derive(Clone, Copy)]
pub(crate) struct Preparing<'a> {
    pub(crate) seeded: bool,
    pub(crate) shape: Shape,
    pub(crate) session: &'a [u8],
    pub(crate) first: &'a [u8],
    pub(crate) second: &'a [u8],
    pub(crate) selections: &'a [u8],
}

impl<'a> Preparing<'a> {
    // Adds a set's columns to a block.
    fn add_columns(self, set: &[u8], block: &mut [u8])
        requires { set_fit self.seeded (k_of self.shape.mode) self.shape.rows
            (length self.session.now) (length set.now) (length block.old) ≡ true }
        ensures { block.new
            ≡ block.old ⊕ columns_of self.entry.seeded (k_of self.entry.shape.mode) self.entry.shape.rows self.entry.session.now set.now }
    {
        let k = columns_of(self.shape.mode) as u16;
        add_set(self.seeded, k, self.shape.rows, self.session, set, block);
    }

    // Puts the second set's columns xor D into a block: their rows are the kept rows.
    fn put_second(self, block: &mut [u8])
        requires fits { set_fit self.seeded (k_of self.shape.mode) self.shape.rows
            (length self.session.now) (length self.second.now) (length block.old) ≡ true }
        requires selected { length self.selections.now ≡ self.shape.rows }
        ensures { block.new
            ≡ kept_columns self.entry.seeded self.entry.shape.mode self.entry.shape.rows
            self.entry.session.now self.entry.second.now self.entry.selections.now }
    {
        block.fill(0);
        self.add_columns(self.second, block);
        add_chosen(self.shape.mode, self.shape.rows, self.selections, block);
    }

    // Fills the message's block and the kept rows.
    fn fill(self, block: &mut [u8], kept: &mut [u8])
        requires first_fits { set_fit self.seeded (k_of self.shape.mode) self.shape.rows
            (length self.session.now) (length self.first.now) (length block.old) ≡ true }
        requires second_fits { set_fit self.seeded (k_of self.shape.mode) self.shape.rows
            (length self.session.now) (length self.second.now) (length block.old) ≡ true }
        requires selected { length self.selections.now ≡ self.shape.rows }
        requires kept_long { length kept.old ≡ self.shape.rows * (k_of self.shape.mode / 8) }
        ensures sent { block.new
            ≡ column_block self.entry.seeded self.entry.shape.mode self.entry.shape.rows
            self.entry.session.now self.entry.first.now self.entry.second.now self.entry.selections.now }
        ensures rows { kept.new
            ≡ kept_rows self.entry.seeded self.entry.shape.mode self.entry.shape.rows
            self.entry.session.now self.entry.second.now self.entry.selections.now }
    {
        self.put_second(block);
        gather_rows(self.shape.mode, self.shape.rows, block, kept);
        self.add_columns(self.first, block);
    }

    // Writes the header of a column message over the first 27 bytes of the whole message.
    fn put_header(self, message: &mut [u8])
        requires session_long { length self.session.now ≡ 12 }
        requires long { 27 ≤ length message.old }
        requires few { length message.old < 65536 }
        ensures { message.new
            ≡ header 3 (length message.old - 27) self.entry.shape.mode self.entry.shape.rows self.entry.shape.places self.entry.shape.bytes
            self.entry.session.now ++ drop 27 message.old }
    {
        let len = message.len() - BLOCK_AT;
        write_header(
            TAG_COLUMNS,
            len,
            self.shape,
            self.session,
            &mut message[..BLOCK_AT],
        );
    }

    // Both forms of prepare.
    #[tactic(auto, using(crate::proofs::Prepared::prepared_written))]
    pub(crate) fn prepare(self, message: &mut [u8], kept: &mut [u8]) -> Result<(), Refusal>
        ensures { Prepared self.entry.seeded self.entry.shape.mode self.entry.shape.rows self.entry.shape.places self.entry.shape.bytes
            self.entry.session.now self.entry.first.now self.entry.second.now self.entry.selections.now
            message.old kept.old (verdict result) message.new kept.new }
    {
        self.judge(message.len(), kept.len())?;
        self.put_header(message);
        self.fill(&mut message[BLOCK_AT..], kept);
        Ok(())
    }
}
