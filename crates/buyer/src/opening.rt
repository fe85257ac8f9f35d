// Open (document 01, section 5): row j is the masked string at the selected place xor the pad of (j, kept row j).
ghost use Rattle.std.specs.Prelude.{◌≡◌, ◌≤◌, length, drop};
ghost use Rattle.basics.specs.Verdicts.{verdict};
ghost use Rattle.wire.specs.Message.{block_at};
ghost use Rattle.buyer.specs.Open.{SelectedFits, opened_selected, OpenFits, opened_strings, Opened};

use basics::Refusal;
use columns::row_bytes;
use pads::mask;
use strings::select;
use wire::{BLOCK_AT, Shape};

// What the buyer lends to open, without the output.
#[derive(Clone, Copy)]
pub(crate) struct Opening<'a> {
    pub(crate) shape: Shape,
    pub(crate) session: &'a [u8],
    pub(crate) selections: &'a [u8],
    pub(crate) kept: &'a [u8],
    pub(crate) received: &'a [u8],
}

impl<'a> Opening<'a> {
    // Opens strings that were selected, each where it stands: row j's pad is xored over it.
    fn open_selected(self, strings: &mut [u8])
        requires { SelectedFits self.shape.mode self.shape.rows self.shape.bytes
            (length self.session.now) (length self.kept.now) (length strings.old) }
        ensures { strings.new
            ≡ opened_selected self.entry.shape.mode self.entry.shape.rows self.entry.shape.bytes self.entry.session.now self.entry.kept.now strings.old }
    {
        let l = usize::from(self.shape.bytes);
        let w = row_bytes(self.shape.mode);
        for j in 0..self.shape.rows {
            let i = usize::from(j);
            let a = i * l;
            let b = i * w;
            let row = &self.kept[b..b + w];
            mask(self.session, u32::from(j), row, &mut strings[a..a + l]);
        }
    }

    // Opens each row.
    fn open_rows(self, opened: &mut [u8])
        requires arrived { block_at ≤ length self.received.now }
        requires fits { OpenFits self.shape.mode self.shape.rows self.shape.places self.shape.bytes
            self.session.now self.selections.now self.kept.now (drop block_at self.received.now) opened.old }
        ensures { opened.new
            ≡ opened_strings self.entry.shape.mode self.entry.shape.rows self.entry.shape.places self.entry.shape.bytes
            self.entry.session.now self.entry.selections.now self.entry.kept.now self.entry.received.now }
    {
        let s = self.shape;
        select(
            s.rows,
            s.places,
            s.bytes,
            self.selections,
            &self.received[BLOCK_AT..],
            opened,
        );
        self.open_selected(opened);
    }

    // Opens the received strings.
    pub(crate) fn open(self, opened: &mut [u8]) -> Result<(), Refusal>
        ensures { Opened self.entry.shape.mode self.entry.shape.rows self.entry.shape.places self.entry.shape.bytes
            self.entry.session.now self.entry.selections.now self.entry.kept.now self.entry.received.now opened.old (verdict result) opened.new }
    {
        self.judge(opened.len())?;
        self.open_rows(opened);
        Ok(())
    }
}
