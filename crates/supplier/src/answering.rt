// The core of answering: everything is judged first; then the rows q are taken, and the strings are copied into the message and masked there.
ghost use Rattle.std.specs.Prelude.{◌≡◌, ◌+◌, ◌*◌, ◌<◌, ◌≤◌, length};
ghost use Rattle.basics.specs.Verdicts.{verdict};
ghost use Rattle.wire.specs.Message.{message_of as framed};
ghost use Rattle.supplier.specs.Calls.{verdict_of, CanMask, masked_of, message_of, AnsweredBy};

use crate::lent::Answering;
use basics::Refusal;
use columns::row_bytes;
use wire::{BLOCK_AT, TAG_STRINGS, write_header};

// As many rows as 1 KiB holds in either mode.
const FEW_ROWS: u16 = 32;

impl Answering<'_> {
    // Writes the message of masked strings, from the rows q.
    fn write_masked(&self, rows: &[u8], message: &mut [u8])
        requires fit { CanMask self.now (length rows.now) (length self.now.strings.now) }
        requires room { length message.old ≡ 27 + length self.now.strings.now }
        requires few { length self.now.strings.now < 65536 }
        ensures { let s = self.now.shape in message.new
            ≡ framed 4 s.mode s.rows s.places s.bytes self.now.session.now (masked_of self.now rows.now self.now.strings.now) }
    {
        write_header(
            TAG_STRINGS,
            self.strings.len(),
            self.shape,
            self.session,
            &mut message[0..BLOCK_AT],
        );
        self.mask_strings(rows, &mut message[BLOCK_AT..]);
    }

    // Writes the answer message, where nothing is refused. The rows q stand in the front of a lent workspace.
    fn write(&self, work: &mut [u8], message: &mut [u8])
        requires passed { (verdict_of self.now (length message.old)).code ≡ 0 }
        requires room { self.now.shape.rows * 32 ≤ length work.old }
        ensures { message.new ≡ message_of self.now }
    {
        let n = usize::from(self.shape.rows) * row_bytes(self.shape.mode);
        self.take_rows(&self.received[BLOCK_AT..], &mut work[0..n]);
        self.write_masked(&work[0..n], message);
    }

    // The same with a workspace of its own, of N bytes.
    fn write_in<const N: usize>(&self, message: &mut [u8])
        requires passed { (verdict_of self.now (length message.old)).code ≡ 0 }
        requires room { self.now.shape.rows * 32 ≤ N }
        requires few { N ≤ 32768 }
        ensures { message.new ≡ message_of self.now }
    {
        let mut work = [0u8; N];
        self.write(&mut work, message);
    }

    // The same with the workspace that the rows ask for. For few rows it is a small one, since clearing the other would take longer than their masking.
    fn write_sized(&self, message: &mut [u8])
        requires { (verdict_of self.now (length message.old)).code ≡ 0 }
        ensures { message.new ≡ message_of self.now }
    {
        if self.shape.rows <= FEW_ROWS {
            self.write_in::<1024>(message);
        } else {
            self.write_in::<32768>(message);
        }
    }

    // Judges the call, and writes the message where nothing is refused.
    #[tactic(auto, using(basics::proofs::Verdicts::gives_ok))]
    pub(crate) fn answer(&self, message: &mut [u8]) -> Result<(), Refusal>
        ensures { AnsweredBy self.now message.old (verdict result) message.new }
    {
        self.judge(message.len())?;
        self.write_sized(message);
        Ok(())
    }
}
