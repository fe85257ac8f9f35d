// Taking, document 01, section 5: the rows q from the received columns and those that were taken. Where the secret has 0 the message's bit is xored in. That
// is done on whole bytes, after both sets of columns are turned into rows: a mask made of one bit of the secret is one that a compiler may make a branch of.
ghost use Rattle.std.specs.Prelude.{◌≡◌, true, length};
ghost use Rattle.columns.specs.Sets.{columns_of, set_fit};
ghost use Rattle.supplier.specs.Calls.{CanTake, rows_from};

use crate::lent::Answering;
use columns::{add_set, entry_bytes, join_eight, row_bytes};
use wire::column_bytes;

// Eight taken columns, from eight entries of the taken set.
fn taken_columns(seeded: bool, rows: u16, session: &[u8], taken: &[u8], eight: &mut [u8])
    requires { set_fit seeded 8 rows (length session.now) (length taken.now) (length eight.old) ≡ true }
    ensures { eight.new ≡ columns_of seeded 8 rows session.now taken.now }
{
    eight.fill(0);
    add_set(seeded, 8, rows, session, taken, eight);
}

impl Answering<'_> {
    // The rows q, a byte of each row at a time: the taken columns' xor what the secret's complement leaves of the message's.
    pub(crate) fn take_rows(&self, block: &[u8], q: &mut [u8])
        requires { CanTake self.now (length block.now) (length q.old) }
        ensures { q.new ≡ rows_from self.now block.now }
    {
        let rows = self.shape.rows;
        let width = row_bytes(self.shape.mode);
        let columns = 8 * column_bytes(rows);
        let entries = 8 * entry_bytes(self.seeded, rows);
        let mut work = [0u8; 1024];
        for g in 0..width {
            let a = g * columns;
            let b = g * entries;
            taken_columns(
                self.seeded,
                rows,
                self.session,
                &self.taken[b..b + entries],
                &mut work[0..columns],
            );
            join_eight(
                rows,
                width as u8,
                g,
                !self.secret[g],
                &work[0..columns],
                &block[a..a + columns],
                q,
            );
        }
    }
}
