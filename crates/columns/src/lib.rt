// Sets of columns: worked out from seeds, and turned into rows.
#![tactic(auto)]

mod adding;
mod joining;
mod rows;

pub use adding::{SEED_BYTES, add_set, entry_bytes};
pub use joining::join_eight;
pub use rows::{gather_rows, row_bytes};
