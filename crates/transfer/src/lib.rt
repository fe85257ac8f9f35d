// The transfer layer's calls under one name, and what is shown of them: section 7's table and the three demands in specs/, their proofs in proofs/.
#![tactic(auto)]

pub use basics::{Reason, Refusal, Verdict};
pub use buyer::{open, prepare_from_columns, prepare_from_seeds};
pub use supplier::{answer_from_columns, answer_from_seeds};
pub use wire::Shape;
