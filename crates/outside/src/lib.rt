// Stand-ins for what document 01 leaves outside, base transfers and the choosing of random numbers, for programs that play both
// parties. Nothing here is for use where a secret counts.
#![tactic(auto)]

mod drawing;
mod taking;

pub use drawing::draw;
pub use taking::take;
