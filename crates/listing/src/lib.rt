// The listing of a message (document 01, section 8), text and length by value.
#![tactic(auto)]

mod printing;
mod writing;

pub use printing::list;

// A text of `len` bytes, and zeros past it. C's `adw_list` and the programs read both, and `listed` names them, so neither is private.
#[derive(Clone, Copy)]
pub struct Listing {
    pub text: [u8; 128],
    pub len: usize,
}
