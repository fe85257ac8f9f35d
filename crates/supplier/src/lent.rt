// What one call of answer is lent: the parts that its steps share. What is asked of the output's length stands with each step that gets it.
ghost use Rattle.basics.specs.Bytes.{Bytes};

use wire::Shape;

// `seeded` says where the taken columns come from, and nothing else. It stays a flag beside them, as `columns::add_set` and specs/Answer take it.
// The ghost field keeps that the received message's items are bytes, which is not known of a slice behind a reference.
#[derive(Clone, Copy)]
pub(crate) struct Answering<'a> {
    pub(crate) seeded: bool,
    pub(crate) shape: Shape,
    pub(crate) session: &'a [u8],
    pub(crate) secret: &'a [u8],
    pub(crate) taken: &'a [u8],
    pub(crate) strings: &'a [u8],
    pub(crate) received: &'a [u8],
    pub(crate) ghost received_bytes: { Bytes received.now },
}
