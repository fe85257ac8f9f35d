// The three calls on the buffers as they are, each with its part of the line (peer/CASES.md, "The line").
use crate::buffers::Buffers;
use crate::lending::Lender;
use crate::row::{Buffer, Call, Case};
use crate::show;
use crate::show::{Digest, Outcome};

pub(crate) fn prepare(rt: &impl Print, case: &Case, b: &mut Buffers) {
    let call = Call::Prepare;
    let lender = Lender { case, call };
    let shape = case.shape_of(call);
    let session = lender.lend(Buffer::Session, &b.session);
    let first = lender.lend(Buffer::First, &b.first);
    let second = lender.lend(Buffer::Second, &b.second);
    let selections = lender.lend(Buffer::Selections, &b.selections);
    let message = lender.lend_mut(Buffer::Message, &mut b.message);
    let kept = lender.lend_mut(Buffer::Kept, &mut b.kept);
    // One of two calls, which C keeps apart.
    let v = if case.seeded {
        buyer::prepare_from_seeds(shape, session, first, second, selections, message, kept)
    } else {
        buyer::prepare_from_columns(shape, session, first, second, selections, message, kept)
    };
    let _ = print!(rt; " p {} {} {}", Outcome(v), Digest(message), Digest(kept));
}

pub(crate) fn answer(rt: &impl Print, case: &Case, b: &mut Buffers) {
    let call = Call::Answer;
    let lender = Lender { case, call };
    let shape = case.shape_of(call);
    let session = lender.lend(Buffer::Session, &b.session);
    let secret = lender.lend(Buffer::Secret, &b.secret);
    let taken = lender.lend(Buffer::Taken, &b.taken);
    let strings = lender.lend(Buffer::Strings, &b.strings);
    let received = lender.lend(Buffer::Message, &b.message);
    let answered = lender.lend_mut(Buffer::Answered, &mut b.answered);
    show::listing(rt, received);
    // One of two calls, which C keeps apart.
    let v = if case.seeded {
        supplier::answer_from_seeds(shape, session, secret, taken, strings, received, answered)
    } else {
        supplier::answer_from_columns(shape, session, secret, taken, strings, received, answered)
    };
    let _ = print!(rt; " a {} {}", Outcome(v), Digest(answered));
}

pub(crate) fn open(rt: &impl Print, case: &Case, b: &mut Buffers) {
    let call = Call::Open;
    let lender = Lender { case, call };
    let shape = case.shape_of(call);
    let session = lender.lend(Buffer::Session, &b.session);
    let selections = lender.lend(Buffer::Selections, &b.selections);
    let kept = lender.lend(Buffer::Kept, &b.kept);
    let received = lender.lend(Buffer::Answered, &b.answered);
    let opened = lender.lend_mut(Buffer::Opened, &mut b.opened);
    show::listing(rt, received);
    let v = buyer::open(shape, session, selections, kept, received, opened);
    let _ = print!(rt; " o {} {}", Outcome(v), Digest(opened));
}
