// The supplier's call (document 01, section 5): answer, from columns and from seeds, thin over one core. Lent buffers stand in the document's order.
#![tactic(auto)]

ghost use Rattle.std.specs.Prelude.{true, false};
ghost use Rattle.basics.specs.Verdicts.{verdict};
ghost use Rattle.supplier.specs.Answer.{Answered};

use basics::Refusal;
use lent::Answering;
use wire::Shape;

mod answering;
mod judging;
mod lent;
mod masking;
mod taking;

// Answers from the columns that were taken. Both forms stay calls of their own, as C and document 01 have them.
pub fn answer_from_columns(
    shape: Shape,
    session: &[u8],
    secret: &[u8],
    taken: &[u8],
    strings: &[u8],
    received: &[u8],
    message: &mut [u8],
) -> Result<(), Refusal>
    ensures { Answered false shape.mode shape.rows shape.places shape.bytes session.now secret.now taken.now strings.now received.now
        message.old (verdict result) message.new }
{
    let call = Answering {
        seeded: false,
        shape,
        session,
        secret,
        taken,
        strings,
        received,
    };
    call.answer(message)
}

// Answers from the seeds that were taken.
pub fn answer_from_seeds(
    shape: Shape,
    session: &[u8],
    secret: &[u8],
    taken: &[u8],
    strings: &[u8],
    received: &[u8],
    message: &mut [u8],
) -> Result<(), Refusal>
    ensures { Answered true shape.mode shape.rows shape.places shape.bytes session.now secret.now taken.now strings.now received.now
        message.old (verdict result) message.new }
{
    let call = Answering {
        seeded: true,
        shape,
        session,
        secret,
        taken,
        strings,
        received,
    };
    call.answer(message)
}
