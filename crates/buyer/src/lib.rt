// The buyer's calls (document 01, section 5): prepare, from columns and from seeds, and open. Lent buffers stand in the document's order.
#![tactic(auto)]

ghost use Rattle.basics.specs.Verdicts.{verdict};
ghost use Rattle.buyer.specs.Prepare.{Prepared};
ghost use Rattle.buyer.specs.Open.{Opened};
ghost use Rattle.std.specs.Prelude.{true, false};

use basics::Refusal;
use opening::Opening;
use preparing::Preparing;
use wire::Shape;

mod choosing;
mod judging;
mod opening;
mod preparing;

// Prepare from columns that are handed in. Both forms stay calls of their own, as C and document 01 have them.
pub fn prepare_from_columns(
    shape: Shape,
    session: &[u8],
    first: &[u8],
    second: &[u8],
    selections: &[u8],
    message: &mut [u8],
    kept: &mut [u8],
) -> Result<(), Refusal>
    ensures { Prepared false shape.mode shape.rows shape.places shape.bytes
        session.now first.now second.now selections.now message.old kept.old (verdict result) message.new kept.new }
{
    let from_columns = Preparing {
        seeded: false,
        shape,
        session,
        first,
        second,
        selections,
    };
    from_columns.prepare(message, kept)
}

// Prepare from seeds, whose columns are worked out one at a time.
pub fn prepare_from_seeds(
    shape: Shape,
    session: &[u8],
    first: &[u8],
    second: &[u8],
    selections: &[u8],
    message: &mut [u8],
    kept: &mut [u8],
) -> Result<(), Refusal>
    ensures { Prepared true shape.mode shape.rows shape.places shape.bytes
        session.now first.now second.now selections.now message.old kept.old (verdict result) message.new kept.new }
{
    let from_seeds = Preparing {
        seeded: true,
        shape,
        session,
        first,
        second,
        selections,
    };
    from_seeds.prepare(message, kept)
}

// Open the received answer.
pub fn open(
    shape: Shape,
    session: &[u8],
    selections: &[u8],
    kept: &[u8],
    received: &[u8],
    opened: &mut [u8],
) -> Result<(), Refusal>
    ensures { Opened shape.mode shape.rows shape.places shape.bytes
        session.now selections.now kept.now received.now opened.old (verdict result) opened.new }
{
    let lent = Opening {
        shape,
        session,
        selections,
        kept,
        received,
    };
    lent.open(opened)
}
