// An exchange by the rules (document 01, section 5): the steps of both parties in turn, each message delivered as it was sent.
ghost use Rattle.basics.specs.Verdicts.{verdict};
ghost use Rattle.exchange.specs.Exchanged.{Exchanged};

use basics::Refusal;
use columns::SEED_BYTES;
use wire::Shape;

// The buyer holds two sets of seeds and its selections, the supplier its secret and its strings. `taken` is what the base transfers
// leave to the supplier, `kept` stays with the buyer, and `message` and `answer` are what travels. Gives back the first refusal.
// Each buffer is a parameter of its own: the contract `Exchanged` names them one by one, as the calls' own contracts do.
pub(crate) fn exchange(
    s: Shape,
    session: &[u8],
    first: &[u8],
    second: &[u8],
    selections: &[u8],
    secret: &[u8],
    strings: &[u8],
    taken: &mut [u8],
    message: &mut [u8],
    kept: &mut [u8],
    answer: &mut [u8],
    opened: &mut [u8],
) -> Result<(), Refusal>
    ensures { Exchanged s.mode s.rows s.places s.bytes session.now first.now second.now selections.now secret.now strings.now
        taken.old message.old kept.old answer.old opened.old (verdict result) opened.new }
{
    outside::take(SEED_BYTES, secret, first, second, taken);
    buyer::prepare_from_seeds(s, session, first, second, selections, message, kept)?;
    let answered = supplier::answer_from_seeds(s, session, secret, taken, strings, message, answer);
    // Not by `?`, which leaves no refusal to name here: the must-fail edit `invented_place` gives it another place.
    if let Err(refusal) = answered {
        return Err(refusal);
    }
    buyer::open(s, session, selections, kept, answer, opened)
}
