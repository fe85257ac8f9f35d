// A case from its row to its line: the inputs, and then the three calls, each on what the one before it left.
use crate::buffers::Buffers;
use crate::row::{Call, Case};
use crate::{calls, inputs};

pub(crate) fn run(rt: &impl Print, number: u32, case: &Case) {
    let mut buffers = Buffers::new();
    inputs::generate(number, case, &mut buffers);
    let _ = print!(rt; "case {number}");
    buffers.poke(case, Call::Prepare);
    calls::prepare(rt, case, &mut buffers);
    buffers.poke(case, Call::Answer);
    calls::answer(rt, case, &mut buffers);
    buffers.poke(case, Call::Open);
    calls::open(rt, case, &mut buffers);
    let _ = println!(rt;);
}
