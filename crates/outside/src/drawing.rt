// Bytes that look random and are the same in every run: the generator of peer/CASES.md.
ghost use Rattle.std.specs.Prelude.{◌≡◌};
ghost use Rattle.outside.specs.Drawn.{stepped, Drawn};

#[tactic(auto, unfolding(crate::specs::Drawn::stepped))]
fn step(x: u32) -> u32
    ensures { result ≡ stepped x }
{
    let a = x ^ (x << 13);
    let b = a ^ (a >> 17);
    b ^ (b << 5)
}

// Fills a buffer from a stream that is in state x, and gives back the state that it is in then.
pub fn draw(x: u32, out: &mut [u8]) -> u32
    ensures { Drawn x out.old result out.new }
{
    let mut state = x;
    for byte in out.iter_mut() {
        state = step(state);
        *byte = (state % 256) as u8;
    }
    state
}
