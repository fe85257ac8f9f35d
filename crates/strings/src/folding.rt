// A string that stands alone among several, brought to the front: halves are xored onto each other, whichever string it is.
ghost use Rattle.std.specs.Prelude.{◌≡◌, ℕ, ◌+◌, ◌*◌, ◌≤◌, ◌<◌, length, get_or};
ghost use Rattle.basics.specs.Bytes.{◌⊕◌};
ghost use Rattle.strings.specs.Gathered.{Alone};

use crate::shape::Shape;

// Xors the second half onto the first, as far as it reaches. A loop of its own beside `basics::xor_into`: the edit `halves_anded` holds what it does.
fn fold_half(front: &mut [u8], back: &[u8])
    requires { length back.now ≤ length front.old }
    ensures { front.new ≡ front.old ⊕ back.now }
{
    for p in 0..back.len() {
        front[p] ^= back[p];
    }
}

// Brings the one string among those held that is not zeros to the front.
pub(crate) fn fold(shape: Shape, work: &mut [u8])
    requires { length work.old ≡ shape.held * shape.bytes }
    ensures { (s : ℕ → ℕ) → Alone shape.bytes shape.held s (λ p. get_or work.old p 0) → (t : ℕ) → t < shape.bytes → get_or work.new t 0 ≡ s t }
{
    let mut k = shape.held;
    // k halves, which no range does
    while 1 < k {
        let half = k.div_ceil(2);
        let (front, back) = work.split_at_mut(half * shape.bytes);
        fold_half(front, &back[..(k - half) * shape.bytes]);
        k = half;
    }
}
