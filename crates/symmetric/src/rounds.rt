// FIPS 180-4, section 6.2.2, steps 2 to 4: the rounds over a schedule, and their sum with the hash value.
ghost use Rattle.std.specs.Prelude.{◌≡◌, ℕ, ◌+◌, ◌<◌, ◌≤◌, List, bit_xor, length, slice_index};
ghost use Rattle.std.specs.Int.{w32, rotate_right};
ghost use Rattle.symmetric.specs.Words.{sums};
ghost use Rattle.symmetric.specs.Sha.{ch, maj, round_constants, initial, schedule, temp1, temp2, round, rounds, compress};
ghost use Rattle.symmetric.specs.Values.{Scheduled, words};

use crate::constants::K;
use crate::schedule::{extend, load};

// The eight working variables, and the eight words of the hash value.
#[derive(Clone, Copy)]
pub(crate) struct State {
    pub(crate) a: u32,
    pub(crate) b: u32,
    pub(crate) c: u32,
    pub(crate) d: u32,
    pub(crate) e: u32,
    pub(crate) f: u32,
    pub(crate) g: u32,
    pub(crate) h: u32,
}

fn ch(x: u32, y: u32, z: u32) -> u32
    ensures { result ≡ ch x y z }
{
    (x & y) ^ (!x & z)
}

fn maj(x: u32, y: u32, z: u32) -> u32
    ensures { result ≡ maj x y z }
{
    (x & y) ^ (x & z) ^ (y & z)
}

// Section 4.1.2: both functions of the working variables are three rotations under xor.
fn big_sigma<const A: u32, const B: u32, const C: u32>(x: u32) -> u32
    ensures { result ≡ bit_xor (bit_xor (rotate_right w32 x A) (rotate_right w32 x B)) (rotate_right w32 x C) }
{
    x.rotate_right(A) ^ x.rotate_right(B) ^ x.rotate_right(C)
}

impl State {
    // The hash value before the first block, section 5.3.3.
    pub(crate) fn first() -> State
        ensures { words result ≡ initial }
    {
        State {
            a: 0x6a09_e667,
            b: 0xbb67_ae85,
            c: 0x3c6e_f372,
            d: 0xa54f_f53a,
            e: 0x510e_527f,
            f: 0x9b05_688c,
            g: 0x1f83_d9ab,
            h: 0x5be0_cd19,
        }
    }

    fn temp1(self, k: u32, w: u32) -> u32
        ensures { result ≡ temp1 (words self) k w }
    {
        self.h
            .wrapping_add(big_sigma::<6, 11, 25>(self.e))
            .wrapping_add(ch(self.e, self.f, self.g))
            .wrapping_add(k)
            .wrapping_add(w)
    }

    fn temp2(self) -> u32
        ensures { result ≡ temp2 (words self) }
    {
        big_sigma::<2, 13, 22>(self.a).wrapping_add(maj(self.a, self.b, self.c))
    }

    // Round t. The table is lent: a function that names it copies it at each call.
    fn step(self, k: &[u32; 64], w: &[u32; 64], t: usize) -> State
        requires { (k.now ≡ round_constants) × (t < 64) }
        ensures { words result ≡ round (words self) (slice_index round_constants t) (slice_index w.now t) }
    {
        let t1 = self.temp1(k[t], w[t]);
        State {
            a: t1.wrapping_add(self.temp2()),
            b: self.a,
            c: self.b,
            d: self.c,
            e: self.d.wrapping_add(t1),
            f: self.e,
            g: self.f,
            h: self.g,
        }
    }

    // Eight rounds from round t on, over a schedule that reaches as far: so many that the variables change their names and not their places.
    fn turn(self, k: &[u32; 64], w: &[u32; 64], t: usize) -> State
        requires { (k.now ≡ round_constants) × (t + 8 ≤ 64) }
        ensures { (bs h : List ℕ) (n : ℕ) → Scheduled bs n w.now → t + 8 ≤ n → n ≤ 64
            → words self ≡ rounds (schedule bs 64) h t → words result ≡ rounds (schedule bs 64) h (t + 8) }
    {
        let mut v = self;
        for i in 0..8 {
            v = v.step(k, w, t + i);
        }
        v
    }

    // The 64 rounds. The schedule is made two turns ahead of them, so that the processor works at both.
    fn stir(self, block: &[u8; 64]) -> State
        ensures { words result ≡ rounds (schedule block.now 64) (words self) 64 }
    {
        let k = K;
        let mut w = load(block);
        let mut v = self;
        for t in (0..64).step_by(8) {
            if t < 48 {
                extend(&mut w, t + 16);
            }
            v = v.turn(&k, &w, t);
        }
        v
    }

    fn added(self, v: State) -> State
        ensures { words result ≡ sums 8 (words self) (words v) }
    {
        State {
            a: self.a.wrapping_add(v.a),
            b: self.b.wrapping_add(v.b),
            c: self.c.wrapping_add(v.c),
            d: self.d.wrapping_add(v.d),
            e: self.e.wrapping_add(v.e),
            f: self.f.wrapping_add(v.f),
            g: self.g.wrapping_add(v.g),
            h: self.h.wrapping_add(v.h),
        }
    }

    // The hash value after one more block.
    pub(crate) fn compressed(self, block: &[u8; 64]) -> State
        ensures { words result ≡ compress (words self) block.now }
    {
        self.added(self.stir(block))
    }

    pub(crate) fn listed(self) -> [u32; 8]
        ensures { result ≡ words self }
    {
        [
            self.a, self.b, self.c, self.d, self.e, self.f, self.g, self.h,
        ]
    }
}
