// The code words of document 01, section 3: single words, what lies past a word's end, and for each way to the words of mode 2
// a digest over all 256 of them, one after the other.
use crate::show;
use crate::show::{Hex, OLD};

fn single_words(rt: &impl Print) {
    let words = [
        (1, 0),
        (1, 1),
        (2, 0),
        (2, 1),
        (2, 2),
        (2, 3),
        (2, 5),
        (2, 128),
        (2, 255),
    ];
    for (mode, r) in words {
        let _ = println!(rt; "word {r} of mode {mode} {}", Hex(&words::word(mode, r)));
    }
}

// Place x of a word, and byte x div 8 read from the table and worked out from r.
fn ends(rt: &impl Print) {
    let places = [
        (1, 0, 0),
        (1, 1, 0),
        (1, 1, 127),
        (1, 1, 128),
        (2, 255, 0),
        (2, 255, 254),
        (2, 255, 255),
        (2, 255, 256),
    ];
    for (mode, r, x) in places {
        let here = [
            words::word_place(mode, r, x),
            words::word_byte(mode, r, x / 8),
            words::selected_byte(mode, r, x / 8),
        ];
        let _ = println!(rt; "word {r} of mode {mode} at place {x} {}", Hex(&here));
    }
}

// Eight places in a byte, least significant first.
fn packed(places: &[u8; 256], p: usize) -> u8 {
    let mut byte: u8 = 0;
    for e in (0..8).rev() {
        byte = byte % 128 * 2 + places[p % 32 * 8 + e] % 2;
    }
    byte
}

// A digest over every word, whose bytes p of word r are as a way to them gives them.
fn every_word<F: Fn(u8, usize) -> u8>(rt: &impl Print, way: &str, byte: F)
    requires { F.IsAlwaysCallable byte }
{
    let mut all = [0u8; 8192];
    for (i, out) in all.iter_mut().enumerate() {
        *out = byte((i / 32 % 256) as u8, i % 32);
    }
    let _ = print!(rt; "words {way}");
    let mut digest = [OLD; 32];
    let v = symmetric::hash(&all, &mut digest);
    show::end_line(rt, v, &digest);
}

// Not inlined: its buffers would lie in the frame of `main`, below those of the other modules.
#[inline(never)]
pub(crate) fn run(rt: &impl Print) {
    single_words(rt);
    ends(rt);
    let table = words::word_table();
    every_word(rt, "by the table", |r, p| {
        words::word_from(&table, 2, r)[p % 32]
    });
    every_word(rt, "byte by byte", |r, p| words::word_byte(2, r, p));
    every_word(rt, "from the bits of r", |r, p| {
        words::selected_byte(2, r, p)
    });
    every_word(rt, "by halving", |r, p| {
        packed(&words::halving::by_halving(r), p)
    });
}
