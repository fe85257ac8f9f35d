// A case's inputs: one stream of bytes through the buffers, and then what makes them lawful (peer/CASES.md, "The procedure").
use crate::buffers::Buffers;
use crate::lending::{columns_of, front_mut, row_bytes, set_bytes};
use crate::row::{Case, Secret};
use columns::entry_bytes;
use wire::{SESSION_BYTES, Shape, column_bytes, volume};

// The state before the first step of a stream of seed 0.
const START: u32 = 2654435769;

// A stream by its state.
#[derive(Clone, Copy)]
struct Stream(u32);

impl Stream {
    // Fills the first `len` bytes.
    fn fill(&mut self, len: usize, out: &mut [u8]) {
        self.0 = outside::draw(self.0, front_mut(out, len));
    }
}

// Fills what a case's calls are lent from the stream of its number, in the order of the procedure.
fn fill(number: u32, case: &Case, b: &mut Buffers) {
    let s = case.shape;
    let set = set_bytes(case.seeded, s);
    let mut stream = Stream(START ^ number);
    stream.fill(SESSION_BYTES, &mut b.session);
    stream.fill(set, &mut b.first);
    stream.fill(set, &mut b.second);
    stream.fill(usize::from(s.rows), &mut b.selections);
    stream.fill(volume(s), &mut b.strings);
    stream.fill(row_bytes(s.mode), &mut b.secret);
}

// Makes each of the first m selections one of n places; below 256 of them that is a remainder.
fn reduce(s: Shape, selections: &mut [u8]) {
    if let Ok(places) = u8::try_from(s.places) {
        for selection in front_mut(selections, usize::from(s.rows)) {
            if let Some(rest) = selection.checked_rem(places) {
                *selection = rest;
            }
        }
    }
}

fn make_secret(kind: Secret, secret: &mut [u8]) {
    match kind {
        Secret::Generated => {}
        Secret::Zeros => secret.fill(0),
        Secret::Ones => secret.fill(255),
    }
}

// Clears the padding in the last byte of each column.
fn clear_padding(s: Shape, set: &mut [u8]) {
    let bits = s.rows % 8;
    if bits == 0 {
        return;
    }
    let mask = 255u8 >> (8 - bits);
    let columns = set.chunks_exact_mut(column_bytes(s.rows));
    for column in columns.take(columns_of(s.mode)) {
        if let Some(last) = column.last_mut() {
            *last &= mask;
        }
    }
}

pub(crate) fn generate(number: u32, case: &Case, b: &mut Buffers) {
    fill(number, case, b);
    let s = case.shape;
    reduce(s, &mut b.selections);
    make_secret(case.secret, front_mut(&mut b.secret, row_bytes(s.mode)));
    if !case.seeded {
        clear_padding(s, &mut b.first);
        clear_padding(s, &mut b.second);
    }
    outside::take(
        entry_bytes(case.seeded, s.rows),
        &b.secret,
        &b.first,
        &b.second,
        front_mut(&mut b.taken, set_bytes(case.seeded, s)),
    );
}
