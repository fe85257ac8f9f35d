// Prepare, from seeds and from columns: the run-only cases and P8 and P9 of document 01, section 9. Every output holds old bytes
// before the call, so that the digests after a refusal show what it left.
use crate::message_cases::{SESSION, shape};
use crate::show;
use crate::show::{Hex, OLD, Outcome, fill, front, front_mut};
use columns::row_bytes;
use wire::{BLOCK_AT, CHOICES, Shape, TAG_COLUMNS};

// What the message of 1,025 rows of choices would take, a row more than is lawful. No other buffer is longer.
const ROOM: usize = 33051;

const MOST_SELECTIONS: usize = 1025;

// The seeds of a set of choices.
const SEEDS_BYTES: usize = 8192;

// What the bytes of seeds are below.
const SEED_MODULUS: usize = 251;

// What the sets of a case are.
#[derive(Clone, Copy, PartialEq, Eq)]
enum Form {
    Seeds,
    // The columns that those seeds expand to; only sets of choices are run.
    Expanded,
    // Simple columns, whose bytes are below a number; a small enough one leaves their padding zero.
    Below(usize),
}

use Form::{Below, Expanded, Seeds};

// Columns with bytes of 0 and 1, whose padding is zero for any number of rows.
const ONE_BIT: Form = Below(2);

impl Form {
    fn words(self) -> &'static str {
        match self {
            Seeds => "from seeds",
            Expanded => "from the seeds' columns",
            Below(_) => "from columns",
        }
    }

    fn set_bytes(self, s: Shape) -> usize {
        match self {
            Seeds if s.mode == CHOICES => SEEDS_BYTES,
            Seeds => SEEDS_BYTES / 2,
            _ => wire::block_length(TAG_COLUMNS, s),
        }
    }

    fn make_set(self, s: Shape, start: usize, set: &mut [u8]) {
        match self {
            Seeds => fill(start, SEED_MODULUS, set),
            Below(modulus) => fill(start, modulus, set),
            Expanded => {
                let mut seeds = [0u8; SEEDS_BYTES];
                fill(start, SEED_MODULUS, &mut seeds);
                columns::add_set(true, 256, s.rows, &SESSION, &seeds, set);
            }
        }
    }
}

// A selection that two rows, which may be the same, have in place of their own.
#[derive(Clone, Copy)]
struct Change {
    selection: u8,
    row: usize,
    other_row: usize,
}

impl Change {
    fn make(self, selections: &mut [u8]) {
        for row in [self.row, self.other_row] {
            if let Some(selection) = selections.get_mut(row) {
                *selection = self.selection;
            }
        }
    }
}

fn kept_bytes(s: Shape) -> usize {
    usize::from(s.rows) * row_bytes(s.mode)
}

fn digest(bytes: &[u8]) -> [u8; 32] {
    let mut all = [0u8; 32];
    let _ = symmetric::hash(bytes, &mut all);
    all
}

fn name(rt: &impl Print, s: Shape, form: Form) {
    let words = form.words();
    let _ = print!(rt;
        "mode {} rows {} places {} bytes {} {words}",
        s.mode, s.rows, s.places, s.bytes
    );
}

// Selections by the rule of the sets, below n, but for those of a change.
fn selections(places: u16, change: Option<Change>) -> [u8; MOST_SELECTIONS] {
    let mut selections = [0u8; MOST_SELECTIONS];
    fill(4, usize::from(places), &mut selections);
    if let Some(change) = change {
        change.make(&mut selections);
    }
    selections
}

// Runs a case. Each buffer is lent at the length that the shape gives it, also where the shape is refused.
fn run_case(rt: &impl Print, s: Shape, form: Form, change: Option<Change>) {
    name(rt, s, form);
    let selections = selections(s.places, change);
    let selections = front(&selections, usize::from(s.rows));
    let (mut first, mut second) = ([0u8; ROOM], [0u8; ROOM]);
    let first = front_mut(&mut first, form.set_bytes(s));
    form.make_set(s, 11, first);
    let second = front_mut(&mut second, form.set_bytes(s));
    form.make_set(s, 29, second);
    let (mut message, mut kept) = ([OLD; ROOM], [OLD; ROOM]);
    let message = front_mut(&mut message, BLOCK_AT + wire::block_length(TAG_COLUMNS, s));
    let kept = front_mut(&mut kept, kept_bytes(s));
    // One of two calls, which C keeps apart.
    let v = if form == Seeds {
        buyer::prepare_from_seeds(s, &SESSION, first, second, selections, message, kept)
    } else {
        buyer::prepare_from_columns(s, &SESSION, first, second, selections, message, kept)
    };
    let (sent, stays) = (digest(message), digest(kept));
    let _ = println!(rt; " {} {} {}", Outcome(v), Hex(&sent), Hex(&stays));
}

// A line for each form of a batch.
fn plain_lines<const N: usize>(rt: &impl Print, s: Shape, forms: [Form; N]) {
    for form in forms {
        let _ = print!(rt; "prepare ");
        run_case(rt, s, form, None);
    }
}

// The largest batches and the first that are too large, rows past each bound, and columns of one byte and of two, where the lines
// from seeds and from the seeds' columns agree.
fn shapes(rt: &impl Print) {
    let cases = [
        (shape(2, 4, 256, 32), Below(16)),
        (shape(1, 1024, 2, 16), Below(256)),
        (shape(2, 5, 256, 32), Below(32)),
        (shape(1, 1024, 2, 17), Below(256)),
        (shape(1, 0, 2, 1), ONE_BIT),
        (shape(1, 1025, 2, 1), ONE_BIT),
        (shape(2, 0, 40, 1), ONE_BIT),
        (shape(2, 1025, 40, 1), ONE_BIT),
    ];
    for (s, form) in cases {
        plain_lines(rt, s, [Seeds, form]);
    }
    plain_lines(rt, shape(2, 8, 40, 3), [Seeds, Below(256), Expanded]);
    plain_lines(rt, shape(2, 9, 40, 3), [Seeds, ONE_BIT, Expanded]);
}

// A selection in the first of nine rows, a middle one and the last, and in two rows, of which a refusal names the first.
fn changes(rt: &impl Print, s: Shape, form: Form, selection: u8) {
    for (row, other_row) in [(0, 0), (4, 4), (8, 8), (3, 6)] {
        let _ = print!(rt; "prepare with {selection} in rows {row} and {other_row}, ");
        let change = Change {
            selection,
            row,
            other_row,
        };
        run_case(rt, s, form, Some(change));
    }
}

// P8 and P9 byte for byte: the block, and the kept row.
fn marked_examples(rt: &impl Print) {
    let columns = [0u8; 256];
    let mut message = [OLD; 283];
    let mut kept = [OLD; 32];
    let v = buyer::prepare_from_columns(
        shape(2, 1, 8, 1),
        &SESSION,
        &columns,
        &columns,
        &[3],
        &mut message,
        &mut kept,
    );
    let _ = print!(rt; "prepare P8");
    show::end_line(rt, v, &message[BLOCK_AT..]);
    let _ = print!(rt; "prepare P9");
    show::end_line(rt, v, &kept);
}

pub(crate) fn run(rt: &impl Print) {
    shapes(rt);
    // The last place, and one place too many.
    changes(rt, shape(1, 9, 2, 3), Seeds, 1);
    changes(rt, shape(1, 9, 2, 3), ONE_BIT, 2);
    changes(rt, shape(2, 9, 40, 3), ONE_BIT, 39);
    changes(rt, shape(2, 9, 40, 3), Seeds, 40);
    marked_examples(rt);
}
