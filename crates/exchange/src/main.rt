// A private price lookup from beginning to end: a supplier lists prices, a buyer selects a grade in each product family, and each
// receives what the layer lets it receive. Both parties stand in one program here.
#![tactic(auto)]

mod exchanging;
mod printing;

use exchanging::exchange;
use wire::Shape;

// Four product families, five grades in each, eight bytes a price: m, n and l.
const SHAPE: Shape = Shape {
    mode: 2,
    rows: 4,
    places: 5,
    bytes: 8,
};

// Families, prices and selections stand apart: the supplier lends the prices as one string of bytes, and the buyer its selections as another.
const FAMILIES: [&str; 4] = ["sheet", "pipe", "rod", "wire"];

// The supplier's strings, in cents, a row for each family.
const PRICES: [[u8; 40]; 4] = [
    *b"    1290    1345    1410    1580    1725",
    *b"    2140    2215    2290    2475    2660",
    *b"     980    1015    1090    1165    1240",
    *b"     455     470     510     565     620",
];

const SELECTIONS: [u8; 4] = [2, 0, 4, 1];

fn show_prices(rt: &impl Print) {
    let _ = println!(rt; "The supplier's prices, in cents:");
    let _ = println!(rt; "          grade 0 grade 1 grade 2 grade 3 grade 4");
    for (family, prices) in FAMILIES.iter().zip(&PRICES) {
        let _ = print!(rt; "{family:9}");
        let _ = rt.write_all(prices);
        let _ = println!(rt;);
    }
}

fn show_selections(rt: &impl Print) {
    let _ = print!(rt; "\nThe buyer selects the grades");
    for grade in SELECTIONS {
        let _ = print!(rt; " {grade}");
    }
    let _ = println!(rt; ", one in each family.");
}

fn show_opened(rt: &impl Print, opened: &[[u8; 8]; 4]) {
    let _ = println!(rt; "\nThe buyer opens:");
    for ((family, grade), price) in FAMILIES.iter().zip(SELECTIONS).zip(opened) {
        let _ = print!(rt; "{family:9}grade {grade}");
        let _ = rt.write_all(price);
        let _ = println!(rt;);
    }
}

// The session, both sets of seeds and the secret, which are drawn anew for each batch; here they are the same in every run.
#[derive(Clone, Copy)]
struct Drawn {
    session: [u8; 12],
    first: [u8; 8192],
    second: [u8; 8192],
    secret: [u8; 32],
}

impl Drawn {
    // Draws in place: by value the 16 KiB would be copied from frame to frame.
    fn draw(&mut self) {
        let a = outside::draw(1, &mut self.session);
        let b = outside::draw(a, &mut self.first);
        let c = outside::draw(b, &mut self.second);
        outside::draw(c, &mut self.secret);
    }
}

// What is printed is what is compared, so a write that fails is not reported.
fn main(rt: HostRuntime) {
    show_prices(&rt);
    show_selections(&rt);
    let mut drawn = Drawn {
        session: [0; 12],
        first: [0; 8192],
        second: [0; 8192],
        secret: [0; 32],
    };
    drawn.draw();
    let mut taken = [0u8; 8192];
    let mut message = [0u8; 283];
    let mut kept = [0u8; 128];
    let mut answer = [0u8; 187];
    let mut opened = [[0u8; 8]; 4];
    let outcome = exchange(
        SHAPE,
        &drawn.session,
        &drawn.first,
        &drawn.second,
        &SELECTIONS,
        &drawn.secret,
        PRICES.as_flattened(),
        &mut taken,
        &mut message,
        &mut kept,
        &mut answer,
        opened.as_flattened_mut(),
    );
    printing::message(&rt, "supplier", &message);
    printing::message(&rt, "buyer", &answer);
    match outcome {
        Ok(()) => show_opened(&rt, &opened),
        Err(refusal) => printing::refusal(&rt, refusal),
    }
}
