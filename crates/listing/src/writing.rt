// A text that grows at its end: each method leaves what the listing held with more behind it.
ghost use Rattle.std.specs.Prelude.{◌≡◌, [], ◌∷◌, ◌/◌, ◌%◌, ◌<◌};
ghost use Rattle.listing.specs.Text.{lead, decimal, hex_digit, listed, pushed, grown};

use crate::Listing;

#[tactic(auto, using(std::proofs::lemmas::Bool::Decides::nat_tests), unfolding(crate::specs::Text::hex_digit))]
fn hex_digit(d: u8) -> u8
    requires { d < 16 }
    ensures { result ≡ hex_digit d }
{
    if d < 10 { b'0' + d } else { b'a' + (d - 10) }
}

#[tactic(auto, using(crate::proofs::Text::growing), unfolding(crate::specs::Text::grown))]
impl Listing {
    // No text yet.
    #[tactic(auto, unfolding(crate::specs::Text::listed))]
    pub(crate) fn empty() -> Listing
        ensures { result ≡ listed [] }
    {
        Listing {
            text: [0; 128],
            len: 0,
        }
    }

    // One byte, where there is room.
    #[tactic(auto, using(std::proofs::lemmas::Bool::Decides::nat_tests), unfolding(crate::specs::Text::pushed))]
    fn push(&mut self, b: u8)
        ensures { self.new ≡ pushed self.old b }
    {
        if self.len < self.text.len() {
            self.text[self.len] = b;
            self.len += 1;
        }
    }

    // A word, byte by byte.
    pub(crate) fn put(&mut self, word: &[u8])
        ensures { self.new ≡ grown self.old word.now }
    {
        for b in word {
            self.push(*b);
        }
    }

    // The digit of n at a unit, where n reaches that unit.
    #[tactic(auto, using(std::proofs::lemmas::Bool::Decides::nat_tests), unfolding(crate::specs::Text::lead, crate::specs::Text::grown))]
    fn put_lead(&mut self, unit: usize, n: usize)
        requires { 0 < unit }
        ensures { self.new ≡ grown self.old (lead unit n) }
    {
        if unit <= n {
            self.push(b'0' + (n / unit % 10) as u8);
        }
    }

    // A number below 100,000. Not by `write!`: `decimal`, which the contract of `list` names, gives five digits of any number.
    pub(crate) fn put_decimal(&mut self, n: usize)
        ensures { self.new ≡ grown self.old (decimal n) }
    {
        for unit in [10000, 1000, 100, 10] {
            self.put_lead(unit, n);
        }
        self.push(b'0' + (n % 10) as u8);
    }

    // A byte as two digits.
    pub(crate) fn put_hex(&mut self, b: u8)
        ensures { self.new ≡ grown self.old (hex_digit (b / 16) ∷ hex_digit (b % 16) ∷ []) }
    {
        self.push(hex_digit(b / 16));
        self.push(hex_digit(b % 16));
    }
}
