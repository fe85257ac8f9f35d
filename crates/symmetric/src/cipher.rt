// RFC 8439, sections 2.1 to 2.3: the ChaCha20 block. The state is sixteen words by value, in four rows.
ghost use Rattle.std.specs.Prelude.{◌≡◌, ◌+◌, ◌≤◌, [], ◌∷◌, length};
ghost use Rattle.symmetric.specs.Words.{sums};
ghost use Rattle.symmetric.specs.ChaCha.{quarter, column_round, diagonal_round, inner_block, double_rounds, le32_at, start, chacha20};
ghost use Rattle.symmetric.specs.Values.{row, cells};

// A row of the state, and the four words of a quarter round.
#[derive(Clone, Copy)]
pub(crate) struct Row {
    a: u32,
    b: u32,
    c: u32,
    d: u32,
}

// Section 2.3: the state, a matrix of four rows.
#[derive(Clone, Copy)]
pub(crate) struct Grid {
    a: Row,
    b: Row,
    c: Row,
    d: Row,
}

// A word from four bytes, the least significant first.
fn word_at(b: &[u8], i: usize) -> u32
    requires { i + 4 ≤ length b.now }
    ensures { result ≡ le32_at b.now i }
{
    u32::from_le_bytes([b[i], b[i + 1], b[i + 2], b[i + 3]])
}

// Section 2.1, line by line.
fn quarter_round(a: u32, b: u32, c: u32, d: u32) -> Row
    ensures { row result ≡ quarter a b c d }
{
    let a1 = a.wrapping_add(b);
    let d1 = (d ^ a1).rotate_left(16);
    let c1 = c.wrapping_add(d1);
    let b1 = (b ^ c1).rotate_left(12);
    let a2 = a1.wrapping_add(b1);
    let d2 = (d1 ^ a2).rotate_left(8);
    let c2 = c1.wrapping_add(d2);
    let b2 = (b1 ^ c2).rotate_left(7);
    Row::of(a2, b2, c2, d2)
}

impl Row {
    fn of(a: u32, b: u32, c: u32, d: u32) -> Row
        ensures { row result ≡ a ∷ b ∷ c ∷ d ∷ [] }
    {
        Row { a, b, c, d }
    }

    // Four words of the key.
    fn at(b: &[u8], i: usize) -> Row
        requires { i + 16 ≤ length b.now }
        ensures { row result ≡ le32_at b.now i ∷ le32_at b.now (i + 4) ∷ le32_at b.now (i + 8) ∷ le32_at b.now (i + 12) ∷ [] }
    {
        Row::of(
            word_at(b, i),
            word_at(b, i + 4),
            word_at(b, i + 8),
            word_at(b, i + 12),
        )
    }

    fn plus(self, v: Row) -> Row
        ensures { row result ≡ sums 4 (row self) (row v) }
    {
        Row {
            a: self.a.wrapping_add(v.a),
            b: self.b.wrapping_add(v.b),
            c: self.c.wrapping_add(v.c),
            d: self.d.wrapping_add(v.d),
        }
    }
}

impl Grid {
    // Constants, key, counter and nonce.
    fn started(key: &[u8], nonce: &[u8], counter: u32) -> Grid
        requires { (length key.now ≡ 32) × (length nonce.now ≡ 12) }
        ensures { cells result ≡ start key.now nonce.now counter }
    {
        let a = Row::of(0x6170_7865, 0x3320_646e, 0x7962_2d32, 0x6b20_6574);
        let b = Row::at(key, 0);
        let c = Row::at(key, 16);
        let first = word_at(nonce, 0);
        let second = word_at(nonce, 4);
        let third = word_at(nonce, 8);
        let d = Row::of(counter, first, second, third);
        Grid { a, b, c, d }
    }

    fn columns(self) -> Grid
        ensures { cells result ≡ column_round (cells self) }
    {
        let Grid { a, b, c, d } = self;
        let p = quarter_round(a.a, b.a, c.a, d.a);
        let q = quarter_round(a.b, b.b, c.b, d.b);
        let u = quarter_round(a.c, b.c, c.c, d.c);
        let v = quarter_round(a.d, b.d, c.d, d.d);
        Grid {
            a: Row::of(p.a, q.a, u.a, v.a),
            b: Row::of(p.b, q.b, u.b, v.b),
            c: Row::of(p.c, q.c, u.c, v.c),
            d: Row::of(p.d, q.d, u.d, v.d),
        }
    }

    fn diagonals(self) -> Grid
        ensures { cells result ≡ diagonal_round (cells self) }
    {
        let Grid { a, b, c, d } = self;
        let p = quarter_round(a.a, b.b, c.c, d.d);
        let q = quarter_round(a.b, b.c, c.d, d.a);
        let u = quarter_round(a.c, b.d, c.a, d.b);
        let v = quarter_round(a.d, b.a, c.b, d.c);
        Grid {
            a: Row::of(p.a, q.a, u.a, v.a),
            b: Row::of(v.b, p.b, q.b, u.b),
            c: Row::of(u.c, v.c, p.c, q.c),
            d: Row::of(q.d, u.d, v.d, p.d),
        }
    }

    fn double_round(self) -> Grid
        ensures { cells result ≡ inner_block (cells self) }
    {
        self.columns().diagonals()
    }

    fn twenty_rounds(self) -> Grid
        ensures { cells result ≡ double_rounds (cells self) 10 }
    {
        let mut v = self;
        for _ in 0..10usize {
            v = v.double_round();
        }
        v
    }

    fn plus(self, v: Grid) -> Grid
        ensures { cells result ≡ sums 16 (cells self) (cells v) }
    {
        Grid {
            a: self.a.plus(v.a),
            b: self.b.plus(v.b),
            c: self.c.plus(v.c),
            d: self.d.plus(v.d),
        }
    }

    fn listed(self) -> [u32; 16]
        ensures { result ≡ cells self }
    {
        let Grid { a, b, c, d } = self;
        [
            a.a, a.b, a.c, a.d, b.a, b.b, b.c, b.d, c.a, c.b, c.c, c.d, d.a, d.b, d.c, d.d,
        ]
    }
}

// Slices, whose lengths the caller has judged: an array's type would ask for those lengths a second time (`as_array` gives an Option).
pub(crate) fn put_block(key: &[u8], nonce: &[u8], counter: u32, out: &mut [u8])
    requires { (length key.now ≡ 32) × (length nonce.now ≡ 12) × (length out.old ≡ 64) }
    ensures { out.new ≡ chacha20 key.now nonce.now counter }
{
    let s = Grid::started(key, nonce, counter);
    let v = s.twenty_rounds();
    let sum = v.plus(s);
    let words = sum.listed();
    out.copy_from_slice(words.map(u32::to_le_bytes).as_flattened());
}
