// The shape of the rows: how many strings a row has, how many bytes a string, and how many of the strings the workspace holds. The workspace is lent apart from
// it, so its length is asked by each step that gets it.
ghost use Rattle.std.specs.Prelude.{◌≡◌, ◌*◌, ◌≤◌, ◌<◌};

#[derive(Clone, Copy)]
pub(crate) struct Shape {
    pub(crate) strings: usize,
    pub(crate) bytes: usize,
    pub(crate) held: usize,
    ghost some: { 1 ≤ held },
    ghost few: { held ≤ strings },
    ghost strings_few: { strings ≤ 256 },
    ghost bytes_few: { bytes < 256 },
    ghost room: { held * bytes ≤ 256 },
}

impl Shape {
    // As many strings are held as 256 bytes have room for.
    pub(crate) fn of(strings: usize, bytes: usize) -> Shape
        requires some { 1 ≤ strings }
        requires few { strings ≤ 256 }
        requires bytes_some { 1 ≤ bytes }
        requires bytes_few { bytes < 256 }
        ensures strings { result.strings ≡ strings }
        ensures bytes { result.bytes ≡ bytes }
    {
        Shape {
            strings,
            bytes,
            held: strings.min(256 / bytes),
        }
    }

    // The bytes of a row.
    pub(crate) fn row(self) -> usize
        ensures { result ≡ self.strings * self.bytes }
    {
        self.strings * self.bytes
    }

    // The bytes of the strings that are held.
    pub(crate) fn front(self) -> usize
        ensures { result ≡ self.held * self.bytes }
    {
        self.held * self.bytes
    }
}
