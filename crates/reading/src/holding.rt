// The reader as a struct that holds the message: thin methods over the walk.
ghost use Rattle.std.specs.Prelude.{◌≡◌};
ghost use Rattle.reading.specs.Readers.{reader_of, ReaderStepped};

use crate::walking::{start, step_from};
use crate::{Cursor, Reader, Step};

impl<'a> Reader<'a> {
    // A reader before the first field.
    pub fn new(message: &'a [u8]) -> Reader<'a>
        ensures { result ≡ reader_of message.entry }
    {
        let Cursor { place, shape } = start();
        Reader {
            message,
            place,
            shape,
        }
    }

    // One step: the answer, and the reader moved behind the field.
    #[tactic(auto, unfolding(crate::specs::Reading::advanced))]
    pub fn next(&mut self) -> Step
        ensures { ReaderStepped self.old self.new result }
    {
        let a = step_from(self.message, self.place, self.shape);
        self.place = a.place;
        self.shape = a.shape;
        a.step
    }
}
