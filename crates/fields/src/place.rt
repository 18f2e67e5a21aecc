//! Where an object's bytes are.
use refusals::{Answer, Reported};

/// The position of an object's first byte, and how many bytes it has.
#[derive(Clone, Copy, Debug, PartialEq, Eq)]
pub struct Place {
    pub position: u64,
    pub length: u64,
}

impl Reported for Place {
    ghost use Rattle.fields.specs.Places.{place_report};

    ghost report = { place_report };

    fn answer(self) -> Answer {
        Answer::accepted(self.position, self.length)
    }
}
