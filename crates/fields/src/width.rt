//! How many bytes an address or a length has.
ghost use Rattle.std.specs.Prelude.{◌≡◌, ◌↔◌, true, IsSome, IfSome};
ghost use Rattle.fields.specs.Widths.{legal, byte_count};

/// A width that an address or a length may have, once it is tested. Public calls take any byte, as
/// the original does, and so do reads, which test it by `is_width`: over a `Width` a header took a
/// tenth longer to parse, or, with the reads inlined, an object up to a third longer to find by its
/// ID.
#[derive(Clone, Copy, Debug, PartialEq, Eq)]
pub enum Width {
    Two = 2,
    Four = 4,
    Eight = 8,
}

impl Width {
    /// The width of so many bytes, if it is one.
    pub fn new(bytes: u8) -> Option<Width>
        ensures is_legal { IsSome result ↔ (legal bytes ≡ true) }
        ensures bytes { IfSome result (λ width. byte_count width ≡ bytes) }
    {
        match bytes {
            2 => Some(Width::Two),
            4 => Some(Width::Four),
            8 => Some(Width::Eight),
            _ => None,
        }
    }

    /// How many bytes it has.
    pub fn bytes(self) -> u8
        ensures { result ≡ byte_count self }
    {
        self as u8
    }
}
