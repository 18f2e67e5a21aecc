//! A lent slice that is written from its front on.
ghost use Rattle.std.specs.Prelude.{◌≡◌, ◌+◌, ◌≤◌, length, replicate};
ghost use Rattle.fields.specs.LittleEndian.{le};

/// A writer that goes through a lent slice: the bytes before `at` are written, those from there on
/// are as they were. Its contract says what was put, so that a chain of puts is an append and no
/// place is reckoned twice.
#[derive(Drop)]
pub struct Writer<'a> {
    bytes: &'a mut [u8],
    at: usize,
}

impl<'a> Writer<'a> {
    ghost use Rattle.fields.specs.Writing.{Puts};

    /// At the slice's front.
    pub fn new(bytes: &'a mut [u8]) -> Writer<'a>
        ensures same_reference { result.bytes.ghost_name ≡ bytes.entry.ghost_name }
        ensures at { result.at ≡ 0 }
        ensures bytes { result.bytes.now ≡ bytes.old }
    {
        Writer { bytes, at: 0 }
    }

    /// Puts all of `bytes`.
    pub fn put(&mut self, bytes: &[u8])
        requires room { self.old.at + length bytes.now ≤ length self.old.bytes.now }
        ensures { Puts self.old self.new (length bytes.now) bytes.now }
    {
        let end = self.at + bytes.len();
        self.bytes[self.at..end].copy_from_slice(bytes);
        self.at = end;
    }

    /// Puts the same byte `count` times.
    pub fn fill(&mut self, byte: u8, count: usize)
        requires room { self.old.at + count ≤ length self.old.bytes.now }
        ensures { Puts self.old self.new count (replicate count byte) }
    {
        let end = self.at + count;
        self.bytes[self.at..end].fill(byte);
        self.at = end;
    }

    /// Puts the `width` low bytes of a number, the lowest first.
    pub fn put_number(&mut self, number: u64, width: u8)
        requires narrow { width ≤ 8 }
        requires room { self.old.at + width ≤ length self.old.bytes.now }
        ensures { Puts self.old self.new width (le width number) }
    {
        self.put(&number.to_le_bytes()[..usize::from(width)]);
    }

    /// Puts a number's four bytes, the lowest first.
    #[tactic(auto, using(crate::proofs::Writing::le_four))]
    pub fn put_u32(&mut self, number: u32)
        requires room { self.old.at + 4 ≤ length self.old.bytes.now }
        ensures { Puts self.old self.new 4 (le 4 number) }
    {
        self.put(&number.to_le_bytes());
    }
}
