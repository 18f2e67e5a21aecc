//! A reader of single fields.
ghost use Rattle.std.specs.Prelude.{◌≡◌, ◌+◌, ◌≤◌, length};

use refusals::FormatError;

/// A file with a header in it. Fields that the format marks O have `offset_size` bytes, those marked L `length_size`.
/// Each method reads what stands at `pos`, and tells where the next field begins; it refuses a field that is not all
/// there (1).
#[derive(Clone, Copy)]
pub struct Reader<'a> {
    pub file: &'a [u8],
    pub offset_size: u8,
    pub length_size: u8,
}

impl Reader<'_> {
    ghost use Rattle.std.specs.Prelude.{true, OnOk, IfOk};
    ghost use Rattle.fields.specs.Widths.{legal};
    ghost use Rattle.fields.specs.LittleEndian.{le_at};
    ghost use Rattle.fractal_heap.specs.HeaderReader.{plain_field, offset_field, length_field};

    /// The number of `width` bytes at `pos`, of which nothing is tested: they are there, and the width is one.
    #[inline(always)]
    pub fn untested(&self, pos: usize, width: u8) -> (u64, usize)
        requires width { legal width ≡ true }
        requires there { pos + width ≤ length self.now.file.now }
        ensures { result ≡ (le_at self.now.file.now pos width, pos + width) }
    {
        let number = fields::little_endian::read_le(self.file, pos, width);
        (number, pos + usize::from(width))
    }

    /// A number of one byte.
    #[inline(always)]
    #[tactic(auto, unfolding(fields::specs::LittleEndian::le_at, fields::specs::LittleEndian::value))]
    pub fn u8(&self, pos: usize) -> Result<(u8, usize), FormatError>
        ensures read { result ≡ plain_field self.now.file.now pos 1 }
        ensures next { IfOk result (λ field. field.1 ≡ pos + 1) }
        ensures there { IfOk result (λ field. field.1 ≤ length self.now.file.now) }
    {
        fields::ensure_len(self.file, pos, 1)?;
        Ok((self.file[pos], pos + 1))
    }

    /// A number of two bytes.
    #[inline(always)]
    pub fn u16(&self, pos: usize) -> Result<(u16, usize), FormatError>
        ensures read { result ≡ plain_field self.now.file.now pos 2 }
        ensures next { IfOk result (λ field. field.1 ≡ pos + 2) }
        ensures there { IfOk result (λ field. field.1 ≤ length self.now.file.now) }
    {
        let number = fields::read_u16(self.file, pos)?;
        Ok((number, pos + 2))
    }

    /// A number of four bytes.
    #[inline(always)]
    pub fn u32(&self, pos: usize) -> Result<(u32, usize), FormatError>
        ensures read { result ≡ plain_field self.now.file.now pos 4 }
        ensures next { IfOk result (λ field. field.1 ≡ pos + 4) }
        ensures there { IfOk result (λ field. field.1 ≤ length self.now.file.now) }
    {
        let number = fields::read_u32(self.file, pos)?;
        Ok((number, pos + 4))
    }

    /// An address; an `offset_size` that is no width is refused first (2).
    #[inline(always)]
    pub fn offset(&self, pos: usize) -> Result<(u64, usize), FormatError>
        ensures read { result ≡ offset_field self.now.file.now pos self.now.offset_size }
        ensures next { IfOk result (λ field. field.1 ≡ pos + self.now.offset_size) }
        ensures there { IfOk result (λ field. field.1 ≤ length self.now.file.now) }
        ensures width { OnOk result (legal self.now.offset_size ≡ true) }
    {
        let address = fields::read_offset(self.file, pos, self.offset_size)?;
        Ok((address, pos + usize::from(self.offset_size)))
    }

    /// A length; a `length_size` that is no width is refused first (3).
    #[inline(always)]
    pub fn length(&self, pos: usize) -> Result<(u64, usize), FormatError>
        ensures read { result ≡ length_field self.now.file.now pos self.now.length_size }
        ensures next { IfOk result (λ field. field.1 ≡ pos + self.now.length_size) }
        ensures there { IfOk result (λ field. field.1 ≤ length self.now.file.now) }
        ensures width { OnOk result (legal self.now.length_size ≡ true) }
    {
        let number = fields::read_length(self.file, pos, self.length_size)?;
        Ok((number, pos + usize::from(self.length_size)))
    }
}
