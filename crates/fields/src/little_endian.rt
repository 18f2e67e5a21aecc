//! Bytes as little-endian numbers: what two, four and eight bytes of a lent slice are. Public for
//! the crates above alone: the caller has tested the length.
#![tactic(auto, unfolding(crate::specs::LittleEndian::le_at, crate::specs::LittleEndian::value))]

ghost use Rattle.std.specs.Prelude.{◌≡◌, true, ◌+◌, ◌≤◌, length};
ghost use Rattle.fields.specs.LittleEndian.{le_at};
ghost use Rattle.fields.specs.Widths.{legal};

/// The two bytes at `pos`.
pub fn read_u16_le(bytes: &[u8], pos: usize) -> u16
    requires { pos + 2 ≤ length bytes.now }
    ensures { result ≡ le_at bytes.now pos 2 }
{
    u16::from_le_bytes([bytes[pos], bytes[pos + 1]])
}

/// The four bytes at `pos`.
pub fn read_u32_le(bytes: &[u8], pos: usize) -> u32
    requires { pos + 4 ≤ length bytes.now }
    ensures { result ≡ le_at bytes.now pos 4 }
{
    u32::from_le_bytes([bytes[pos], bytes[pos + 1], bytes[pos + 2], bytes[pos + 3]])
}

/// The eight bytes at `pos`.
pub fn read_u64_le(bytes: &[u8], pos: usize) -> u64
    requires { pos + 8 ≤ length bytes.now }
    ensures { result ≡ le_at bytes.now pos 8 }
{
    u64::from_le_bytes([
        bytes[pos],
        bytes[pos + 1],
        bytes[pos + 2],
        bytes[pos + 3],
        bytes[pos + 4],
        bytes[pos + 5],
        bytes[pos + 6],
        bytes[pos + 7],
    ])
}

/// The `width` bytes at `pos`, where the width is 2, 4 or 8.
pub fn read_le(bytes: &[u8], pos: usize, width: u8) -> u64
    requires width_value { legal width ≡ true }
    requires width_in_bounds { pos + width ≤ length bytes.now }
    ensures { result ≡ le_at bytes.now pos width }
{
    match width {
        2 => read_u16_le(bytes, pos) as u64,
        4 => read_u32_le(bytes, pos) as u64,
        _ => read_u64_le(bytes, pos),
    }
}
