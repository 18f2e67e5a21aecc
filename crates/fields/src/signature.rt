//! Signatures: the four letters that headers and blocks begin with.
ghost use Rattle.std.specs.Prelude.{◌≡◌, ◌+◌, ◌≤◌, length, take, drop, bytes_eq};

use crate::little_endian::read_u32_le;

/// Whether these four letters stand at `pos`; the caller has tested the length. They are compared
/// as one number, since slices are compared by a call.
#[tactic(auto, using(crate::proofs::LittleEndian::same_letters))]
pub fn has_signature(bytes: &[u8], pos: usize, signature: &[u8]) -> bool
    requires there { pos + 4 ≤ length bytes.now }
    requires letters { length signature.now ≡ 4 }
    ensures { result ≡ bytes_eq (take 4 (drop pos bytes.now)) signature.now }
{
    read_u32_le(bytes, pos) == read_u32_le(signature, 0)
}
