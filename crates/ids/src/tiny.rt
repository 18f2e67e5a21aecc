//! Tiny objects: each lies in its heap ID.
ghost use Rattle.std.specs.Prelude.{◌≡◌, ◌+◌, ◌≤◌, length, IfOk, OnOk};
ghost use Rattle.fields.specs.Fields.{len_ensured};
ghost use Rattle.ids.specs.Tiny.{tiny_in, tiny_at};

use fields::{Place, ensure_len};
use refusals::FormatError;

// Tests that `len` bytes stand at `start` of an ID, by their end alone: of two 16-bit numbers it never overflows.
fn ensure_end(id: &[u8], start: u16, len: u16) -> Result<(), FormatError>
    ensures tested { result ≡ len_ensured id.now start len }
    ensures there { OnOk result (start + len ≤ length id.now) }
{
    ensure_len(id, 0, usize::from(start) + usize::from(len))
}

// `len` bytes at `start` of an ID.
fn tiny_in(id: &[u8], start: u16, len: u16) -> Result<Place, FormatError>
    ensures read { result ≡ tiny_in id.now start len }
    ensures in_id { IfOk result (λ place. place.position + place.length ≤ length id.now) }
{
    ensure_end(id, start, len)?;
    Ok(Place {
        position: u64::from(start),
        length: u64::from(len),
    })
}

/// The tiny object in an ID: where it lies there, and its length. The ID's type is not tested.
pub fn read_tiny_object(heap_id_length: u16, id: &[u8]) -> Result<Place, FormatError>
    ensures found { result ≡ tiny_at heap_id_length id.now }
    ensures in_id { IfOk result (λ place. place.position + place.length ≤ length id.now) }
{
    if heap_id_length > 17 {
        ensure_len(id, 0, 2)?;
        let high = u16::from(id[0] % 16);
        return tiny_in(id, 2, high * 256 + u16::from(id[1]) + 1);
    }
    ensure_len(id, 0, 1)?;
    tiny_in(id, 1, u16::from(id[0] % 16) + 1)
}
