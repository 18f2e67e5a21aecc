//! All objects of a written heap, read back by their IDs and compared with the bytes that they were written from: how
//! many come back.
ghost use Rattle.std.specs.Prelude.{◌≡◌};
ghost use Rattle.round_trip.specs.Backs.{comes_back, returned_count};

use crate::by_id::read_object;
use fractal_heap::FractalHeapHeader;

// Whether an object that is not empty is found by its ID, with these bytes.
fn comes_back(
    file: &[u8],
    header: &FractalHeapHeader,
    offset: u64,
    size: u64,
    bytes: &[u8],
    offset_size: u8,
) -> bool
    ensures { result ≡ comes_back header.now file.now offset_size offset size bytes.now }
{
    if size == 0 {
        return false;
    }
    match read_object(file, header, offset, size, offset_size) {
        Ok(place) => &file[place.position as usize..][..place.length as usize] == bytes,
        Err(_) => false,
    }
}

/// How many nonempty objects come back. The objects' bytes are joined; the sizes and the heap offsets are taken as
/// far as both lists go.
pub fn read_back(
    file: &[u8],
    header: &FractalHeapHeader,
    sizes: &[u64],
    offsets: &[u64],
    objects: &[u8],
    offset_size: u8,
) -> u64
    ensures { result
        ≡ returned_count header.now file.now offset_size sizes.now offsets.now objects.now }
{
    let mut back = 0;
    let mut from: usize = 0;
    for i in 0..sizes.len().min(offsets.len()) {
        let size = sizes[i];
        let end = from.saturating_add(size as usize).min(objects.len());
        let bytes = &objects[from..end];
        back += u64::from(comes_back(file, header, offsets[i], size, bytes, offset_size));
        from = end;
    }
    back
}
