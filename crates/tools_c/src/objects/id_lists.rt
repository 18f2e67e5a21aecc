//! The objects of a list of IDs, as numbers in a lent list.
ghost use Rattle.std.specs.Prelude.{◌≡◌, ◌*◌, ◌/◌, ◌≤◌, ◌++◌, length, drop};
ghost use Rattle.fractal_heap.specs.Header.{header_at};
ghost use Rattle.tools_c.specs.ObjectNumbers.{answers_from};
ghost use Rattle.tools_c.specs.ObjectTools.{id_count, each_number, each_list};

use fields::Place;
use fields::convert::to_usize;
use fractal_heap::FractalHeapHeader;
use ids::write::ID_LENGTH;
use refusals::{FormatError, Reported, SLICE_TOO_SHORT};

/// How many numbers an answer is told by: its own, and two values.
const ANSWER_PLACES: usize = 3;

/// How the object of an ID is read.
pub trait ObjectReader {
    ghost use Rattle.std.specs.Prelude.{List, ℕ, Result};
    ghost use Rattle.fields.specs.declared.place.Place.{Place};
    ghost use Rattle.refusals.specs.declared.FormatError.{FormatError};
    ghost use Rattle.fractal_heap.specs.declared.header.FractalHeapHeader.{FractalHeapHeader};

    // What it answers by the heap's header and the ID's bytes.
    ghost answered: { Self → FractalHeapHeader → List ℕ → Result Place FormatError };

    fn read(&self, header: &FractalHeapHeader, id: &[u8]) -> Result<Place, FormatError>
        ensures { result ≡ answered self.now header.now id.now };
}

/// In a file whose addresses have `offset_size` bytes, no block on the way tested.
#[derive(Clone, Copy)]
pub struct UncheckedFile<'a> {
    pub file: &'a [u8],
    pub offset_size: u8,
}

impl ObjectReader for UncheckedFile<'_> {
    ghost use Rattle.fractal_heap.specs.Read.{managed_unchecked};

    ghost answered = { λ it header id. managed_unchecked header it.file.now id it.offset_size };

    #[inline(always)]
    fn read(&self, header: &FractalHeapHeader, id: &[u8]) -> Result<Place, FormatError> {
        header.read_managed_object_unchecked(self.file, id, self.offset_size)
    }
}

/// The same, every block on the way tested, in a heap whose header has this address.
#[derive(Clone, Copy)]
pub struct CheckedFile<'a> {
    pub heap_header_address: u64,
    pub file: &'a [u8],
    pub offset_size: u8,
}

impl ObjectReader for CheckedFile<'_> {
    ghost use Rattle.fractal_heap.specs.Read.{managed_checked};

    ghost answered = { λ it header id. managed_checked header it.heap_header_address it.file.now id it.offset_size };

    #[inline(always)]
    fn read(&self, header: &FractalHeapHeader, id: &[u8]) -> Result<Place, FormatError> {
        header.read_managed_object(self.file, self.heap_header_address, id, self.offset_size)
    }
}

// Reads every eight bytes of `ids` as an ID, and puts an answer for each into `found`: number and values. The caller has
// tested that the list is long enough.
fn read_each<R: ObjectReader>(
    objects: &R,
    header: &FractalHeapHeader,
    ids: &[u8],
    found: &mut [u64],
)
    requires { ANSWER_PLACES * id_count ids.now ≤ length found.old }
    ensures { found.new ≡ answers_from (R.answered objects.now header.now) (id_count ids.now)
        ids.now ++ drop (ANSWER_PLACES * id_count ids.now) found.old }
{
    let n = ids.len() / ID_LENGTH;
    for i in 0..n {
        let start = ID_LENGTH * i;
        let id = &ids[start..start + ID_LENGTH];
        let a = objects.read(header, id).answer();
        let place = ANSWER_PLACES * i;
        found[place] = u64::from(a.number);
        found[place + 1] = a.first;
        found[place + 2] = a.second;
    }
}

/// The header once, then every ID; 13 and nothing stored where the list is too short for all.
#[inline(always)]
pub fn read_list<R: ObjectReader>(
    objects: &R,
    file: &[u8],
    at: u64,
    offset_size: u8,
    length_size: u8,
    ids: &[u8],
    found: &mut [u64],
) -> u32
    ensures number { result
        ≡ each_number found.old ids.now (header_at file.now at offset_size length_size) }
    ensures found_after { found.new ≡ each_list found.old ids.now (R.answered objects.now)
        (header_at file.now at offset_size length_size) }
{
    if found.len() / ANSWER_PLACES < ids.len() / ID_LENGTH {
        return SLICE_TOO_SHORT;
    }
    match FractalHeapHeader::parse(file, to_usize(at), offset_size, length_size) {
        Ok(header) => {
            read_each(objects, &header, ids, found);
            0
        }
        Err(e) => e.answer().number,
    }
}
