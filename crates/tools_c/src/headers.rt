//! Headers.
ghost use Rattle.std.specs.Prelude.{◌≡◌};
ghost use Rattle.fractal_heap.specs.Header.{header_at, parsed_numbers};
ghost use Rattle.fractal_heap.specs.Listed.{header_number};
ghost use Rattle.tools_c.specs.Lists.{listed_by};

use crate::lists::put_refusal;
use fields::convert::to_usize;
use fractal_heap::{FractalHeapHeader, NUMBER_COUNT};
use refusals::SLICE_TOO_SHORT;

/// The header's 23 fields in header order, then what is kept of its filters: where their information begins in the file,
/// the filtered root direct block's size, and the mask, all 0 where there are none; or the refusal's pair. They go into
/// the first places of a list of at least 26; a shorter one gives 13 and is left as it is.
#[tactic(auto, unfolding(fields::specs::LittleEndian::put))]
#[unsafe(no_mangle)]
pub extern "C" fn tools_parse_header(
    file: &[u8],
    at: u64,
    offset_size: u8,
    length_size: u8,
    fields: &mut [u64],
) -> u32
    ensures number { result
        ≡ header_number fields.old (header_at file.now at offset_size length_size) }
    ensures fields_after { fields.new
        ≡ listed_by NUMBER_COUNT parsed_numbers fields.old
        (header_at file.now at offset_size length_size) }
{
    if fields.len() < NUMBER_COUNT {
        return SLICE_TOO_SHORT;
    }
    match FractalHeapHeader::parse(file, to_usize(at), offset_size, length_size) {
        Ok(header) => {
            header.put_numbers(fields);
            0
        }
        Err(refused) => put_refusal(fields, refused),
    }
}
