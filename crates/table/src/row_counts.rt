//! How many rows an indirect block has that spans so many bytes, and how many a root needs to reach
//! so far. Functions with a `requires` serve our own crates and are no part of the interface.
ghost use Rattle.std.specs.Prelude.{◌≡◌, ◌^◌, ◌≤◌};
ghost use Rattle.table.specs.Table.{fixed, row_of, covering};

use crate::{MAX_HEAP_SPACE, MAX_ROOT_ROWS, row_of};

/// The rows of an indirect block that spans `size` bytes (`H5HF__dtable_size_to_rows`): the row
/// that would begin where it ends.
pub fn size_to_rows(size: u64) -> u64
    requires { size ≤ MAX_HEAP_SPACE }
    ensures rows { result ≡ row_of fixed size }
    ensures of_root { result ≤ MAX_ROOT_ROWS }
{
    row_of(size)
}

/// The fewest rows of a root that span `span` bytes, if the table has as many.
pub fn root_rows_covering(span: u64) -> Option<u64>
    ensures { result ≡ covering fixed span }
{
    if span == 0 {
        return Some(1);
    }
    if span > MAX_HEAP_SPACE {
        return None;
    }
    Some(row_of(span - 1) + 1)
}
