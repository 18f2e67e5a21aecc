//! The tests of the lists and the sizes, before any planning.
ghost use Rattle.std.specs.Prelude.{◌≡◌, ◌≤◌, OnOk};
ghost use Rattle.fields.specs.Widths.{byte_count};
ghost use Rattle.plan.specs.Checks.{sizes_checked, places_checked, input_checked};

use fields::Width;
use refusals::FormatError;
use table::block_sizes::max_managed_object;

// The first size above the limit is refused.
#[tactic(auto, using(crate::proofs::Checking::sizes_in_turn))]
fn check_sizes(sizes: &[u64], limit: u64) -> Result<(), FormatError>
    ensures { result ≡ sizes_checked limit 0 sizes.now }
{
    for (i, size) in sizes.iter().enumerate() {
        if *size > limit {
            return Err(FormatError::ObjectTooLarge {
                index: i as u64,
                size: *size,
            });
        }
    }
    Ok(())
}

/// Tests that a list of `lent` places holds `needed` numbers: else 13 with both.
pub fn check_places(needed: usize, lent: usize) -> Result<(), FormatError>
    ensures answer { result ≡ places_checked needed lent }
    ensures long_enough { OnOk result (needed ≤ lent) }
{
    if needed > lent {
        return Err(FormatError::SliceTooShort {
            needed: needed as u64,
            lent: lent as u64,
        });
    }
    Ok(())
}

/// The tests of lists of `offsets` and `blocks` places and of the sizes: 13 for the offsets, 13 for
/// the blocks, 11, in this order. Without objects there is still one block, so the list of blocks
/// has one place at least.
#[tactic(auto, using(fields::proofs::Widths::legal_width))]
pub fn check_input(
    sizes: &[u64],
    offsets: usize,
    blocks: usize,
    width: Width,
) -> Result<(), FormatError>
    ensures { result ≡ input_checked sizes.now offsets blocks (byte_count width) }
{
    check_places(sizes.len(), offsets)?;
    check_places(sizes.len().max(1), blocks)?;
    check_sizes(sizes, max_managed_object(width.bytes()))
}
