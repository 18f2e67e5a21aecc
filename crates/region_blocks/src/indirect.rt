//! An indirect block around its entries.
ghost use Rattle.std.specs.Prelude.{◌≡◌, ◌+◌, ◌≤◌, length};
ghost use Rattle.table.specs.Table.{fixed};
ghost use Rattle.region_blocks.specs.Blocks.{head_size, indirect_block};
ghost use Rattle.region_blocks.specs.Entries.{entries_in};

use crate::{Site, write_head};
use checksum::jenkins_lookup3;

/// Writes the head of an indirect block at the heap offset `offset`, whose entries stand in their
/// place in `block` (the walk has stored them, and knows no sooner where the blocks in the slots
/// stand), and behind them the checksum of head and entries.
#[tactic(auto, using(fields::proofs::Writing::le_four))]
pub fn seal_indirect(block: &mut [u8], offset: u64, site: Site)
    requires narrow { site.offset_size ≤ 8 }
    requires room { head_size fixed site.offset_size + 4 ≤ length block.old }
    ensures { block.new ≡ indirect_block fixed site.offset_size site.heap_header_address offset
        (entries_in fixed site.offset_size block.old) }
{
    let (summed, seal) = block.split_at_mut(block.len() - 4);
    write_head(summed, b"FHIB", offset, site);
    seal.copy_from_slice(&jenkins_lookup3(summed).to_le_bytes());
}
