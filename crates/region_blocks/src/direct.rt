//! A direct block.
ghost use Rattle.std.specs.Prelude.{◌≡◌, ◌+◌, ◌++◌, ◌≤◌, length, replicate};
ghost use Rattle.fields.specs.Signatures.{direct_signature};
ghost use Rattle.table.specs.Table.{fixed};
ghost use Rattle.table.specs.Sizes.{direct_header};
ghost use Rattle.region_blocks.specs.Blocks.{block_head, direct_body, direct_block};

use crate::{Site, put_head};
use checksum::jenkins_lookup3;
use fields::Writer;
use table::block_sizes::direct_block_header;

// All but the checksum, whose field is zero.
fn write_unsummed(block: &mut [u8], offset: u64, objects: &[u8], site: Site)
    requires narrow { site.offset_size ≤ 8 }
    requires room { direct_header fixed site.offset_size + length objects.now ≤ length block.old }
    ensures { block.new
        ≡ block_head fixed site.offset_size direct_signature site.heap_header_address offset
        ++ (replicate 4 0 ++ direct_body fixed site.offset_size (length block.old) objects.now) }
{
    let header = direct_block_header(site.offset_size) as usize;
    let padding = block.len() - header - objects.len();
    let mut writer = Writer::new(block);
    put_head(&mut writer, b"FHDB", offset, site);
    writer.put_u32(0);
    writer.put(objects);
    writer.fill(0, padding);
}

/// Writes a direct block over all of `block`: head, objects and zeros, then the checksum of it all,
/// taken while its own field is zero. `offset` is the block's heap offset, `objects` the bytes of
/// its objects.
pub fn write_direct_block(block: &mut [u8], offset: u64, objects: &[u8], site: Site)
    requires narrow { site.offset_size ≤ 8 }
    requires room { direct_header fixed site.offset_size + length objects.now ≤ length block.old }
    ensures { block.new
        ≡ direct_block fixed site.offset_size site.heap_header_address offset
        (length block.old) objects.now }
{
    write_unsummed(block, offset, objects, site);
    let header = direct_block_header(site.offset_size) as usize;
    let sum = jenkins_lookup3(block);
    block[header - 4..header].copy_from_slice(&sum.to_le_bytes());
}
