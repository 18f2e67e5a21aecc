//! The blocks of a fractal heap as bytes: each is written over all of a lent slice.
#![tactic(auto)]

pub mod direct;
pub mod indirect;

ghost use Rattle.std.specs.Prelude.{◌≡◌, ◌+◌, ◌++◌, ◌≤◌, length, drop};
ghost use Rattle.table.specs.Table.{fixed};
ghost use Rattle.fields.specs.Writing.{Puts};
ghost use Rattle.region_blocks.specs.Blocks.{block_head, head_size};

use fields::Writer;
use table::BLOCK_OFFSET_BYTES;

/// What all blocks of a region share: the width of addresses in bytes, and where the heap's header
/// and the region stand in the file. It is the caller's, so the width is any byte; the writers of
/// blocks ask that it is 8 at most.
#[derive(Clone, Copy, Debug, PartialEq, Eq)]
pub struct Site {
    pub offset_size: u8,
    pub heap_header_address: u64,
    pub region_address: u64,
}

/// The bytes of a block's head, with which both kinds begin: signature (4), version (1), heap
/// header address, block offset.
pub fn head_size(offset_size: u8) -> u64
    ensures { result ≡ head_size fixed offset_size }
{
    4 + 1 + u64::from(offset_size) + BLOCK_OFFSET_BYTES
}

// How both kinds begin: signature, version 0, the heap header's address, the block's heap offset.
fn put_head(writer: &mut Writer<'_>, signature: &[u8; 4], offset: u64, site: Site)
    requires narrow { site.offset_size ≤ 8 }
    requires room { writer.old.at + head_size fixed site.offset_size ≤ length writer.old.bytes.now }
    ensures { Puts writer.old writer.new (head_size fixed site.offset_size)
        (block_head fixed site.offset_size signature.now site.heap_header_address offset) }
{
    writer.put(signature);
    writer.fill(0, 1); // Version
    writer.put_number(site.heap_header_address, site.offset_size);
    writer.put_number(offset, BLOCK_OFFSET_BYTES as u8);
}

// The head over the front of a block, whose other bytes are left.
#[tactic(auto, using(crate::proofs::Writing::front_written))]
fn write_head(block: &mut [u8], signature: &[u8; 4], offset: u64, site: Site)
    requires narrow { site.offset_size ≤ 8 }
    requires room { head_size fixed site.offset_size ≤ length block.old }
    ensures { block.new
        ≡ block_head fixed site.offset_size signature.now site.heap_header_address offset
        ++ drop (head_size fixed site.offset_size) block.old }
{
    put_head(&mut Writer::new(block), signature, offset, site);
}
