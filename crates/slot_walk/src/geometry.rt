//! A table by its four numbers.
ghost use Rattle.std.specs.Prelude.{◌≡◌, ◌^◌};
ghost use Rattle.table.specs.Table.{fixed, heap_space};
ghost use Rattle.slot_walk.specs.Geometry.{table_of, IsPermitted};

use table::{MAX_DIRECT_BLOCK_SIZE, MAX_HEAP_SIZE_BITS, STARTING_BLOCK_SIZE, TABLE_WIDTH};

/// Slots of a row, bytes of a starting and of a largest direct block, and bits of a heap offset.
#[derive(Clone, Copy)]
pub struct Geometry {
    pub width: u64,
    pub starting_block: u64,
    pub largest_block: u64,
    pub heap_bits: u64,
}

impl Geometry {
    /// The table of every heap that we write.
    #[tactic(auto, using(crate::proofs::Numbers::fixed_table, crate::proofs::Numbers::fixed_permitted))]
    pub fn fixed() -> Geometry
        ensures table { table_of result ≡ fixed }
        ensures permitted { IsPermitted result }
    {
        Geometry {
            width: TABLE_WIDTH,
            starting_block: STARTING_BLOCK_SIZE,
            largest_block: MAX_DIRECT_BLOCK_SIZE,
            heap_bits: u64::from(MAX_HEAP_SIZE_BITS),
        }
    }

    /// Bytes of the heap space: 1, doubled as often as a heap offset has bits.
    pub fn heap_end(&self) -> u64
        requires { IsPermitted self.now }
        ensures { result ≡ heap_space (table_of self.now) }
    {
        let mut end = 1;
        for _bit in 0..self.heap_bits {
            end = end + end;
        }
        end
    }
}
