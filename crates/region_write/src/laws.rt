//! Theorems about the region of a plan, each the contract of a function; nothing runs here.
ghost use Rattle.region_write.specs.Laws.{RegionsFill, RootsStand, IndirectsPlanned, RegionsSummed};
ghost use Rattle.region_write.specs.Laws.{DirectsFill};
ghost use Rattle.region_write.specs.Laws.{ObjectsLie, RowsPassed};

/// The region is as long as planned, for objects of any bytes and at any addresses.
pub fn regions_are_as_long_as_planned()
    ensures { RegionsFill }
{}

/// The root's bytes begin at the planned place.
pub fn roots_stand_where_planned()
    ensures { RootsStand }
{}

/// The indirect blocks, and those before the root, are as long as planned, every placed direct
/// block has an entry, and the direct blocks follow one another from the first one's address on.
pub fn indirect_blocks_are_as_planned()
    ensures { IndirectsPlanned }
{}

/// The planned size is that of the indirect blocks and the direct ones; under a root of no rows
/// that of its one block.
pub fn regions_are_their_blocks()
    ensures { RegionsSummed }
{}

/// All direct blocks together are as long as their slots.
pub fn direct_blocks_fill_their_slots()
    ensures { DirectsFill }
{}

/// The direct slot that holds an object's offset has its bytes there, the part of the joined bytes
/// that begins at the sum of the sizes before it.
pub fn objects_lie_in_their_blocks()
    ensures { ObjectsLie }
{}

/// The slots of a row in which no block begins may be passed at once.
pub fn rows_without_blocks_are_passed()
    ensures { RowsPassed }
{}
