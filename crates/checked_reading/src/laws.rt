//! Theorems about checked reading, each the contract of a function; nothing runs here.
ghost use Rattle.checked_reading.specs.Laws.{OnlyRefuses, PathDecides, ObjectInBlock};
ghost use Rattle.checked_reading.specs.Laws.{OthersPass, StopsAreRefusals, NoBlockIsTold};
ghost use Rattle.checked_reading.specs.Laws.{EndsAreCut};
ghost use Rattle.checked_reading.specs.WorkedReads.{WorkedReads};

/// Checking only refuses: what checked reading accepts, reading without tests answers alike.
pub fn checking_only_refuses()
    ensures { OnlyRefuses }
{}

/// A read's answer, and the bytes that it finds, depend on the blocks of its path and on no other byte of the file.
pub fn the_path_decides()
    ensures { PathDecides }
{}

/// An object that is found lies in the last block of its path, and the block in the file.
pub fn objects_lie_in_their_blocks()
    ensures { ObjectInBlock }
{}

/// Every block of a path but the last passes its tests: a read goes on only behind a block that passes.
pub fn the_others_pass()
    ensures { OthersPass }
{}

/// Where `stopping_block` names no block but a refusal, the read has this refusal.
pub fn stops_are_refusals()
    ensures { StopsAreRefusals }
{}

/// Where the root is undefined, or the offset size is none, `stopping_block` names no block but the read's refusal.
pub fn no_block_is_told()
    ensures { NoBlockIsTold }
{}

/// An object's end in its block that is past 2^64 - 1 counts as that number, and is compared alike in files below 2^63
/// bytes: a block that has passed its tests is smaller.
pub fn ends_are_cut()
    ensures { EndsAreCut }
{}

/// Small heaps that are written out by hand are read as worked out by hand: as they stand, damaged, and asked for
/// otherwise.
pub fn worked_reads_hold()
    ensures { WorkedReads }
{}
