//! Laws of the walk at any table, each the contract of a function; nothing runs here.
ghost use Rattle.slot_walk.specs.Laws.{SlotsListed, SlotsCounted, CountsFill, LevelsEnough};

/// The list that is walked has the format's direct slots and no others, each once, in order and without a gap.
pub fn slots_are_listed()
    ensures { SlotsListed }
{}

/// Of each size there are as many slots as the format has.
pub fn slots_are_counted()
    ensures { SlotsCounted }
{}

/// The counts, each times its size, are what the rows span.
pub fn counts_fill_the_rows()
    ensures { CountsFill }
{}

/// How many levels of indirect blocks are all: at the fixed table eight, the root being the first.
pub fn eight_levels_are_all()
    ensures { LevelsEnough }
{}
