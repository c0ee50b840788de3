//! What holds along every list of what was done to a book. Nothing is run here; each function's
//! contract is a law.
ghost use Rattle.kd_book.specs.Along.{LowestIsFound, NamesAreDistinct, SlotsAreOdd};

/// Just the slots of odd generations have a bus.
pub fn slots_with_buses_are_odd()
    ensures { SlotsAreOdd }
{}

/// No two slots have buses of one name.
pub fn names_are_distinct()
    ensures { NamesAreDistinct }
{}

/// The slot that is found without a name has a bus, and no slot below it has one.
pub fn found_without_name_is_lowest()
    ensures { LowestIsFound }
{}
