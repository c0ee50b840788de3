//! What holds of each slice number. Nothing is run here; each function's contract is a law.

ghost use Rattle.kd_numbers.specs.Lists.{FreedByFrees, FreedStays, HandedByReceives, HandedStays};
ghost use Rattle.kd_numbers.specs.Ways.{NumbersGoOneWay};

/// A number is handed by a receive of what waits alone, is marked as freed by a free of what is
/// handed alone, and is swept alone before it comes to another slice.
pub fn numbers_go_one_way()
    ensures { NumbersGoOneWay }
{}

/// A number comes to be handed by a receive alone, which finds it waiting.
pub fn handed_by_receives()
    ensures { HandedByReceives }
{}

/// A number comes to be freed by its free alone, which finds it handed.
pub fn freed_by_frees()
    ensures { FreedByFrees }
{}

/// A number that is handed stays so through every list of acts without its free and without a raise
/// or a close of its pool.
pub fn handed_stays()
    ensures { HandedStays }
{}

/// A number that is freed stays so through every list of acts without a sweep and without a raise
/// or a close of its pool.
pub fn freed_stays()
    ensures { FreedStays }
{}
