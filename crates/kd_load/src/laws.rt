//! What holds along the lists of a load's bus. Nothing is run here; each function's contract is a
//! law.
ghost use Rattle.kd_load.specs.Laws.{LoadsAreCounted, LoadsRun, SetUpIsFront};

/// Where a bus began, and its connections came one after the other, each with its rule, the desk
/// has just these, and each one's pool was opened.
pub fn set_up_is_front()
    ensures { SetUpIsFront }
{}

/// Once the connections with their rules are there, each pool counts what is for its connection,
/// however the messages of the threads follow each other; the desk stays as it is, and all other
/// pools stay closed.
pub fn loads_are_counted()
    ensures { LoadsAreCounted }
{}

/// Where the passes of a load come in turn, each with its connection and its rule, and all that
/// each does behind that is to send its messages, one after the other, each pool counts what is for
/// its connection.
pub fn loads_run()
    ensures { LoadsRun }
{}
