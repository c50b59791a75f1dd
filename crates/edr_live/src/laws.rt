//! Laws of the two ends, each the contract of a function that does nothing.
ghost use Rattle.std.specs.Thread.{IsSend};
ghost use Rattle.edr_live.specs.contracts.ends.LiveReader as reader;

/// A reader may go to another thread.
pub fn a_reader_may_move()
    ensures { IsSend reader.the_row }
{}
