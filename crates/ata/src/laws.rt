//! Laws of every drive, each on a function that stands for it.

ghost use Rattle.ata.specs.Laws.{StaysLevel, FlushSettles, ThroughSettles, FreedomUnseen, PiecesJoin};

/// With the cache off, or the power gone, face and medium are the same, and stay so over any steps.
pub fn stays_level()
    ensures { StaysLevel }
{}

/// After a flush, or the cache switched off, face and medium are the same.
pub fn flush_settles()
    ensures { FlushSettles }
{}

/// After a write through the cache, face and medium are the same where it wrote.
pub fn through_settles()
    ensures { ThroughSettles }
{}

/// What a host sees while power lasts does not depend on the drive's freedom.
pub fn freedom_is_unseen()
    ensures { FreedomUnseen }
{}

/// A transfer cut into pieces does to the blocks what the whole does.
pub fn pieces_join()
    ensures { PiecesJoin }
{}
