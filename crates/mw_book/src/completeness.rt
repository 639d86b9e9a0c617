//! A run that meets no fault, and does not run out of memory, writes the expected output.
ghost use Rattle.mw_book.specs.Complete.{RunsAreComplete};

/// A consequence of the clauses of `run`: for all arguments, where the source and the sink expose their bytes and neither count of faults
/// rises, it returns a status and the sink took the text expected with it, or it returns `Memory`.
pub fn runs_are_complete()
    ensures { RunsAreComplete }
{}
