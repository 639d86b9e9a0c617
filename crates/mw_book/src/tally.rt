//! The counts of a report.
ghost use Rattle.std.specs.Prelude.{◌≡◌, ◌+◌, ◌<◌, ◌≤◌, ◌^◌, ◌++◌, cond, nat_lt, IfOk, OnOk};
ghost use Rattle.mw_model.specs.Reports.Report.{is_accepted};
ghost use Rattle.mw_kernel.specs.Fates.{fate_of};
ghost use Rattle.mw_book.specs.Lines.{summary_of};

use crate::line::write_summary;
use mw_heap::Memory;
use mw_kernel::Fate;

/// How many events were judged, and how many of them were refused.
#[derive(Drop)]
pub(crate) struct Tally {
    pub(crate) events: u64,
    pub(crate) refused: u64,
}

impl Tally {
    /// Nothing was judged.
    pub(crate) fn new() -> Tally
        ensures events { result.events ≡ 0 }
        ensures refused { result.refused ≡ 0 }
    {
        Tally {
            events: 0,
            refused: 0,
        }
    }

    /// Counts an event with this fate.
    pub(crate) fn add(&mut self, fate: &Fate)
        requires events { self.old.events + 1 < 2 ^ 64 }
        requires refused { self.old.refused + 1 < 2 ^ 64 }
        ensures events { self.new.events ≡ self.old.events + 1 }
        ensures refused { self.new.refused ≡ self.old.refused + cond (is_accepted (fate_of fate.now)) 0 1 }
    {
        self.events += 1;
        if let Fate::Refused(_) = fate {
            self.refused += 1;
        }
    }

    /// Writes the last line of a book that led to this level. Answers whether some event was refused.
    pub(crate) fn end(&self, level: u64, lines: &mut Vec<u8>) -> Result<bool, Memory>
        requires few { self.now.refused ≤ self.now.events }
        ensures some { IfOk result (λ b. b ≡ nat_lt 0 self.now.refused) }
        ensures line { OnOk result (lines.new.items ≡ lines.old.items ++ summary_of self.now.events self.now.refused level) }
    {
        write_summary(lines, self.events, self.refused, level)?;
        Ok(self.refused > 0)
    }
}
