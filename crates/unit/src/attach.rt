//! A unit's beginning and end.

ghost use Rattle.std.specs.Prelude.{◌≡◌};
ghost use Rattle.unit.specs.Attached.{Identified, Remembers};

use crate::standing::Phase;
use ata::{AtaCommand, Drive};
use transfer::task;

/// A unit over a drive, which it holds until it is detached.
pub struct Unit<D> {
    pub(crate) drive: D,
    pub(crate) phase: Phase,
}

impl<D: Drive> Unit<D> {
    /// Takes a drive, and asks it what it is. A new unit has an attention to report.
    pub fn attach(mut drive: D) -> Unit<D>
        ensures sent { Identified D.Drive.does drive result.drive result.phase }
        ensures remembers { Remembers result.phase (D.Drive.meaning result.drive) }
    {
        let mut words = [0u16; 256];
        let answer = drive.words_in(task(AtaCommand::IdentifyDevice, 0, 0), &mut words);
        let phase = Phase::first(answer, &words);
        Unit { drive, phase }
    }

    /// Gives the drive back, and ends the unit.
    pub fn detach(self) -> D
        ensures { result ≡ self.drive }
    {
        let Unit { drive, phase: _ } = self;
        drive
    }
}
