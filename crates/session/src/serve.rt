//! A unit in the bay: the acts from its attachment to its end, over any drive.

ghost use Rattle.std.specs.Prelude.{◌≡◌, ◌+◌, ◌≤◌, length};

use crate::rows::Rows;
use crate::run::Session;
use crate::shown::Shown;
use acts::{Act, Call, Line, Misfit};
use ata::Drive;
use unit::Unit;

impl Session<'_> {
    /// Attaches a drive, carries out the acts up to its detachment, and gives the drive back.
    pub fn run_unit<D: Drive>(&mut self, drive: D, acts: &[Line]) -> (D, anyhow::Result<()>)
        ensures taken { self.new.counts.acts ≤ self.old.counts.acts + length acts.now }
    {
        let mut unit = Unit::attach(drive);
        // The unit has asked the drive what it is.
        self.counts.commands = self.counts.commands.saturating_add(1);
        self.attached = true;
        let ended = self.serve(&mut unit, acts);
        (unit.detach(), ended)
    }

    fn serve<D: Drive>(&mut self, unit: &mut Unit<D>, acts: &[Line]) -> anyhow::Result<()>
        ensures taken { self.new.counts.acts ≤ self.old.counts.acts + length acts.now }
    {
        for line in acts {
            self.announce(line)?;
            match &line.act {
                Act::Call(call) => self.call_unit(unit, call)?,
                Act::Detach => self.attached = false,
                Act::Attach | Act::Disk(_) | Act::Port(_) => return Err(
                    line.misfit(Misfit::Attached).into(),
                ),
            }
        }
        Ok(())
    }

    // Makes a call, and prints its answer and the front of data-in.
    fn call_unit<D: Drive>(&mut self, unit: &mut Unit<D>, call: &Call) -> anyhow::Result<()>
        ensures acts { self.new.counts.acts ≡ self.old.counts.acts }
    {
        let heap = self.rt.alloc();
        let out = vec![in heap; call.fill; call.out]?;
        let mut into = vec![in heap; 0u8; call.into]?;
        let answer = unit.command(call.cdb.as_slice(), out.as_slice(), into.as_mut_slice());
        self.counts.count_answer(answer);
        into.truncate(call.show);
        let shown = Shown(answer);
        let rows = Rows(into.as_slice());
        println!(self.rt; "    {shown}{rows}")?;
        Ok(())
    }
}
