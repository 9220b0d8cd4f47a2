//! Commands: each is judged from the outside in, and only then put to the drive.

ghost use Rattle.std.specs.Prelude.{◌≡◌, ℕ, ◌+◌, ◌*◌, ◌<◌, ◌≤◌, List, length, Ok};
ghost use Rattle.ata.specs.Commands.{over};
ghost use Rattle.cdb.specs.declared.command.Command.TheVariants.{Read, Write};
ghost use Rattle.unit.specs.declared.replies.Reply.TheVariants.{Good};
ghost use Rattle.unit.specs.Capacity.{capacity_data};
ghost use Rattle.unit.specs.Courses.{Comes, asks, calm, in_phase, course_of, force_by, power_check};
ghost use Rattle.unit.specs.Commanded.{Commanded};
ghost use Rattle.transfer.specs.Steps.{idle_work};
ghost use Rattle.cdb.specs.Rooms.{Room};

use crate::attach::Unit;
use crate::capacity::capacity_data;
use crate::known::Facts;
use crate::replies::Reply;
use crate::standing::Phase;
use ata::{AtaCommand, Drive};
use cdb::{Command, Extent, receive};
use sense::{Refusal, Sense};
use transfer::{Fault, Force, Place, Tally, order, read, task, write};

fn force(fua: bool, through: bool) -> Force
    ensures { result ≡ force_by fua through }
{
    match (fua, through) {
        (false, _) => Force::Cached,
        (true, true) => Force::Through,
        (true, false) => Force::Flushed,
    }
}

fn test_ready<D: Drive>(drive: &mut D) -> Reply<Fault>
    ensures { (b : List ℕ) → Comes D.Drive.does (asks 0 power_check (idle_work (D.Drive.meaning drive.old).most)) drive.old b drive.new b (Ok result) }
{
    let (tally, verdict) = order(drive, task(AtaCommand::CheckPowerMode, 0, 0));
    Reply::from_drive(tally, verdict)
}

impl Facts {
    fn read_capacity(&self, into: &mut [u8]) -> Reply<Fault>
        requires { 8 ≤ length into.old }
        ensures reply { result ≡ Good (record { bytes = 8; commands = 0 }) }
        ensures buffer { into.new ≡ over (capacity_data self.now.blocks) into.old }
    {
        into[..8].copy_from_slice(&capacity_data(self));
        Reply::Good(Tally {
            bytes: 8,
            commands: 0,
        })
    }

    // READ and WRITE differ in the direction, and in how a WRITE is to reach the medium.
    fn read<D: Drive>(
        &self,
        drive: &mut D,
        fua: bool,
        extent: Extent,
        into: &mut [u8],
    ) -> Reply<Fault>
        requires { 512 * extent.count ≤ length into.old }
        ensures { (out : List ℕ) → Comes D.Drive.does (course_of self.now (D.Drive.meaning drive.old).most out (Read fua extent)) drive.old into.old drive.new into.new (Ok result) }
    {
        match self.start(extent) {
            None => Reply::stopped(Place::Cdb, Sense::PastEnd),
            Some(start) => {
                // The library has no `From<u32>` for `usize`.
                let length = 512 * extent.count as usize;
                let (tally, verdict) = read(drive, self.width, fua, start, &mut into[..length]);
                Reply::from_drive(tally, verdict)
            }
        }
    }

    fn write<D: Drive>(&self, drive: &mut D, fua: bool, extent: Extent, out: &[u8]) -> Reply<Fault>
        requires { 512 * extent.count ≤ length out.now }
        ensures { (b : List ℕ) → Comes D.Drive.does (course_of self.now (D.Drive.meaning drive.old).most out.now (Write fua extent)) drive.old b drive.new b (Ok result) }
    {
        match self.start(extent) {
            None => Reply::stopped(Place::Cdb, Sense::PastEnd),
            Some(start) => {
                // The library has no `From<u32>` for `usize`.
                let length = 512 * extent.count as usize;
                let how = force(fua, self.through);
                let (tally, verdict) = write(drive, self.width, how, start, &out[..length]);
                Reply::from_drive(tally, verdict)
            }
        }
    }
}

impl<D: Drive> Unit<D> {
    // A command whose buffers are long enough, by the state of the unit.
    fn obey(&mut self, command: Result<Command, Sense>, out: &[u8], into: &mut [u8]) -> Reply<Fault>
        requires { Room command (length out.now) (length into.old) }
        ensures came { Comes D.Drive.does (in_phase self.old.phase (D.Drive.meaning self.old.drive).most out.now command) self.old.drive into.old self.new.drive into.new (Ok result) }
        ensures phase { self.new.phase ≡ calm self.old.phase }
    {
        match (self.phase, command) {
            (Phase::Unfit, _) => Reply::stopped(Place::Unit, Sense::DeviceFault),
            (Phase::Attention(facts), _) => {
                self.phase = Phase::Ready(facts);
                Reply::stopped(Place::Unit, Sense::Attention)
            }
            (Phase::Ready(_), Err(sense)) => Reply::stopped(Place::Cdb, sense),
            (Phase::Ready(_), Ok(Command::TestUnitReady)) => test_ready(&mut self.drive),
            (Phase::Ready(facts), Ok(Command::ReadCapacity)) => facts.read_capacity(into),
            (Phase::Ready(facts), Ok(Command::Read { fua, extent })) => {
                facts.read(&mut self.drive, fua, extent, into)
            }
            (Phase::Ready(facts), Ok(Command::Write { fua, extent })) => {
                facts.write(&mut self.drive, fua, extent, out)
            }
        }
    }

    /// Carries out a command, or refuses it by number and changes nothing.
    // The three slices are a call as the host makes it; the units above it pass them on.
    pub fn command(
        &mut self,
        cdb: &[u8],
        out: &[u8],
        into: &mut [u8],
    ) -> Result<Reply<Fault>, Refusal>
        ensures { Commanded D.Drive.does D.Drive.meaning self.old cdb.now out.now into.old self.new into.new result }
    {
        let request = receive(cdb)?;
        if out.len() < request.out {
            return Err(Refusal::DataOutShort);
        }
        if into.len() < request.into {
            return Err(Refusal::DataInShort);
        }
        Ok(self.obey(request.command, out, into))
    }
}
