//! A command's conversation with a drive.

ghost use Rattle.std.specs.Prelude.{◌≡◌, ℕ, ◌+◌, ◌*◌, ◌/◌, ◌^◌, ◌<◌, ◌≤◌, List, [], ◌∷◌};
ghost use Rattle.transfer.specs.Talk.{none_yet};
ghost use Rattle.transfer.specs.Asks.{plain_ask, pieces, flush_beside};
ghost use Rattle.transfer.specs.Said.{Said};

use crate::address::Lba;
use crate::counts::Tally;
use crate::faults::Fault;
use crate::pieces::{Piece, PieceSize, TransferData};
use crate::tasks::{Width, flush_task};
use ata::{Drive, TaskFile};

/// A drive, and what a command has come to with it so far.
#[derive(Drop)]
pub(crate) struct Conversation<'d, D> {
    pub drive: &'d mut D,
    pub tally: Tally,
}

impl<'d, D: Drive> Conversation<'d, D> {
    // Each function that holds one takes its tally out itself. One that held it round a closure was tried: its contract, of a
    // beginning, an end and the call between them, is longer than the lines that it saves.
    pub(crate) fn new(drive: &'d mut D) -> Conversation<'d, D>
        ensures drive { result.drive.ghost_name ≡ drive.entry.ghost_name }
        ensures same { result.drive.now ≡ drive.old }
        ensures fresh { result.tally ≡ none_yet }
    {
        Conversation {
            drive,
            tally: Tally::new(),
        }
    }

    /// Sends one command that moves no data.
    pub(crate) fn order(&mut self, task: TaskFile) -> Result<(), Fault>
        requires { self.old.tally.commands + 1 < 2 ^ 64 }
        ensures said { (b : List ℕ) → Said D.Drive.does (plain_ask task ∷ []) self.old b self.new b result }
        ensures commands { self.new.tally.commands ≡ self.old.tally.commands + 1 }
        ensures bytes { self.new.tally.bytes ≡ self.old.tally.bytes }
    {
        let answer = self.drive.no_data(task);
        self.tally.hear(answer)
    }

    /// The flush that goes with a transfer of `count` blocks, where it is wanted.
    pub(crate) fn flush_beside(
        &mut self,
        width: Width,
        wanted: bool,
        count: usize,
    ) -> Result<(), Fault>
        requires { self.old.tally.commands + 1 < 2 ^ 64 }
        ensures said { (b : List ℕ) → Said D.Drive.does (flush_beside width wanted count) self.old b self.new b result }
        ensures commands { self.new.tally.commands ≤ self.old.tally.commands + 1 }
        ensures bytes { self.new.tally.bytes ≡ self.old.tally.bytes }
    {
        if !wanted || count == 0 {
            return Ok(());
        }
        self.order(flush_task(width))
    }

    /// Moves the whole blocks of `data`, from `start` on, in pieces.
    pub(crate) fn transfer<T: TransferData>(
        &mut self,
        start: Lba,
        size: PieceSize,
        data: &mut T,
    ) -> Result<(), Fault>
        requires commands { self.old.tally.commands < 2 }
        requires bytes { self.old.tally.bytes ≡ 0 }
        ensures outline { T.outline «data».new ≡ T.outline «data».old }
        ensures said { (b : List ℕ) → Said D.Drive.does (pieces (T.outline «data».old).asks size.blocks start.value ((T.outline «data».old).bytes / 512) 0) self.old (T.data_in «data».old b) self.new (T.data_in «data».new b) result }
        ensures commands { self.new.tally.commands ≤ self.old.tally.commands + (T.outline «data».old).bytes / 512 }
    {
        let count = data.len() / 512;
        // A piece's place is told by its first block, in the data as on the drive.
        for done in (0..count).step_by(size.blocks) {
            let piece = Piece {
                block: start.value() + done as u64,
                count: size.blocks.min(count - done),
                at: 512 * done,
            };
            data.ask(self, piece)?;
        }
        Ok(())
    }
}
