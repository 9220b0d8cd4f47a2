//! READ: blocks from the drive, in pieces.

ghost use Rattle.std.specs.Prelude.{◌≡◌, ℕ, ◌+◌, ◌*◌, ◌/◌, ◌^◌, ◌<◌, ◌≤◌, List, [], ◌∷◌, length};
ghost use Rattle.transfer.specs.Tasks.{piece};
ghost use Rattle.transfer.specs.Talk.{Held, none_yet};
ghost use Rattle.transfer.specs.Asks.{read_ask, read_gains, read_asks};
ghost use Rattle.transfer.specs.Said.{Said, Outline};

use crate::address::Lba;
use crate::conversation::Conversation;
use crate::counts::Tally;
use crate::faults::Fault;
use crate::pieces::{Piece, PieceSize, TransferData};
use crate::tasks::{Width, read_task};
use ata::Drive;

/// Data from the drive, by commands of one width.
#[derive(Drop)]
struct DataIn<'a> {
    width: Width,
    bytes: &'a mut [u8],
}

impl TransferData for DataIn<'_> {
    ghost outline = { λ s. record { asks = read_ask s.width; bytes = length s.bytes.now; borrow = s.bytes.ghost_name } };

    ghost data_in = { λ s b. s.bytes.now };

    fn len(&self) -> usize {
        self.bytes.len()
    }

    fn ask<D: Drive>(&mut self, talk: &mut Conversation<D>, piece: Piece) -> Result<(), Fault> {
        let task = read_task(self.width, piece.block, piece.count);
        let part = piece.bytes();
        let answer = talk.drive.data_in(task, &mut self.bytes[part]);
        let verdict = talk.tally.hear(answer);
        talk.tally.bytes += gained(piece, &verdict);
        verdict
    }
}

// The bytes of data-in that a piece of a read stands for: all, or those before the block that its fault names.
fn gained(piece: Piece, verdict: &Result<(), Fault>) -> usize
    ensures is { result ≡ read_gains piece.block piece.count verdict.now }
    ensures few { result ≤ 512 * piece.count }
{
    match verdict {
        Ok(()) => 512 * piece.count,
        Err(fault) => match fault.block {
            None => 0,
            Some(at) => 512 * piece.count.min(at.saturating_sub(piece.block) as usize),
        },
    }
}

impl<D: Drive> Conversation<'_, D> {
    fn read(&mut self, width: Width, fua: bool, start: Lba, data: &mut [u8]) -> Result<(), Fault>
        requires fresh { self.old.tally ≡ none_yet }
        ensures { Said D.Drive.does (read_asks width fua (piece width (D.Drive.meaning self.old.drive.now).most) start.value (length «data».old / 512)) self.old «data».old self.new «data».new result }
    {
        let size = PieceSize::new(width, self.drive.most());
        self.flush_beside(width, fua, data.len() / 512)?;
        let mut data_in = DataIn { width, bytes: data };
        self.transfer(start, size, &mut data_in)
    }
}

/// Reads as many blocks from `start` on as `data` holds whole; with FUA, after a flush.
pub fn read<D: Drive>(
    drive: &mut D,
    width: Width,
    fua: bool,
    start: Lba,
    data: &mut [u8],
) -> (Tally, Result<(), Fault>)
    ensures { Held D.Drive.does (read_asks width fua (piece width (D.Drive.meaning drive.old).most) start.value (length «data».old / 512)) drive.old «data».old none_yet drive.new «data».new result.0 result.1 }
{
    let mut talk = Conversation::new(drive);
    let verdict = talk.read(width, fua, start, data);
    (talk.tally, verdict)
}
