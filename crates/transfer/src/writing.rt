//! WRITE: blocks to the drive, in pieces.

ghost use Rattle.std.specs.Prelude.{◌≡◌, ℕ, ◌+◌, ◌*◌, ◌/◌, ◌^◌, ◌<◌, ◌≤◌, Bool, List, [], ◌∷◌, length};
ghost use Rattle.transfer.specs.Tasks.{piece};
ghost use Rattle.transfer.specs.Talk.{Held, none_yet};
ghost use Rattle.transfer.specs.Asks.{write_ask, write_asks, goes_through, is_flushed};
ghost use Rattle.transfer.specs.Said.{Said, Outline};

use crate::address::Lba;
use crate::conversation::Conversation;
use crate::counts::Tally;
use crate::faults::Fault;
use crate::pieces::{Piece, PieceSize, TransferData};
use crate::tasks::{Width, write_task};
use ata::Drive;

/// How a WRITE is to reach the medium: when the drive likes, through the cache, or by a flush after it.
#[derive(Clone, Copy)]
pub enum Force {
    Cached,
    Through,
    Flushed,
}

impl Force {
    fn goes_through(self) -> bool
        ensures { result ≡ goes_through self }
    {
        matches!(self, Force::Through)
    }

    fn is_flushed(self) -> bool
        ensures { result ≡ is_flushed self }
    {
        matches!(self, Force::Flushed)
    }
}

/// Data to the drive, by commands of one width, through the cache or into it.
#[derive(Drop)]
struct DataOut<'a> {
    width: Width,
    through: bool,
    bytes: &'a [u8],
}

impl TransferData for DataOut<'_> {
    ghost outline = { λ s. record { asks = write_ask s.width s.through s.bytes.now; bytes = length s.bytes.now; borrow = 0 } };

    ghost data_in = { λ s b. b };

    fn len(&self) -> usize {
        self.bytes.len()
    }

    fn ask<D: Drive>(&mut self, talk: &mut Conversation<D>, piece: Piece) -> Result<(), Fault> {
        let task = write_task(self.width, self.through, piece.block, piece.count);
        let part = piece.bytes();
        let answer = talk.drive.data_out(task, &self.bytes[part]);
        talk.tally.hear(answer)
    }
}

impl<D: Drive> Conversation<'_, D> {
    fn write(&mut self, width: Width, force: Force, start: Lba, data: &[u8]) -> Result<(), Fault>
        requires fresh { self.old.tally ≡ none_yet }
        ensures { (b : List ℕ) → Said D.Drive.does (write_asks width force (piece width (D.Drive.meaning self.old.drive.now).most) start.value «data».now) self.old b self.new b result }
    {
        let size = PieceSize::new(width, self.drive.most());
        let mut data_out = DataOut {
            width,
            through: force.goes_through(),
            bytes: data,
        };
        self.transfer(start, size, &mut data_out)?;
        self.flush_beside(width, force.is_flushed(), data.len() / 512)
    }
}

/// Writes the whole blocks of `data` from `start` on.
pub fn write<D: Drive>(
    drive: &mut D,
    width: Width,
    force: Force,
    start: Lba,
    data: &[u8],
) -> (Tally, Result<(), Fault>)
    ensures { (b : List ℕ) → Held D.Drive.does (write_asks width force (piece width (D.Drive.meaning drive.old).most) start.value «data».now) drive.old b none_yet drive.new b result.0 result.1 }
{
    let mut talk = Conversation::new(drive);
    let verdict = talk.write(width, force, start, data);
    (talk.tally, verdict)
}
