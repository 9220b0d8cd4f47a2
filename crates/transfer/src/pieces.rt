//! The pieces of a transfer, and the data that they move.

ghost use Rattle.std.specs.Prelude.{◌≡◌, ℕ, ◌+◌, ◌*◌, ◌^◌, ◌<◌, ◌≤◌, List, [], ◌∷◌};
ghost use Rattle.transfer.specs.Tasks.{piece};
ghost use Rattle.transfer.specs.Said.{Said, Outline};

use crate::conversation::Conversation;
use crate::faults::Fault;
use crate::tasks::Width;
use ata::Drive;
use std::ops::Range;

/// A piece: its first block, how many blocks it has, and where they stand in the data.
#[derive(Clone, Copy)]
pub(crate) struct Piece {
    pub block: u64,
    pub count: usize,
    pub at: usize,
    ghost fits: { at + 512 * count < 2 ^ 64 },
}

impl Piece {
    pub(crate) fn bytes(self) -> Range<usize>
        ensures start { result.start ≡ self.at }
        ensures end { result.end ≡ self.at + 512 * self.count }
    {
        self.at..self.at + 512 * self.count
    }
}

/// How many blocks go in a piece: at least one.
#[derive(Clone, Copy)]
pub(crate) struct PieceSize {
    pub blocks: usize,
    ghost some: { 0 < blocks },
}

impl PieceSize {
    /// What a command of this width can name, and a drive that takes `most`.
    pub(crate) fn new(width: Width, most: u32) -> PieceSize
        ensures { result.blocks ≡ piece width most }
    {
        PieceSize {
            blocks: (most.max(1) as usize).min(width.count_limit()),
        }
    }
}

/// The data of a transfer, which go one way or the other.
pub(crate) trait TransferData {
    /// What stays from the first piece to the last.
    ghost outline: { Self → Outline };

    /// Data-in as it stands, where b is what stands without these data.
    ghost data_in: { Self → List ℕ → List ℕ };

    fn len(&self) -> usize
        ensures { result ≡ (outline self.now).bytes };

    /// Moves one piece.
    fn ask<D: Drive>(&mut self, talk: &mut Conversation<D>, piece: Piece) -> Result<(), Fault>
        requires within { piece.at + 512 * piece.count ≤ (outline self.old).bytes }
        requires commands { talk.old.tally.commands + 1 < 2 ^ 64 }
        requires bytes { talk.old.tally.bytes + 512 * piece.count < 2 ^ 64 }
        ensures outline { outline self.new ≡ outline self.old }
        ensures said { (b : List ℕ) → Said D.Drive.does ((outline self.old).asks piece.block piece.count piece.at ∷ []) talk.old (data_in self.old b) talk.new (data_in self.new b) result }
        ensures commands { talk.new.tally.commands ≡ talk.old.tally.commands + 1 }
        ensures bytes { talk.new.tally.bytes ≤ talk.old.tally.bytes + 512 * piece.count };
}
