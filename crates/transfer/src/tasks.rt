//! The task files that a translator sends.

ghost use Rattle.std.specs.Prelude.{◌≡◌, ◌≤◌};
ghost use Rattle.transfer.specs.Tasks.{by_width, limit, task, read_task, write_task, flush_task};

use ata::{AtaCommand, Feature, TaskFile};

/// How many bits of address the commands have.
#[derive(Clone, Copy)]
pub enum Width {
    Bits28,
    Bits48,
}

impl Width {
    /// Of a pair, the one for this width.
    fn of<T: Copy>(self, bits28: T, bits48: T) -> T
        ensures { result ≡ by_width self bits28 bits48 }
    {
        match self {
            Width::Bits28 => bits28,
            Width::Bits48 => bits48,
        }
    }

    /// How many blocks a command can name.
    pub(crate) fn count_limit(self) -> usize
        ensures value { result ≡ limit self }
        ensures bound { result ≤ 65536 }
        ensures some { 256 ≤ result }
    {
        self.of(256, 65536)
    }
}

/// The task file of a command, which names no feature.
pub fn task(command: AtaCommand, count: u16, block: u64) -> TaskFile
    ensures { result ≡ task command count block }
{
    TaskFile {
        command,
        feature: Feature::Absent,
        count,
        block,
    }
}

fn transfer_task(width: Width, command: AtaCommand, block: u64, count: usize) -> TaskFile
    ensures { result ≡ Rattle.transfer.specs.Tasks.transfer_task width command block count }
{
    task(command, (count % width.count_limit()) as u16, block)
}

// The two take the parts of a piece that a task file has.
pub(crate) fn read_task(width: Width, block: u64, count: usize) -> TaskFile
    ensures { result ≡ read_task width block count }
{
    let command = width.of(AtaCommand::ReadDma, AtaCommand::ReadDmaExt);
    transfer_task(width, command, block, count)
}

pub(crate) fn write_task(width: Width, through: bool, block: u64, count: usize) -> TaskFile
    ensures { result ≡ write_task width through block count }
{
    let command = if through {
        AtaCommand::WriteDmaFuaExt
    } else {
        width.of(AtaCommand::WriteDma, AtaCommand::WriteDmaExt)
    };
    transfer_task(width, command, block, count)
}

pub(crate) fn flush_task(width: Width) -> TaskFile
    ensures { result ≡ flush_task width }
{
    let command = width.of(AtaCommand::FlushCache, AtaCommand::FlushCacheExt);
    task(command, 0, 0)
}
