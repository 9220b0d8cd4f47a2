//! Every command, lit and dark, with short and long buffers.

use ata::{Answer, AtaCommand, Drive, Feature, TaskFile};
use std::alloc::{AllocError, Global};

const COMMANDS: [AtaCommand; 14] = [
    AtaCommand::IdentifyDevice,
    AtaCommand::ReadDma,
    AtaCommand::ReadDmaExt,
    AtaCommand::WriteDma,
    AtaCommand::WriteDmaExt,
    AtaCommand::WriteDmaFuaExt,
    AtaCommand::ReadVerify,
    AtaCommand::ReadVerifyExt,
    AtaCommand::FlushCache,
    AtaCommand::FlushCacheExt,
    AtaCommand::SetFeatures,
    AtaCommand::StandbyImmediate,
    AtaCommand::CheckPowerMode,
    AtaCommand::Unlisted,
];

/// The lengths of the buffers: for two blocks, and one byte or word less.
#[derive(Clone, Copy)]
struct Lengths {
    bytes: usize,
    words: usize,
}

const LONG: Lengths = Lengths {
    bytes: 1024,
    words: 256,
};

const SHORT: Lengths = Lengths {
    bytes: 1023,
    words: 255,
};

/// A buffer for each kind of call with data.
#[derive(Drop)]
struct Buffers {
    out: Vec<u8>,
    into: Vec<u8>,
    words: Vec<u16>,
}

impl Buffers {
    fn new(heap: Global, lengths: Lengths) -> Result<Buffers, AllocError> {
        Ok(Buffers {
            out: vec![in heap; 0x5Au8; lengths.bytes]?,
            into: vec![in heap; 0u8; lengths.bytes]?,
            words: vec![in heap; 0u16; lengths.words]?,
        })
    }

    // One command by the kind of call that is its own.
    fn send<D: Drive>(&mut self, drive: &mut D, task: TaskFile) -> Answer {
        match task.command {
            AtaCommand::IdentifyDevice => drive.words_in(task, self.words.as_mut_slice()),
            AtaCommand::ReadDma | AtaCommand::ReadDmaExt => drive.data_in(
                task,
                self.into.as_mut_slice(),
            ),
            AtaCommand::WriteDma | AtaCommand::WriteDmaExt | AtaCommand::WriteDmaFuaExt =>
                drive.data_out(task, self.out.as_slice()),
            _ => drive.no_data(task),
        }
    }
}

// Two blocks from `block` on, by each command.
fn show<D: Drive>(
    rt: &HostRuntime,
    drive: &mut D,
    block: u64,
    lengths: Lengths,
) -> anyhow::Result<()> {
    let mut buffers = Buffers::new(rt.alloc(), lengths)?;
    for command in COMMANDS {
        let task = TaskFile {
            command,
            feature: Feature::EnableWriteCache,
            count: 2,
            block,
        };
        let Answer {
            status,
            error,
            block,
        } = buffers.send(drive, task);
        let code = command as u8;
        println!(rt; "    {code:02X}h: {status:02X}h {error:02X}h {block}")?;
    }
    Ok(())
}

pub fn show_all<D: Drive>(rt: &HostRuntime, drive: &mut D) -> anyhow::Result<()> {
    println!(rt; "  blocks 5 and 6, long buffers")?;
    show(rt, drive, 5, LONG)?;
    println!(rt; "  blocks 0 and 1, short buffers")?;
    show(rt, drive, 0, SHORT)?;
    println!(rt; "  blocks 7 and 8, long buffers")?;
    show(rt, drive, 7, LONG)?;
    drive.cut(0);
    println!(rt; "  power fails at the next step, blocks 5 and 6, long buffers")?;
    show(rt, drive, 5, LONG)?;
    drive.back();
    let lit = drive.is_lit();
    println!(rt; "  power is back: {lit}")?;
    show(rt, drive, 5, LONG)
}
