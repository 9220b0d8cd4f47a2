//! A WRITE of 5 blocks on a caching disk, with power cut at every step of it.

use ata::{Answer, AtaCommand, Drive, Feature, TaskFile};
use caching::CachingDisk;
use host::caching_image;

/// The cells of a block's medium and of its face; in each, the content stands after one byte.
const PAIR: usize = 1026;

const MEDIUM: usize = 1;

const FACE: usize = 514;

fn task(command: AtaCommand, count: u16) -> TaskFile {
    TaskFile {
        command,
        feature: Feature::Absent,
        count,
        block: 0,
    }
}

// The byte at `at` of each block's pair of cells.
fn show_cells(rt: &HostRuntime, image: &[u8], at: usize) -> anyhow::Result<()> {
    for pair in image.chunks(PAIR) {
        let byte = pair.get(at).copied().unwrap_or(0);
        print!(rt; " {byte:02X}")?;
    }
    Ok(())
}

// Blocks 0 to 4 hold 11h on medium and face; then 22h is written, with power for so many steps.
fn cut_write(rt: &HostRuntime, command: AtaCommand, steps: u32) -> anyhow::Result<()> {
    let heap = rt.alloc();
    let mut disk = CachingDisk::new(caching_image(heap, 6, &[])?, true, true);
    let old = vec![in heap; 0x11u8; 2560]?;
    let new = vec![in heap; 0x22u8; 2560]?;
    let _ = disk.data_out(task(AtaCommand::WriteDmaFuaExt, 5), old.as_slice());
    disk.cut(steps);
    let Answer {
        status,
        error,
        block,
    } = disk.data_out(task(command, 5), new.as_slice());
    disk.back();
    let image = disk.into_image();
    print!(rt; "    {steps} steps: {status:02X}h {error:02X}h {block}, medium")?;
    show_cells(rt, image.as_slice(), MEDIUM)?;
    print!(rt; ", face")?;
    show_cells(rt, image.as_slice(), FACE)?;
    println!(rt; "")?;
    Ok(())
}

const WRITES: [(&str, AtaCommand); 2] = [
    (
        "caching disk, 5 blocks written over, through the cache, and looked at after the return of power",
        AtaCommand::WriteDmaFuaExt,
    ),
    ("the same into the cache", AtaCommand::WriteDmaExt),
];

pub fn cut_writes(rt: &HostRuntime) -> anyhow::Result<()> {
    for (title, command) in WRITES {
        println!(rt; "{title}")?;
        for steps in 0..6 {
            cut_write(rt, command, steps)?;
        }
    }
    Ok(())
}
