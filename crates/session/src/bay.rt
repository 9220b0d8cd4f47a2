//! The disks that can be put into the bay.

ghost use Rattle.std.specs.Prelude.{◌+◌, ◌≤◌, length};

use crate::run::Session;
use crate::shown::Number;
use acts::{DiskKind, DiskPlan, Line};
use ata::Drive;
use caching::CachingDisk;
use host::{caching_image, plain_image};
use plain::PlainDisk;
use port::Port;
use std::alloc::{AllocError, Global};
use std::fmt;

/// A disk of any kind.
#[derive(Drop)]
pub enum Disk {
    Plain(PlainDisk),
    Caching(CachingDisk),
}

impl Disk {
    pub fn make(heap: Global, plan: &DiskPlan) -> Result<Disk, AllocError> {
        let blocks = plan.blocks;
        let bad = plan.bad.as_slice();
        match plan.kind {
            DiskKind::Plain => {
                let image = plain_image(heap, blocks, bad)?;
                Ok(Disk::Plain(PlainDisk::new(image)))
            }
            DiskKind::Caching { cache, through } => {
                let image = caching_image(heap, blocks, bad)?;
                Ok(Disk::Caching(CachingDisk::new(image, cache, through)))
            }
        }
    }

    /// Puts the disk into the bay for the acts, behind a port where there is one.
    pub fn serve(
        self,
        session: &mut Session<'_>,
        port: Option<u32>,
        acts: &[Line],
    ) -> (Disk, anyhow::Result<()>)
        ensures taken { session.new.counts.acts ≤ session.old.counts.acts + length acts.now }
    {
        // The unit is over another type in each arm.
        match self {
            Disk::Plain(disk) => {
                let (disk, ended) = behind(disk, session, port, acts);
                (Disk::Plain(disk), ended)
            }
            Disk::Caching(disk) => {
                let (disk, ended) = behind(disk, session, port, acts);
                (Disk::Caching(disk), ended)
            }
        }
    }
}

// A drive, behind a port where there is one.
fn behind<D: Drive>(
    drive: D,
    session: &mut Session<'_>,
    port: Option<u32>,
    acts: &[Line],
) -> (D, anyhow::Result<()>)
    ensures taken { session.new.counts.acts ≤ session.old.counts.acts + length acts.now }
{
    match port {
        None => session.run_unit(drive, acts),
        Some(limit) => {
            let (drive, ended) = session.run_unit(Port::new(drive, limit), acts);
            (drive.into_inner(), ended)
        }
    }
}

impl fmt::Display for Disk {
    fn fmt<W: fmt::Write>(&self, f: &mut fmt::Formatter<W>) -> fmt::Result {
        // What is asked of a disk stands once for each kind, and the words once for all.
        let (kind, blocks, errors, orders) = match self {
            Disk::Plain(disk) => ("plain", disk.blocks(), disk.errors(), disk.orders()),
            Disk::Caching(disk) => ("caching", disk.blocks(), disk.errors(), disk.orders()),
        };
        let blocks = Number(blocks, "block");
        let errors = Number(u64::from(errors), "error");
        let orders = Number(orders, "ATA command");
        write!(f, "{kind} disk, {blocks}, {errors}, {orders} taken")
    }
}
