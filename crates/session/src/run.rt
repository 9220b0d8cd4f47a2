//! A whole session: what it prints on, what it has come to, and the acts between units.

ghost use Rattle.std.specs.Prelude.{◌≡◌, ◌+◌, ◌≤◌, false, length};
ghost use Rattle.session.specs.Counting.{more};

use crate::bay::Disk;
use crate::counts::Counts;
use acts::{Act, DiskPlan, Line, Misfit};

/// What a session prints on, what it has come to, whether a unit is in the bay, and the disk that is not.
#[derive(Drop)]
pub struct Session<'a> {
    pub rt: &'a HostRuntime,
    pub counts: Counts,
    pub attached: bool,
    hand: Option<AtHand>,
}

/// A disk at hand, whether it is still to be in the bay, and the limit of the port before it.
// A flag: a disk that was in the bay differs in nothing else.
#[derive(Drop)]
struct AtHand {
    disk: Disk,
    fresh: bool,
    port: Option<u32>,
}

impl<'a> Session<'a> {
    pub fn new(rt: &'a HostRuntime) -> Session<'a>
        ensures counts { result.counts ≡ record { acts = 0; good = 0; check = 0; refused = 0; commands = 0 } }
        ensures attached { result.attached ≡ false }
    {
        Session {
            rt,
            counts: Counts::default(),
            attached: false,
            hand: None,
        }
    }
}

impl Session<'_> {
    /// Prints an act, and counts it.
    pub fn announce(&mut self, line: &Line) -> anyhow::Result<()>
        ensures acts { self.new.counts.acts ≡ more self.old.counts.acts 1 }
    {
        self.counts.acts = self.counts.acts.saturating_add(1);
        println!(self.rt; "{line}")?;
        Ok(())
    }

    /// Prints what the session came to.
    pub fn sum_up(&self) -> anyhow::Result<()> {
        let counts = self.counts;
        let end = if self.attached {
            "; the unit that was still attached is detached"
        } else {
            ""
        };
        println!(self.rt; "{counts}{end}")?;
        Ok(())
    }

    // Makes a disk. One that was in the bay before gives way to it.
    fn make_disk(&mut self, line: &Line, plan: &DiskPlan) -> anyhow::Result<()>
        ensures counts { self.new.counts ≡ self.old.counts }
    {
        if let Some(AtHand { fresh: true, .. }) = &self.hand {
            return Err(line.misfit(Misfit::SecondDisk).into());
        }
        let disk = Disk::make(self.rt.alloc(), plan)?;
        println!(self.rt; "    {disk}")?;
        self.hand = Some(AtHand {
            disk,
            fresh: true,
            port: None,
        });
        Ok(())
    }

    // Puts a port before the disk, in the place of one that was there.
    fn put_port(&mut self, line: &Line, limit: u32) -> anyhow::Result<()>
        ensures counts { self.new.counts ≡ self.old.counts }
    {
        match &mut self.hand {
            None => return Err(line.misfit(Misfit::NoDisk).into()),
            Some(hand) => hand.port = Some(limit),
        }
        println!(self.rt; "    a port before the disk")?;
        Ok(())
    }

    // Puts the disk into the bay for the acts.
    fn attach(&mut self, line: &Line, acts: &[Line]) -> anyhow::Result<()>
        ensures taken { self.new.counts.acts ≤ self.old.counts.acts + length acts.now }
    {
        let Some(
            AtHand {
                disk,
                fresh: _,
                port,
            },
        ) = self.hand.take()
        else {
            return Err(line.misfit(Misfit::NoDisk).into());
        };
        println!(self.rt; "    attached, 1 ATA command")?;
        let (disk, ended) = disk.serve(self, port, acts);
        ended?;
        println!(self.rt; "    {disk}")?;
        self.hand = Some(AtHand {
            disk,
            fresh: false,
            port,
        });
        Ok(())
    }

    // Carries out acts that end at their first detachment, so that a unit takes all those after its attachment.
    fn run_part(&mut self, acts: &[Line]) -> anyhow::Result<()>
        ensures taken { self.new.counts.acts ≤ self.old.counts.acts + length acts.now }
    {
        for (at, line) in acts.iter().enumerate() {
            self.announce(line)?;
            match &line.act {
                Act::Disk(plan) => self.make_disk(line, plan)?,
                Act::Port(limit) => self.put_port(line, *limit)?,
                Act::Attach => return self.attach(line, &acts[at + 1..]),
                Act::Detach | Act::Call(_) => return Err(line.misfit(Misfit::NotAttached).into()),
            }
        }
        Ok(())
    }

    /// Carries out the acts.
    pub fn run(&mut self, lines: &[Line]) -> anyhow::Result<()>
        ensures taken { self.new.counts.acts ≤ self.old.counts.acts + length lines.now }
    {
        for part in lines.split_inclusive(|line| matches!(line.act, Act::Detach)) {
            self.run_part(part)?;
        }
        Ok(())
    }
}
