//! The unit that hands out slips: an inner unit over a drive, and the running number of its slips.

ghost use Rattle.std.specs.Prelude.{◌≡◌, ℕ};
ghost use Rattle.unit.specs.Attached.{Identified};
ghost use Rattle.unit.specs.Commanded.{Commanded, Truthful};
ghost use Rattle.slips.specs.Slips.{line_of, next_number, inner_reply, Numbered};

use crate::slips::Slip;
use ata::Drive;
use sense::Refusal;
use transfer::Fault;
use unit::{Reply, Unit as Inner};

/// A unit over a drive, which it holds until it is detached; `issued` is the number of its last slip.
pub struct Unit<D> {
    inner: Inner<D>,
    issued: u64,
}

impl<D: Drive> Unit<D> {
    /// Takes a drive, and asks it what it is. A new unit has an attention to report, and has handed out no slip.
    pub fn attach(drive: D) -> Unit<D>
        ensures sent { Identified D.Drive.does drive result.inner.drive result.inner.phase }
        ensures remembers { Truthful D.Drive.meaning result.inner }
        ensures numbered { result.issued ≡ 0 }
    {
        Unit {
            inner: Inner::attach(drive),
            issued: 0,
        }
    }

    // The next slip; numbers stay at their top.
    fn hand_out(&mut self, code: u8, fault: Fault) -> Slip
        ensures slip { line_of result ≡ record { number = next_number self.old.issued; code = code; fault = fault } }
        ensures issued { self.new.issued ≡ next_number self.old.issued }
        ensures kept { self.new.inner ≡ self.old.inner }
    {
        self.issued = self.issued.saturating_add(1);
        Slip::new(self.issued, code, fault)
    }

    /// Carries out a command, or refuses it by number and changes nothing.
    pub fn command(
        &mut self,
        cdb: &[u8],
        out: &[u8],
        into: &mut [u8],
    ) -> Result<Reply<Slip>, Refusal>
        ensures commanded { Commanded D.Drive.does D.Drive.meaning self.old.inner cdb.now out.now into.old self.new.inner into.new (inner_reply result) }
        ensures numbered { Numbered self.old.issued cdb.now result self.new.issued }
    {
        let code = cdb.first().copied().unwrap_or(0);
        // With a method that maps the fault by a closure, what the closure did to the number stayed open.
        match self.inner.command(cdb, out, into)? {
            Reply::Good(tally) => Ok(Reply::Good(tally)),
            Reply::Check(fault, tally) => Ok(Reply::Check(self.hand_out(code, fault), tally)),
        }
    }

    /// Gives the drive back, and ends the unit.
    pub fn detach(self) -> D
        ensures { result ≡ self.inner.drive }
    {
        let Unit { inner, issued: _ } = self;
        inner.detach()
    }
}
