//! The port as a drive: longer commands are aborted without the drive hearing of them, all else is the drive's.

ghost use Rattle.std.specs.Prelude.{◌≡◌, ◌<◌, ◌≤◌, ◌&&◌, nat_lt};
ghost use Rattle.ata.specs.Exchange.{Agrees};
ghost use Rattle.port.specs.Limits.{limited, brought_in, names};
ghost use Rattle.std.proofs.Common.{rules};

use crate::limit::Port;
use ata::{Answer, AtaCommand, Drive, TaskFile};
use disk::{ABORTED, blocks_named};

// How many blocks a command names.
fn blocks_moved(task: TaskFile) -> u32
    ensures { result ≡ names task.command task.count }
{
    match task.command {
        AtaCommand::ReadDma | AtaCommand::WriteDma | AtaCommand::ReadVerify => blocks_named(
            task.count, false,
        ).get(),
        AtaCommand::ReadDmaExt
        | AtaCommand::WriteDmaExt
        | AtaCommand::WriteDmaFuaExt
        | AtaCommand::ReadVerifyExt => blocks_named(task.count, true).get(),
        _ => 0,
    }
}

impl<D: Drive> Port<D> {
    /// Puts a port before a drive; its limit is brought into 1 to 65,536.
    pub fn new(inner: D, limit: u32) -> Port<D>
        ensures drive { result.inner ≡ inner }
        ensures limit { result.limit ≡ brought_in limit }
    {
        Port {
            inner,
            limit: limit.clamp(1, 65536),
        }
    }

    /// Takes the port away.
    pub fn into_inner(self) -> D
        ensures { result ≡ self.inner }
    {
        let Port { inner, limit: _ } = self;
        inner
    }

    // Whether a command is longer than the port lets through, to a drive that has power.
    fn stops(&self, task: TaskFile) -> bool
        ensures { result ≡ ((D.Drive.meaning self.now.inner).machine.lit && nat_lt self.now.limit (names task.command task.count)) }
    {
        self.inner.is_lit() && blocks_moved(task) > self.limit
    }
}

impl<D: Drive> Drive for Port<D> {
    ghost meaning = { λ p. limited p.limit (D.Drive.meaning p.inner) };

    ghost does = { λ p e q. Agrees (limited p.limit (D.Drive.meaning p.inner)) e (limited q.limit (D.Drive.meaning q.inner)) };

    ghost formed = { Prim.search rules };

    ghost agrees = { λ x e y h. h };

    fn most(&self) -> u32 {
        self.inner.most().min(self.limit)
    }

    fn is_lit(&self) -> bool {
        self.inner.is_lit()
    }

    // The four calls differ in the method of the drive behind; a closure for it would be no shorter.
    fn no_data(&mut self, task: TaskFile) -> Answer {
        if self.stops(task) {
            return ABORTED;
        }
        self.inner.no_data(task)
    }

    fn data_out(&mut self, task: TaskFile, from: &[u8]) -> Answer {
        if self.stops(task) {
            return ABORTED;
        }
        self.inner.data_out(task, from)
    }

    fn data_in(&mut self, task: TaskFile, into: &mut [u8]) -> Answer {
        if self.stops(task) {
            return ABORTED;
        }
        self.inner.data_in(task, into)
    }

    fn words_in(&mut self, task: TaskFile, into: &mut [u16]) -> Answer {
        if self.stops(task) {
            return ABORTED;
        }
        self.inner.words_in(task, into)
    }

    fn cut(&mut self, steps: u32) {
        self.inner.cut(steps)
    }

    fn back(&mut self) {
        self.inner.back()
    }
}
