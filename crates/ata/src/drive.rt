//! The interface that every kind of drive stands behind.

ghost use Rattle.std.specs.Prelude.{◌≡◌, []};
ghost use Rattle.ata.specs.Commands.{State, Formed, nothing, sends, fetches, fetches_words, cut_by, returned};
ghost use Rattle.ata.specs.Exchange.{Exchange, exchange, Agrees};
ghost use Rattle.ata.specs.declared.task.TaskFile.{TaskFile};
ghost use Rattle.ata.specs.declared.task.AtaCommand.TheVariants.{IdentifyDevice};
ghost use Rattle.ata.specs.declared.task.Feature.TheVariants.{Absent};

use crate::answer::Answer;
use crate::task::TaskFile;

/// A drive by its meaning. `does` says which exchanges are the drive's own doing, so that code over
/// any drive can show which commands it sent; each agrees with the meaning.
pub trait Drive {
    ghost meaning: { Self → State };

    ghost does: { Self → Exchange → Self → Type 0 };

    /// The most blocks that one command may move.
    fn most(&self) -> u32
        ensures { result ≡ (meaning self.now).most };

    fn is_lit(&self) -> bool
        ensures { result ≡ (meaning self.now).machine.lit };

    /// A command with no data.
    fn no_data(&mut self, task: TaskFile) -> Answer
        ensures { does self.old (exchange task nothing [] result) self.new };

    /// A command with data to the drive.
    fn data_out(&mut self, task: TaskFile, from: &[u8]) -> Answer
        ensures { does self.old (exchange task (sends from.now) [] result) self.new };

    /// A command with data from the drive.
    fn data_in(&mut self, task: TaskFile, into: &mut [u8]) -> Answer
        ensures { does self.old (exchange task (fetches into.old) into.new result) self.new };

    /// A command with words from the drive.
    fn words_in(&mut self, task: TaskFile, into: &mut [u16]) -> Answer
        ensures { does self.old (exchange task (fetches_words into.old) into.new result) self.new };

    /// Lets power fail after `steps` more steps.
    fn cut(&mut self, steps: u32)
        ensures { meaning self.new ≡ cut_by steps (meaning self.old) };

    /// Brings power back.
    fn back(&mut self)
        ensures { meaning self.new ≡ returned (meaning self.old) };

    ghost formed: { (x : Self) → Formed (meaning x) };

    ghost agrees: { (x : Self) (e : Exchange) (y : Self) → does x e y → Agrees (meaning x) e (meaning y) };
}
