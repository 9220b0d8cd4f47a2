//! The plain disk as a drive.

ghost use Rattle.ata.specs.Exchange.{Agrees};
ghost use Rattle.image_disk.proofs.Forms.{formed_in};
ghost use Rattle.plain.specs.Meaning.{held_of, state_of};
ghost use Rattle.plain.specs.Sound.{sound_of};

use crate::plain_disk::PlainDisk;
use ata::{Answer, Drive, TaskFile};
use image_disk::ImageDisk;

impl Drive for PlainDisk {
    ghost meaning = { state_of };

    ghost does = { λ x e y. Agrees (state_of x) e (state_of y) };

    ghost formed = { λ x. formed_in 256 (held_of x) (sound_of x) };

    ghost agrees = { λ x e y h. h };

    fn most(&self) -> u32 {
        Self::MOST
    }

    fn is_lit(&self) -> bool {
        self.power.is_lit()
    }

    // Each call is that of every disk over an image. One impl for all of them is none that a crate may write of another's trait.
    fn no_data(&mut self, task: TaskFile) -> Answer {
        image_disk::no_data(self, task)
    }

    fn data_out(&mut self, task: TaskFile, from: &[u8]) -> Answer {
        image_disk::data_out(self, task, from)
    }

    fn data_in(&mut self, task: TaskFile, into: &mut [u8]) -> Answer {
        image_disk::data_in(self, task, into)
    }

    fn words_in(&mut self, task: TaskFile, into: &mut [u16]) -> Answer {
        image_disk::words_in(self, task, into)
    }

    fn cut(&mut self, steps: u32) {
        self.power.cut(steps);
    }

    fn back(&mut self) {
        self.power.restore();
    }
}
