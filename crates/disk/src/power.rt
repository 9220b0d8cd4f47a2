//! The power that a disk has, and what it counts.

ghost use Rattle.std.specs.Prelude.{◌≡◌, if◌then◌else◌, Ok, Err};
ghost use Rattle.ata.specs.declared.answer.Stop.TheVariants.{Cut};
ghost use Rattle.disk.specs.Powers.{full, lasts, lit_of, spent, order_counted, error_counted, cut_after, restored};

use ata::Stop;

/// How long power lasts: for ever, for so many steps, or it is gone and the disk is dark.
#[derive(Clone, Copy)]
pub enum Supply {
    Lasting,
    Steps(u32),
    Gone,
}

/// The power of a disk, the unreadable blocks that it met, and the commands that it took.
#[derive(Clone, Copy)]
pub struct Power {
    pub supply: Supply,
    pub errors: u32,
    pub orders: u64,
}

impl Power {
    /// Power that lasts, before any command.
    pub fn new() -> Power
        ensures { result ≡ full }
    {
        Power {
            supply: Supply::Lasting,
            errors: 0,
            orders: 0,
        }
    }

    pub fn is_lit(&self) -> bool
        ensures { result ≡ lit_of self.now.supply }
    {
        !matches!(self.supply, Supply::Gone)
    }

    /// Takes one step's power, where there is any.
    pub fn tick(&mut self) -> Result<(), Stop>
        ensures had { result ≡ (if lasts self.old.supply then Ok tt else Err Cut) }
        ensures after { self.new ≡ spent self.old }
    {
        match self.supply {
            Supply::Lasting => Ok(()),
            Supply::Steps(0) | Supply::Gone => {
                self.supply = Supply::Gone;
                Err(Stop::Cut)
            }
            Supply::Steps(n) => {
                self.supply = Supply::Steps(n - 1);
                Ok(())
            }
        }
    }

    /// Counts a command.
    pub fn count_order(&mut self)
        ensures { self.new ≡ order_counted self.old }
    {
        self.orders = self.orders.saturating_add(1);
    }

    /// Counts an unreadable block that was met.
    pub fn count_error(&mut self)
        ensures { self.new ≡ error_counted self.old }
    {
        self.errors = self.errors.saturating_add(1);
    }

    /// Lets power fail after `steps` more steps.
    pub fn cut(&mut self, steps: u32)
        ensures { self.new ≡ cut_after steps self.old }
    {
        if self.is_lit() {
            self.supply = Supply::Steps(steps);
        }
    }

    /// Brings power back to a dark disk.
    pub fn restore(&mut self)
        ensures { self.new ≡ restored self.old }
    {
        if !self.is_lit() {
            self.supply = Supply::Lasting;
        }
    }
}
