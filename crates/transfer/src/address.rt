//! Logical block addresses.

ghost use Rattle.std.specs.Prelude.{◌≡◌, ◌^◌, ◌<◌, ◌≤◌, MatchOption};

/// The address of a block: 48 bits.
#[derive(Clone, Copy)]
pub struct Lba {
    value: u64,
    ghost fits: { value < 2 ^ 48 },
}

impl Lba {
    /// The address, where 48 bits hold it.
    pub fn new(value: u64) -> Option<Lba>
        ensures { MatchOption result (2 ^ 48 ≤ value) (λ a. a.value ≡ value) }
    {
        if value >= 1 << 48 {
            return None;
        }
        Some(Lba { value })
    }

    pub(crate) fn value(self) -> u64
        ensures is { result ≡ self.value }
        ensures low { result < 2 ^ 48 }
    {
        self.value
    }
}
