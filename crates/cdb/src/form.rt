//! The forms of a CDB, which have the same fields in other places.

ghost use Rattle.std.specs.Prelude.{◌≡◌, ℕ, ◌+◌, ◌-◌, ◌*◌, List};
ghost use Rattle.cdb.specs.Fields.{Extent as Range, byte, word_at, pair_at, ten_extent};
ghost use Rattle.cdb.specs.Transfers.{transfer_by};

use crate::command::Extent;

/// The bytes of a block.
const BLOCK: usize = 512;

/// NACA, in the last byte.
pub(crate) const NACA: u8 = 0x04;

/// The protection field, in byte 1.
const PROTECTION: u8 = 0xE0;

/// FUA, in byte 1.
const FUA: u8 = 0x08;

/// A form: how long it is, and where its address and its length stand.
pub(crate) trait CdbForm {
    const LENGTH: usize;

    ghost LENGTH: { ℕ };

    ghost bytes: { Self → List ℕ };

    ghost range: { List ℕ → Range };

    /// Byte 1, with the protection field and FUA.
    fn flags(&self) -> u8
        ensures { result ≡ byte (bytes self.now) 1 };

    /// The last byte, with NACA.
    fn control(&self) -> u8
        ensures { result ≡ byte (bytes self.now) (LENGTH - 1) };

    /// The blocks that READ or WRITE is of.
    fn extent(&self) -> Extent
        ensures { result ≡ range (bytes self.now) };
}

/// Six bytes. No command that moves blocks has this form yet.
pub(crate) type Six = [u8; 6];

/// Ten bytes: the address in bytes 2 to 5, the length in bytes 7 and 8.
pub(crate) type Ten = [u8; 10];

impl CdbForm for Ten {
    const LENGTH: usize = 10;

    ghost LENGTH = { 10 };

    ghost bytes = { λ cdb. cdb };

    ghost range = { ten_extent };

    fn flags(&self) -> u8 {
        self[1]
    }

    fn control(&self) -> u8 {
        self[Self::LENGTH - 1]
    }

    fn extent(&self) -> Extent {
        let [_, _, a, b, c, d, _, e, f, _] = *self;
        Extent {
            block: u64::from(u32::from_be_bytes([a, b, c, d])),
            count: u32::from(u16::from_be_bytes([e, f])),
        }
    }
}

/// What READ and WRITE have in common: the range, FUA, and whether a field is wrong.
///
/// That is a flag and no error in their place: the range says what is needed of the buffers where a field is wrong too.
#[derive(Clone, Copy)]
pub(crate) struct Transfer {
    pub(crate) extent: Extent,
    pub(crate) fua: bool,
    pub(crate) wrong: bool,
}

impl Transfer {
    pub(crate) fn of<F: CdbForm>(cdb: &F) -> Transfer
        ensures { result ≡ transfer_by F.LENGTH F.range (F.bytes cdb.now) }
    {
        let flags = cdb.flags();
        let naca = cdb.control() & NACA != 0;
        let protected = flags & PROTECTION != 0;
        Transfer {
            extent: cdb.extent(),
            fua: flags & FUA != 0,
            wrong: naca | protected,
        }
    }

    /// The bytes that the blocks hold.
    pub(crate) fn bytes(&self) -> usize
        ensures { result ≡ 512 * self.now.extent.count }
    {
        BLOCK * self.extent.count as usize
    }
}
