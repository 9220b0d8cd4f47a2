//! What a caller may hold and ask with no trait of its own at hand: a unit over any drive, a disk's counts.

use ata::Drive;
use plain::PlainDisk;
use port::Port;
use std::test::Fail;
use unit::{Reply, Unit};

/// A place for a unit, whatever it is over.
struct Holder<D> {
    unit: Unit<D>,
}

/// A bay with a port before its drive.
struct Bay<D: Drive> {
    holder: Holder<Port<D>>,
}

impl<D: Drive> Bay<D> {
    fn attach(drive: D) -> Bay<D> {
        let unit = Unit::attach(Port::new(drive, 1));
        Bay {
            holder: Holder { unit },
        }
    }

    fn commands_of(&mut self, cdb: &[u8], into: &mut [u8]) -> Option<u64> {
        match self.holder.unit.command(cdb, &[], into) {
            Ok(Reply::Good(tally)) => Some(tally.commands),
            _ => None,
        }
    }

    fn detach(self) -> D {
        let Bay {
            holder: Holder { unit },
        } = self;
        unit.detach().into_inner()
    }
}

#[test]
fn a_unit_is_held_over_a_port(rt: HostRuntime) -> Result<(), Fail> {
    let mut into = vec![in rt.alloc(); 0u8; 1536]?;
    let mut bay = Bay::attach(PlainDisk::new(vec![in rt.alloc(); 0u8; 8208]?));
    let first = bay.commands_of(&[0, 0, 0, 0, 0, 0], &mut []);
    let read = bay.commands_of(&[0x28, 0, 0, 0, 0, 2, 0, 0, 3, 0], into.as_mut_slice());
    let disk = bay.detach();
    let (blocks, errors, orders) = (disk.blocks(), disk.errors(), disk.orders());
    let _image = disk.into_image();
    assert_eq!(rt; first, None);
    assert_eq!(rt; read, Some(3));
    assert_eq!(rt; (blocks, errors, orders), (16, 0, 4));
    Ok(())
}
