//! A unit on a plain disk of 16 blocks, of which two cannot be read.

use plain::PlainDisk;
use sense::{Refusal, SenseValues};
use std::process::Abort;
use std::test::Fail;
use transfer::{Fault, Tally};
use unit::{Reply, Unit};

/// What a call came to, in numbers that are easy to compare: the key and the code of its sense where it was not GOOD.
#[derive(Clone, Copy, PartialEq, Eq, Debug)]
struct Told {
    sense: Option<(u8, u8)>,
    block: Option<u64>,
    bytes: usize,
    commands: u64,
}

impl From<Reply<Fault>> for Told {
    fn from(reply: Reply<Fault>) -> Told {
        match reply {
            Reply::Good(Tally { bytes, commands }) => Told {
                sense: None,
                block: None,
                bytes,
                commands,
            },
            Reply::Check(fault, Tally { bytes, commands }) => {
                let values = SenseValues::from(fault.sense);
                Told {
                    sense: Some((values.key, values.code)),
                    block: fault.block,
                    bytes,
                    commands,
                }
            }
        }
    }
}

/// Runs one CDB on a fresh unit over a disk of 16 blocks with blocks 3 and 5 unreadable, its attention over.
fn on_sixteen(rt: &(impl Abort + AllocGlobal), cdb: &[u8]) -> Result<Result<Told, Refusal>, Fail> {
    let mut image = vec![in rt.alloc(); 0u8; 8208]?;
    assert!(rt; image.len() == 8208);
    image[1539] = 1;
    image[2565] = 1;
    let mut into = vec![in rt.alloc(); 0u8; 8192]?;
    let out = vec![in rt.alloc(); 7u8; 8192]?;
    let mut unit = Unit::attach(PlainDisk::new(image));
    let _ = unit.command(&[0, 0, 0, 0, 0, 0], &[], &mut []);
    let answer = unit.command(cdb, out.as_slice(), into.as_mut_slice());
    let _image = unit.detach().into_image();
    Ok(answer.map(Told::from))
}

fn good(bytes: usize, commands: u64) -> Result<Told, Refusal> {
    Ok(Told {
        sense: None,
        block: None,
        bytes,
        commands,
    })
}

fn stopped(key: u8, code: u8) -> Result<Told, Refusal> {
    Ok(Told {
        sense: Some((key, code)),
        block: None,
        bytes: 0,
        commands: 0,
    })
}

#[test]
fn addresses(rt: HostRuntime) -> Result<(), Fail> {
    assert_eq!(rt;
        on_sixteen(&rt, &[0x28, 0, 0, 0, 0, 15, 0, 0, 1, 0])?,
        good(512, 1)
    );
    assert_eq!(rt;
        on_sixteen(&rt, &[0x28, 0, 0, 0, 0, 15, 0, 0, 2, 0])?,
        stopped(5, 0x21)
    );
    assert_eq!(rt;
        on_sixteen(&rt, &[0x28, 0, 0, 0, 0, 16, 0, 0, 0, 0])?,
        stopped(5, 0x21)
    );
    assert_eq!(rt;
        on_sixteen(&rt, &[0x28, 0, 255, 255, 255, 255, 0, 0, 2, 0])?,
        stopped(5, 0x21)
    );
    Ok(())
}

#[test]
fn unreadable_block_is_named(rt: HostRuntime) -> Result<(), Fail> {
    let third = Told {
        sense: Some((3, 0x11)),
        block: Some(3),
        bytes: 512,
        commands: 1,
    };
    assert_eq!(rt;
        on_sixteen(&rt, &[0x28, 0, 0, 0, 0, 2, 0, 0, 5, 0])?,
        Ok(third)
    );
    assert_eq!(rt;
        on_sixteen(&rt, &[0x2A, 0x08, 0, 0, 0, 3, 0, 0, 1, 0])?,
        good(0, 2)
    );
    Ok(())
}

#[test]
fn refusals(rt: HostRuntime) -> Result<(), Fail> {
    assert_eq!(rt; on_sixteen(&rt, &[])?, Err(Refusal::CdbLength));
    assert_eq!(rt;
        on_sixteen(&rt, &[0x28, 0, 0, 0, 0, 0])?,
        Err(Refusal::CdbLength)
    );
    assert_eq!(rt;
        on_sixteen(&rt, &[0x28, 0, 0, 0, 0, 0, 0, 0, 17, 0])?,
        Err(Refusal::DataInShort)
    );
    assert_eq!(rt;
        on_sixteen(&rt, &[0x2A, 0, 0, 0, 0, 0, 0, 0, 17, 0])?,
        Err(Refusal::DataOutShort)
    );
    Ok(())
}
