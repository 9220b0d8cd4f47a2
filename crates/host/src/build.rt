//! The CDBs of commands: each is taken in as just the command that it was built for.

ghost use Rattle.std.specs.Prelude.{◌≡◌, ◌*◌, false, Ok};
ghost use Rattle.cdb.specs.declared.command.Command.TheVariants.{TestUnitReady, ReadCapacity, Read, Write};
ghost use Rattle.cdb.specs.Requests.{received, asks_for};
ghost use Rattle.host.specs.Built.{six_bytes, ten_bytes, extent_of};

// The fields are of the widths that the CDB has for them, and so not an `Extent`.
/// READ(10), WRITE(10): the code, FUA in bit 3 of byte 1, the address in bytes 2 to 5, the length in bytes 7 and 8.
fn ten_bytes(code: u8, block: u32, count: u16, fua: bool) -> [u8; 10]
    ensures { result ≡ ten_bytes code block count fua }
{
    let [a, b, c, d] = block.to_be_bytes();
    let [e, f] = count.to_be_bytes();
    let flags = if fua { 0x08 } else { 0x00 };
    [code, flags, a, b, c, d, 0, e, f, 0]
}

/// READ(10) of `count` blocks from `block` on.
pub fn read10_cdb(block: u32, count: u16, fua: bool) -> [u8; 10]
    ensures bytes { result ≡ ten_bytes 40 block count fua }
    ensures command { received result ≡ Ok (asks_for 0 (512 * count) (Ok (Read fua (extent_of block count)))) }
{
    ten_bytes(0x28, block, count, fua)
}

/// WRITE(10) of `count` blocks from `block` on.
pub fn write10_cdb(block: u32, count: u16, fua: bool) -> [u8; 10]
    ensures bytes { result ≡ ten_bytes 42 block count fua }
    ensures command { received result ≡ Ok (asks_for (512 * count) 0 (Ok (Write fua (extent_of block count)))) }
{
    ten_bytes(0x2A, block, count, fua)
}

/// TEST UNIT READY.
pub fn test_unit_ready_cdb() -> [u8; 6]
    ensures bytes { result ≡ six_bytes 0 }
    ensures command { received result ≡ Ok (asks_for 0 0 (Ok TestUnitReady)) }
{
    [0; 6]
}

/// READ CAPACITY(10).
pub fn read_capacity_cdb() -> [u8; 10]
    ensures bytes { result ≡ ten_bytes 37 0 0 false }
    ensures command { received result ≡ Ok (asks_for 0 8 (Ok ReadCapacity)) }
{
    ten_bytes(0x25, 0, 0, false)
}
