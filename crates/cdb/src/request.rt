//! A CDB taken in: what it needs of the buffers, and the command that it names.

ghost use Rattle.std.specs.Prelude.{◌≡◌, ℕ, ◌+◌, ◌*◌, ◌<◌, ◌≤◌, length};
ghost use Rattle.cdb.specs.declared.operation.Operation.TheVariants.{TestUnitReady as TestOp, ReadCapacity as CapacityOp};
ghost use Rattle.cdb.specs.Requests.{asks_for, judged_field, requested, read_request, write_request, received};

use crate::command::Command;
use crate::form::{CdbForm, NACA, Six, Ten, Transfer};
use crate::operation::{Operation, length_fits};
use sense::{Refusal, Sense};

/// PMI, in byte 8 of READ CAPACITY.
const PMI: u8 = 0x01;

/// The bytes that a command needs of data-out and of data-in, and the command, or what is wrong with it.
#[derive(Clone, Copy)]
pub struct Request {
    pub out: usize,
    pub into: usize,
    pub command: Result<Command, Sense>,
}

impl Request {
    // What needs nothing of the buffers.
    fn of(command: Result<Command, Sense>) -> Request
        ensures { result ≡ asks_for 0 0 command }
    {
        Request {
            out: 0,
            into: 0,
            command,
        }
    }
}

fn judged(wrong: bool, command: Command) -> Result<Command, Sense>
    ensures { result ≡ judged_field wrong command }
{
    if wrong {
        Err(Sense::WrongField)
    } else {
        Ok(command)
    }
}

fn test_request(cdb: &Six) -> Request
    ensures { result ≡ requested TestOp cdb.now }
{
    let [.., control] = *cdb;
    Request::of(judged(control & NACA != 0, Command::TestUnitReady))
}

fn capacity_request(cdb: &Ten) -> Request
    ensures { result ≡ requested CapacityOp cdb.now }
{
    let naca = cdb.control() & NACA != 0;
    let partial = cdb[8] & PMI != 0;
    let addressed = cdb.extent().block != 0;
    Request {
        into: 8,
        ..Request::of(judged(naca | (partial | addressed), Command::ReadCapacity))
    }
}

// READ and WRITE differ in the direction and the case alone: a function of both would take either by a closure.
fn read_request(transfer: Transfer) -> Request
    ensures { result ≡ read_request transfer }
{
    let Transfer { extent, fua, wrong } = transfer;
    Request {
        into: transfer.bytes(),
        ..Request::of(judged(wrong, Command::Read { fua, extent }))
    }
}

fn write_request(transfer: Transfer) -> Request
    ensures { result ≡ write_request transfer }
{
    let Transfer { extent, fua, wrong } = transfer;
    Request {
        out: transfer.bytes(),
        ..Request::of(judged(wrong, Command::Write { fua, extent }))
    }
}

/// Takes a CDB in, or refuses it where its length does not fit its code.
pub fn receive(cdb: &[u8]) -> Result<Request, Refusal>
    ensures { result ≡ received cdb.now }
{
    let [code, ..] = cdb else {
        return Err(Refusal::CdbLength);
    };
    if !length_fits(*code, cdb.len()) {
        return Err(Refusal::CdbLength);
    }
    Ok(match Operation::from(*code) {
        Operation::TestUnitReady => test_request(cdb.as_array().unwrap()),
        Operation::ReadCapacity => capacity_request(cdb.as_array().unwrap()),
        Operation::Read => read_request(Transfer::of::<Ten>(cdb.as_array().unwrap())),
        Operation::Write => write_request(Transfer::of::<Ten>(cdb.as_array().unwrap())),
        Operation::Unknown => Request::of(Err(Sense::UnknownCode)),
    })
}
