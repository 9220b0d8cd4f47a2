//! What a command came to, in words.

use sense::{Refusal, SenseValues};
use std::fmt;
use transfer::Fault;
use unit::Reply;

/// A number with its word, which takes an s but at one.
#[derive(Clone, Copy)]
pub struct Number(pub u64, pub &'static str);

impl fmt::Display for Number {
    fn fmt<W: fmt::Write>(&self, f: &mut fmt::Formatter<W>) -> fmt::Result {
        let Number(n, word) = *self;
        let s = if n == 1 { "" } else { "s" };
        write!(f, "{n} {word}{s}")
    }
}

#[derive(Clone, Copy)]
struct Block(Option<u64>);

impl fmt::Display for Block {
    fn fmt<W: fmt::Write>(&self, f: &mut fmt::Formatter<W>) -> fmt::Result {
        match self.0 {
            Some(block) => write!(f, "block {block}"),
            None => f.write_str("no block"),
        }
    }
}

#[derive(Clone, Copy)]
struct Found(Fault);

impl fmt::Display for Found {
    fn fmt<W: fmt::Write>(&self, f: &mut fmt::Formatter<W>) -> fmt::Result {
        let Fault {
            sense,
            block,
            place,
        } = self.0;
        let SenseValues {
            key,
            code,
            qualifier,
        } = sense.into();
        let block = Block(block);
        write!(
            f,
            "{key:X} {code:02X}h {qualifier:02X}h {sense}, {block}, at {place}"
        )
    }
}

/// The answer to a command.
#[derive(Clone, Copy)]
pub struct Shown(pub Result<Reply<Fault>, Refusal>);

impl fmt::Display for Shown {
    fn fmt<W: fmt::Write>(&self, f: &mut fmt::Formatter<W>) -> fmt::Result {
        let tally = match self.0 {
            Ok(Reply::Good(tally)) => {
                f.write_str("GOOD")?;
                tally
            }
            Ok(Reply::Check(fault, tally)) => {
                let found = Found(fault);
                write!(f, "CHECK CONDITION {found}")?;
                tally
            }
            Err(refusal) => {
                let number = u8::from(refusal);
                return write!(f, "refused {number} ({refusal})");
            }
        };
        let bytes = Number(tally.bytes as u64, "byte");
        let commands = Number(tally.commands, "ATA command");
        write!(f, ", {bytes}, {commands}")
    }
}
