//! The words after an act's name.

ghost use Rattle.std.specs.Prelude.{◌≡◌};

use crate::numbers::{byte, number};
use acts::{Call, Wrong};
use std::alloc::Global;
use std::str::SplitWhitespace;

/// The words of a line that are still to be read, and the heap for what they say.
#[derive(Drop)]
pub(crate) struct Words<'a> {
    pub heap: Global,
    pub rest: SplitWhitespace<'a>,
}

impl<'a> Words<'a> {
    /// The next word, which the act must have.
    pub fn needed(&mut self) -> Result<&'a str, Wrong> {
        self.rest.next().ok_or(Wrong::Missing)
    }

    /// Nothing more.
    pub fn none_left(mut self) -> Result<(), Wrong> {
        match self.rest.next() {
            Some(_) => Err(Wrong::Word),
            None => Ok(()),
        }
    }

    /// What is left, each word one that the call takes.
    pub fn extras<F: Fn(Extra) -> bool>(self, takes: F) -> Result<Extras, Wrong>
        requires { F.IsAlwaysCallable takes }
    {
        let mut extras = Extras::default();
        for word in self.rest {
            let extra = extra_of(word)?;
            if !takes(extra) {
                return Err(Wrong::Word);
            }
            extras.add(extra);
        }
        Ok(extras)
    }
}

/// What a call may say after its numbers: `fua`, or a name with a value.
#[derive(Clone, Copy)]
pub(crate) enum Extra {
    Fua,
    In(usize),
    Out(usize),
    Fill(u8),
    Show(usize),
}

pub(crate) fn extra_of(word: &str) -> Result<Extra, Wrong> {
    if word == "fua" {
        return Ok(Extra::Fua);
    }
    let Some((name, value)) = word.split_once('=') else {
        return Err(Wrong::Word);
    };
    match name {
        "in" => Ok(Extra::In(number(value)? as usize)),
        "out" => Ok(Extra::Out(number(value)? as usize)),
        "fill" => Ok(Extra::Fill(byte(value)?)),
        "show" => Ok(Extra::Show(number(value)? as usize)),
        _ => Err(Wrong::Word),
    }
}

/// All that a call says after its numbers. What it does not say is 0.
#[derive(Clone, Copy, Default)]
pub(crate) struct Extras {
    pub fua: bool,
    pub into: usize,
    pub out: usize,
    pub fill: u8,
    pub show: usize,
}

impl Extras {
    pub fn add(&mut self, extra: Extra) {
        match extra {
            Extra::Fua => self.fua = true,
            Extra::In(n) => self.into = n,
            Extra::Out(n) => self.out = n,
            Extra::Fill(b) => self.fill = b,
            Extra::Show(n) => self.show = n,
        }
    }

    /// The call of a CDB that was made with `fua`.
    pub fn call(self, cdb: Vec<u8>) -> Call
        ensures { result ≡ record { cdb = cdb; out = self.out; fill = self.fill; into = self.into; show = self.show } }
    {
        Call {
            cdb,
            out: self.out,
            fill: self.fill,
            into: self.into,
            show: self.show,
        }
    }
}
