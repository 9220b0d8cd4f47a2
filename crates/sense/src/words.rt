//! The sense cases and the refusals in words, for whoever prints them.

use crate::case::Sense;
use crate::refusal::Refusal;
use std::error::Error;
use std::fmt;

impl fmt::Display for Sense {
    fn fmt<W: fmt::Write>(&self, f: &mut fmt::Formatter<W>) -> fmt::Result {
        f.write_str(match self {
            Sense::NoSense => "no sense",
            Sense::NoAnswer => "no answer",
            Sense::DeviceFault => "device fault",
            Sense::InterfaceCrc => "interface CRC error",
            Sense::Unreadable => "unreadable",
            Sense::NotFound => "not found",
            Sense::Aborted => "aborted",
            Sense::Attention => "attention",
            Sense::UnknownCode => "unknown code",
            Sense::WrongField => "wrong field",
            Sense::PastEnd => "past the end",
        })
    }
}

impl fmt::Display for Refusal {
    fn fmt<W: fmt::Write>(&self, f: &mut fmt::Formatter<W>) -> fmt::Result {
        f.write_str(match self {
            Refusal::CdbLength => "wrong CDB length",
            Refusal::DataOutShort => "data-out too short",
            Refusal::DataInShort => "data-in too short",
            Refusal::SheetFull => "sheet full",
            Refusal::SenseBufferShort => "sense buffer too short",
        })
    }
}

impl Error for Refusal {}
