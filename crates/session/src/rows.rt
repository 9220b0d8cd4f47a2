//! Data in hexadecimal.

use std::fmt;

/// Bytes, 16 to a line, each line below the one before.
#[derive(Clone, Copy)]
pub struct Rows<'a>(pub &'a [u8]);

impl fmt::Display for Rows<'_> {
    fn fmt<W: fmt::Write>(&self, f: &mut fmt::Formatter<W>) -> fmt::Result {
        for row in self.0.chunks(16) {
            f.write_str("\n   ")?;
            for &byte in row {
                write!(f, " {byte:02X}")?;
            }
        }
        Ok(())
    }
}
