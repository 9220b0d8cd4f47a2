//! Why a line makes no sense.

use std::alloc::{AllocError, AllocFailed};
use std::num::{ParseIntError, TryFromIntError};
use thiserror::Error;

#[derive(Clone, Copy, PartialEq, Eq, Debug, Error)]
pub enum Wrong {
    #[error("no such act")]
    Act,
    #[error("no such kind of disk")]
    Kind,
    #[error("a number is missing")]
    Missing,
    #[error("no number, or too large for its field")]
    Number,
    #[error("no byte of two hexadecimal digits")]
    Byte,
    #[error("a word that the act does not take")]
    Word,
    #[error("an unreadable block past the end of the disk")]
    PastEnd,
    #[error("no memory is left")]
    Memory,
}

impl From<AllocError> for Wrong {
    fn from(_e: AllocError) -> Wrong {
        Wrong::Memory
    }
}

impl<T: Drop> From<AllocFailed<T>> for Wrong {
    fn from(_e: AllocFailed<T>) -> Wrong {
        Wrong::Memory
    }
}

impl From<ParseIntError> for Wrong {
    fn from(_e: ParseIntError) -> Wrong {
        Wrong::Number
    }
}

impl From<TryFromIntError> for Wrong {
    fn from(_e: TryFromIntError) -> Wrong {
        Wrong::Number
    }
}
