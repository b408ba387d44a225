use etcd_types::NoMemory;
use std::alloc::{AllocError, AllocFailed};
use std::io;
use text_words::ReadError;
use thiserror::Error;

/// Why the table can't be tried.
#[derive(Debug, Drop, Error)]
pub enum Wrong {
    #[error("a word is missing or wrong")]
    Word,
    #[error("no memory")]
    NoMemory,
    #[error("input or output failed")]
    Failed,
}

impl From<NoMemory> for Wrong {
    fn from(_e: NoMemory) -> Wrong {
        Wrong::NoMemory
    }
}

impl From<AllocError> for Wrong {
    fn from(_e: AllocError) -> Wrong {
        Wrong::NoMemory
    }
}

impl<T: Drop> From<AllocFailed<T>> for Wrong {
    fn from(_e: AllocFailed<T>) -> Wrong {
        Wrong::NoMemory
    }
}

impl From<ReadError> for Wrong {
    fn from(e: ReadError) -> Wrong {
        match e {
            ReadError::NoMemory => Wrong::NoMemory,
            ReadError::Wrong(_) => Wrong::Word,
        }
    }
}

impl From<io::Error> for Wrong {
    fn from(_e: io::Error) -> Wrong {
        Wrong::Failed
    }
}
