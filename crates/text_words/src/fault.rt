ghost use Rattle.std.specs.Prelude.{◌≡◌};
ghost use Rattle.text_words.specs.declared.fault.ReadError.TheVariants.{NoMemory as no_memory};

use etcd_types::NoMemory;
use std::alloc::{AllocError, AllocFailed};

/// Why a value could not be read from words.
#[derive(Debug, Drop)]
pub enum ReadError {
    NoMemory,
    /// So many words are left from the first one on that is wrong; 0 where a word is missing.
    Wrong(usize),
}

impl From<NoMemory> for ReadError {
    ghost from_gives = { λ _ e. e ≡ no_memory };

    fn from(_e: NoMemory) -> ReadError {
        ReadError::NoMemory
    }
}

impl From<AllocError> for ReadError {
    ghost from_gives = { λ _ e. e ≡ no_memory };

    fn from(_e: AllocError) -> ReadError {
        ReadError::NoMemory
    }
}

impl<T: Drop> From<AllocFailed<T>> for ReadError {
    ghost from_gives = { λ _ e. e ≡ no_memory };

    fn from(_e: AllocFailed<T>) -> ReadError {
        ReadError::NoMemory
    }
}
