ghost use Rattle.start_words.specs.Start as spec;

use crate::address::is_address;
use crate::fault::{Cause, StartOption};
use crate::values::wrong;
use crate::wrong::ValueFault;
use etcd_types::Bytes;
use std::alloc::Global;

/// The address on which figures are shown, or nothing.
pub(crate) fn metrics_of(alloc: Global, word: &[u8]) -> Result<Bytes, ValueFault>
    ensures { spec.Gives result (spec.metrics_of word.now) }
{
    if word.is_empty() || is_address(word) {
        Ok(Bytes::from_slice(alloc, word)?)
    } else {
        Err(wrong(alloc, StartOption::MetricsAddr, word, Cause::NotAnAddress))
    }
}
