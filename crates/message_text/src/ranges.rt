ghost use Rattle.std.specs.Prelude.{◌≡◌};
ghost use Rattle.text_words.specs.Reading.{Gives};

use etcd_types::{KeyRange, RangeAsk, Sort};
use std::alloc::Global;
use text_words::{ReadError, Words, read_bytes, read_number, read_range_flags};

/// A range request without its sort.
#[derive(Drop)]
pub(crate) struct PlainRange {
    pub range: KeyRange,
    pub revision: u64,
    pub limit: u64,
    pub serializable: bool,
    pub keys_only: bool,
    pub count_only: bool,
}

pub(crate) const UNSORTED: Sort = Sort {
    order: 0,
    target: 0,
    min_mod: 0,
    max_mod: 0,
    min_create: 0,
    max_create: 0,
};

impl PlainRange {
    ghost use Rattle.message_text.specs.Requests.{range, sorted};

    /// Reads `K E R L F`.
    #[tactic(auto, unfolding(crate::specs::Requests::range))]
    pub(crate) fn read(alloc: Global, words: &mut Words) -> Result<PlainRange, ReadError>
        ensures { Gives (λ p. (p, words.new)) result (range.read words.old) }
    {
        let key = read_bytes(alloc, words)?;
        let end = read_bytes(alloc, words)?;
        let revision = read_number(words)?;
        let limit = read_number(words)?;
        let flags = read_range_flags(words)?;
        Ok(PlainRange {
            range: KeyRange { key, end },
            revision,
            limit,
            serializable: flags.serializable,
            keys_only: flags.keys_only,
            count_only: flags.count_only,
        })
    }

    pub(crate) fn sorted(self, sort: Sort) -> RangeAsk
        ensures { result ≡ sorted self sort }
    {
        RangeAsk {
            range: self.range,
            revision: self.revision,
            limit: self.limit,
            serializable: self.serializable,
            keys_only: self.keys_only,
            count_only: self.count_only,
            sort,
        }
    }
}
