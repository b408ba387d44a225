ghost use Rattle.message_text.specs.Requests.{put, delete};

use crate::text::Text;
use etcd_types::{DeleteAsk, KeyRange, NoMemory, PutAsk};
use std::alloc::Global;
use text_words::{
    ReadError, Words, push_bytes, push_flag, push_flags, push_number, read_bytes, read_flag,
    read_number, read_put_flags,
};

/// `K V LEASE F`
impl Text for PutAsk {
    ghost form = { put };

    #[tactic(auto, unfolding(crate::specs::Requests::put))]
    fn read(alloc: Global, words: &mut Words) -> Result<PutAsk, ReadError> {
        let key = read_bytes(alloc, words)?;
        let value = read_bytes(alloc, words)?;
        let lease = read_number(words)?;
        let (prev_kv, ignore_lease) = read_put_flags(words)?;
        Ok(PutAsk {
            key,
            value,
            lease,
            prev_kv,
            ignore_lease,
        })
    }

    #[tactic(auto, using(text_model::proofs::TextLaws::in_turn), unfolding(crate::specs::Requests::put))]
    fn push(&self, out: &mut String) -> Result<(), NoMemory> {
        push_bytes(out, &self.key)?;
        push_bytes(out, &self.value)?;
        push_number(out, self.lease)?;
        push_flags(out, &[(b'p', self.prev_kv), (b'i', self.ignore_lease)])?;
        Ok(())
    }
}

/// `K E F`
impl Text for DeleteAsk {
    ghost form = { delete };

    #[tactic(auto, unfolding(crate::specs::Requests::delete))]
    fn read(alloc: Global, words: &mut Words) -> Result<DeleteAsk, ReadError> {
        let key = read_bytes(alloc, words)?;
        let end = read_bytes(alloc, words)?;
        let prev_kv = read_flag(words, b'p')?;
        Ok(DeleteAsk {
            range: KeyRange { key, end },
            prev_kv,
        })
    }

    #[tactic(auto, using(text_model::proofs::TextLaws::in_turn), unfolding(crate::specs::Requests::delete))]
    fn push(&self, out: &mut String) -> Result<(), NoMemory> {
        push_bytes(out, &self.range.key)?;
        push_bytes(out, &self.range.end)?;
        push_flag(out, "p", self.prev_kv)?;
        Ok(())
    }
}
