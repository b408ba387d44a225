ghost use Rattle.std.specs.Prelude.{◌≡◌, unwrap_or};
ghost use Rattle.json_model.specs.WrittenReplies.{item_text};

use etcd_types::{Bytes, WatchItem};

/// A message that many have, with its text where it was written.
#[derive(Drop)]
pub(crate) struct Message {
    pub(crate) item: WatchItem,
    pub(crate) text: Option<Bytes>,
    ghost written: { unwrap_or text (item_text item) ≡ item_text item },
}
