//! Of answers and messages of watches.
ghost use Rattle.std.specs.Prelude.{◌≡◌, Ok};
ghost use Rattle.etcd_types.specs.declared.request.Request.{Request};
ghost use Rattle.etcd_types.specs.declared.answer.Answer.{Answer};
ghost use Rattle.etcd_types.specs.declared.watch.WatchItem.{WatchItem};
ghost use Rattle.json_model.specs.Answers.{answer_of};
ghost use Rattle.json_model.specs.WatchItems.{item_of};
ghost use Rattle.json_model.specs.WrittenReplies.{answer_status, answer_text, item_text};
ghost use Rattle.json_model.specs.FitReplies.{AnswerFits, ItemFits};

/// A law: the status and the text of an answer are read, as the answer to its request, as the same answer, and the line of a
/// message of a watch as the same message, for values that fit. `AnswerFits` says that a reply is of its request's kind, that
/// numbers are in the API's ranges and bytes are bytes, that within a transaction stand ranges, puts, deletes and
/// transactions alone, that a refusal has a code above 0 and a text in UTF-8, and that the text nests no deeper than JSON may.
/// `ItemFits` says the same of a message's numbers and bytes; its text nests no deeper than that anyway.
pub fn what_is_written_is_read_back()
    ensures answers { (request : Request) (answer : Answer) → AnswerFits request answer → answer_of request (answer_status answer) (answer_text answer) ≡ Ok answer }
    ensures items { (item : WatchItem) → ItemFits item → item_of (item_text item) ≡ Ok item }
{}
