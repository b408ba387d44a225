ghost use Rattle.std.specs.Prelude.{◌≡◌, IsSome, Some, true};
ghost use Rattle.std.specs.Option.{option_copied};
ghost use Rattle.world_model.specs.declared.sent_call.SentCall.{SentCall as Sent};
ghost use Rattle.world_model.specs.Places.{nth, with_nth};

use etcd_types::Answer;
use world_model::SentCall;

/// Of what is numbered from 1, the one of this number.
pub fn nth<T>(items: &[T], number: u64) -> Option<&T>
    ensures { option_copied result ≡ nth items.now number }
{
    if number == 0 {
        None
    } else {
        items.get(number as usize - 1)
    }
}

/// The call was executed, with this answer.
pub fn mark_executed(calls: &mut Vec<SentCall>, number: u64, answer: Answer)
    requires { IsSome (nth calls.old.items number) }
    ensures { (call : Sent) → nth calls.old.items number ≡ Some call
        → calls.new.items ≡ with_nth calls.old.items number (record call { executed = Some answer }) }
{
    calls[number as usize - 1].executed = Some(answer);
}

/// The call was answered or lost.
pub fn mark_settled(calls: &mut Vec<SentCall>, number: u64)
    requires { IsSome (nth calls.old.items number) }
    ensures { (call : Sent) → nth calls.old.items number ≡ Some call
        → calls.new.items ≡ with_nth calls.old.items number (record call { settled = true }) }
{
    calls[number as usize - 1].settled = true;
}
