use etcd_types::Kv;
use message_text::Text;
use proxy_core::{Job, Outcome, StepFault};
use table_rows::Wrong;
use text_words::push_bytes;

/// Tells what came of an event.
pub fn tell(out: &mut String, came: &Result<Outcome, StepFault>) -> Result<(), Wrong> {
    match came {
        Ok(outcome) => tell_outcome(out, outcome),
        Err(fault) => {
            write!(out, "{fault}")?;
            Ok(())
        }
    }
}

fn tell_outcome(out: &mut String, outcome: &Outcome) -> Result<(), Wrong> {
    match outcome {
        Outcome::Replied(answer) => tell_text(out, "replied ", answer),
        Outcome::Item(message) => tell_text(out, "item ", message.item()),
        Outcome::Job(Some(job)) => tell_job(out, job),
        Outcome::Job(None) => tell_word(out, "nothing"),
        Outcome::Waiting => tell_word(out, "waiting"),
        Outcome::Pending => tell_word(out, "pending"),
        Outcome::Noted => tell_word(out, "noted"),
    }
}

fn tell_word(out: &mut String, word: &str) -> Result<(), Wrong> {
    out.push_str(word)?;
    Ok(())
}

fn tell_text<T: Text>(out: &mut String, name: &str, value: &T) -> Result<(), Wrong> {
    out.push_str(name)?;
    value.push(out)?;
    Ok(())
}

fn tell_job(out: &mut String, job: &Job) -> Result<(), Wrong> {
    match job {
        Job::Call {
            call,
            member,
            ticket,
            request,
        } => {
            write!(out, "call {call} {member} {ticket} ")?;
            request.push(out)?;
        }
        Job::Begin {
            stream,
            member,
            request,
        } => {
            write!(out, "begin {stream} {member} ")?;
            request.push(out)?;
        }
        Job::Close { stream } => write!(out, "close {stream}")?,
    }
    Ok(())
}

/// Tells the value of a record that is held, or that none is.
pub fn tell_value(out: &mut String, kv: Option<&Kv>) -> Result<(), Wrong> {
    match kv {
        None => out.push_str("none")?,
        Some(kv) => push_bytes(out, &kv.value)?,
    }
    Ok(())
}
