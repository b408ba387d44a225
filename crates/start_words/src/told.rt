ghost use Rattle.std.specs.Prelude.{◌≡◌, ◌++◌, ◌∷◌, IfOk, OnOk, flat_map};
ghost use Rattle.start_words.specs.Texts as spec;

use crate::settings::StartSettings;
use crate::wrong::Wrong;
use etcd_types::{Bytes, NoMemory};
use std::alloc::Global;

/// The line that names a value that isn't of its form, and says why.
pub fn wrong_line(alloc: Global, wrong: &Wrong) -> Result<Vec<u8>, NoMemory>
    ensures { IfOk result (λ line. line.items ≡ spec.wrong_text wrong.now) }
{
    let option = format!(in alloc; "{} ", wrong.option)?;
    let cause = format!(in alloc; ": {}\n", wrong.cause)?;
    let mut line = option.into_bytes();
    line.extend_from_slice(wrong.word.as_slice())?;
    line.extend_from_slice(cause.as_bytes())?;
    Ok(line)
}

/// Further hosts, with a comma before each.
fn push_others(text: &mut Vec<u8>, hosts: &[Bytes]) -> Result<(), NoMemory>
    ensures { OnOk result (text.new.items ≡ text.old.items ++ flat_map (λ other. 44 ∷ other) hosts.now) }
{
    for host in hosts {
        text.push(b',')?;
        text.extend_from_slice(host.as_slice())?;
    }
    Ok(())
}

/// Hosts, with a comma between two of them.
fn push_hosts(text: &mut Vec<u8>, hosts: &[Bytes]) -> Result<(), NoMemory>
    ensures { OnOk result (text.new.items ≡ text.old.items ++ spec.hosts_text hosts.now) }
{
    if let [first, rest @ ..] = hosts {
        text.extend_from_slice(first.as_slice())?;
        push_others(text, rest)?;
    }
    Ok(())
}

/// The line that says what is served where.
pub fn serving_line(alloc: Global, settings: &StartSettings) -> Result<Vec<u8>, NoMemory>
    ensures { IfOk result (λ line. line.items ≡ spec.serving_text settings.now.listen settings.now.endpoints) }
{
    let mut line = Vec::from_slice(alloc, b"serving ")?;
    line.extend_from_slice(settings.listen.as_slice())?;
    line.extend_from_slice(b" for ")?;
    push_hosts(&mut line, settings.endpoints.as_slice())?;
    line.push(b'\n')?;
    Ok(line)
}
