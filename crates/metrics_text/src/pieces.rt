ghost use Rattle.std.specs.Prelude.{◌≡◌, ◌≤◌, ◌++◌, ◌∷◌, [], OnOk, IfOk, drop, flat_map};
ghost use Rattle.std.specs.Fmt.{decimal};
ghost use Rattle.metrics_text.specs.Pieces as spec;

use etcd_types::NoMemory;
use std::alloc::Global;

/// Appends bytes.
pub(crate) fn push(text: &mut Vec<u8>, piece: &[u8]) -> Result<(), NoMemory>
    ensures { OnOk result (text.new.items ≡ text.old.items ++ piece.now) }
{
    text.extend_from_slice(piece)?;
    Ok(())
}

/// Appends a number in decimal.
pub(crate) fn push_number(alloc: Global, text: &mut Vec<u8>, number: u64) -> Result<(), NoMemory>
    ensures { OnOk result (text.new.items ≡ text.old.items ++ decimal number) }
{
    let digits = format!(in alloc; "{number}")?;
    text.extend_from_slice(digits.as_bytes())?;
    Ok(())
}

/// Appends what stands behind the first digit of a number.
fn push_tail(alloc: Global, text: &mut Vec<u8>, number: u64) -> Result<(), NoMemory>
    ensures { OnOk result (text.new.items ≡ text.old.items ++ drop 1 (decimal number)) }
{
    let digits = format!(in alloc; "{number}")?;
    if let [_, tail @ ..] = digits.as_bytes() {
        text.extend_from_slice(tail)?;
    }
    Ok(())
}

/// Appends so many of a unit's parts in decimal.
#[tactic(auto, unfolding(crate::specs::Pieces::fraction))]
pub(crate) fn push_fraction(
    alloc: Global,
    text: &mut Vec<u8>,
    unit: u64,
    parts: u64,
) -> Result<(), NoMemory>
    requires some { 1 ≤ unit }
    requires few { unit ≤ 1000000 }
    ensures { OnOk result (text.new.items ≡ text.old.items ++ spec.fraction unit parts) }
{
    push_number(alloc, text, parts / unit)?;
    push(text, b".")?;
    push_tail(alloc, text, unit + parts % unit)
}

#[tactic(auto, unfolding(crate::specs::Pieces::label_byte))]
fn push_label_byte(text: &mut Vec<u8>, byte: u8) -> Result<(), NoMemory>
    ensures { OnOk result (text.new.items ≡ text.old.items ++ spec.label_byte byte) }
{
    match byte {
        b'\\' => push(text, b"\\\\"),
        b'"' => push(text, b"\\\""),
        b'\n' => push(text, b"\\n"),
        _ => push(text, &[byte]),
    }
}

/// Appends the value of a label.
#[tactic(auto, unfolding(crate::specs::Pieces::label_text))]
pub(crate) fn push_label(text: &mut Vec<u8>, value: &[u8]) -> Result<(), NoMemory>
    ensures { OnOk result (text.new.items ≡ text.old.items ++ spec.label_text value.now) }
{
    for byte in value {
        push_label_byte(text, *byte)?;
    }
    Ok(())
}

#[tactic(auto, unfolding(crate::specs::Pieces::page_byte))]
fn push_page_byte(text: &mut Vec<u8>, byte: u8) -> Result<(), NoMemory>
    ensures { OnOk result (text.new.items ≡ text.old.items ++ spec.page_byte byte) }
{
    match byte {
        b'&' => push(text, b"&amp;"),
        b'<' => push(text, b"&lt;"),
        b'>' => push(text, b"&gt;"),
        _ => push(text, &[byte]),
    }
}

/// Appends bytes as a page shows them.
#[tactic(auto, unfolding(crate::specs::Pieces::shown))]
pub(crate) fn push_shown(text: &mut Vec<u8>, bytes: &[u8]) -> Result<(), NoMemory>
    ensures { OnOk result (text.new.items ≡ text.old.items ++ spec.shown bytes.now) }
{
    for byte in bytes {
        push_page_byte(text, *byte)?;
    }
    Ok(())
}
