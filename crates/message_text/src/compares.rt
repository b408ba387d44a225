ghost use Rattle.std.specs.Prelude.{◌≡◌, ◌++◌, ◌∷◌, [], OnOk, string_bytes};
ghost use Rattle.text_model.specs.Forms.{one_of};
ghost use Rattle.text_model.specs.Texts.{written};
ghost use Rattle.text_words.specs.Reading.{Gives};
ghost use Rattle.message_text.specs.Requests.{target_word, targets, target as target_form, relation_word, relations, relation as relation_form, operand, compare};

use crate::text::Text;
use etcd_types::{Bytes, Compare, KeyRange, NoMemory, Relation, Target};
use std::alloc::Global;
use text_words::{
    ReadError, Words, is_word, push_bytes, push_number, push_word, read_bytes, read_number,
};

/// `TARGET RELATION K E X`
impl Text for Compare {
    ghost form = { compare };

    #[tactic(auto, unfolding(crate::specs::Requests::compare))]
    fn read(alloc: Global, words: &mut Words) -> Result<Compare, ReadError> {
        let target = read_target(words)?;
        let relation = read_relation(words)?;
        let key = read_bytes(alloc, words)?;
        let end = read_bytes(alloc, words)?;
        let (number, value) = read_operand(alloc, words, target)?;
        Ok(Compare {
            range: KeyRange { key, end },
            target,
            relation,
            number,
            value,
        })
    }

    #[tactic(auto, using(text_model::proofs::TextLaws::in_turn), unfolding(crate::specs::Requests::compare))]
    fn push(&self, out: &mut String) -> Result<(), NoMemory> {
        push_word(out, target_name(self.target))?;
        push_word(out, relation_name(self.relation))?;
        push_bytes(out, &self.range.key)?;
        push_bytes(out, &self.range.end)?;
        push_operand(out, self.target, self.number, &self.value)?;
        Ok(())
    }
}

/// The operand of a compare with this target: bytes for a value, and else a number. The other operand is empty or 0.
fn read_operand(alloc: Global, words: &mut Words, target: Target) -> Result<(u64, Bytes), ReadError>
    ensures { Gives (λ x. (x, words.new)) result ((operand target).read words.old) }
{
    match target {
        Target::Value => Ok((0, read_bytes(alloc, words)?)),
        Target::Version | Target::Create | Target::Modified | Target::Lease => {
            Ok((read_number(words)?, Bytes::new(alloc)))
        }
    }
}

fn push_operand(
    out: &mut String,
    target: Target,
    number: u64,
    value: &Bytes,
) -> Result<(), NoMemory>
    ensures { OnOk result (string_bytes out.new ≡ string_bytes out.old ++ written 32 ((operand target).spell (number, value.now))) }
{
    match target {
        Target::Value => push_bytes(out, value)?,
        Target::Version | Target::Create | Target::Modified | Target::Lease => push_number(
            out, number,
        )?,
    }
    Ok(())
}

fn read_target(words: &mut Words) -> Result<Target, ReadError>
    ensures { Gives (λ t. (t, words.new)) result (target_form.read words.old) }
{
    let word = words.take()?;
    match target_of(word) {
        None => Err(words.wrong()),
        Some(target) => Ok(target),
    }
}

fn target_of(word: &[u8]) -> Option<Target>
    ensures { result ≡ one_of target_word targets word.now }
{
    if is_word(word, "version") {
        Some(Target::Version)
    } else if is_word(word, "create") {
        Some(Target::Create)
    } else if is_word(word, "mod") {
        Some(Target::Modified)
    } else if is_word(word, "value") {
        Some(Target::Value)
    } else if is_word(word, "lease") {
        Some(Target::Lease)
    } else {
        None
    }
}

fn target_name(target: Target) -> &'static str
    ensures { result.now ≡ target_word target }
{
    match target {
        Target::Version => "version",
        Target::Create => "create",
        Target::Modified => "mod",
        Target::Value => "value",
        Target::Lease => "lease",
    }
}

fn read_relation(words: &mut Words) -> Result<Relation, ReadError>
    ensures { Gives (λ r. (r, words.new)) result (relation_form.read words.old) }
{
    let word = words.take()?;
    match relation_of(word) {
        None => Err(words.wrong()),
        Some(relation) => Ok(relation),
    }
}

fn relation_of(word: &[u8]) -> Option<Relation>
    ensures { result ≡ one_of relation_word relations word.now }
{
    if is_word(word, "eq") {
        Some(Relation::Equal)
    } else if is_word(word, "gt") {
        Some(Relation::Greater)
    } else if is_word(word, "lt") {
        Some(Relation::Less)
    } else if is_word(word, "ne") {
        Some(Relation::NotEqual)
    } else {
        None
    }
}

fn relation_name(relation: Relation) -> &'static str
    ensures { result.now ≡ relation_word relation }
{
    match relation {
        Relation::Equal => "eq",
        Relation::Greater => "gt",
        Relation::Less => "lt",
        Relation::NotEqual => "ne",
    }
}
