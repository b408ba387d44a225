ghost use Rattle.std.specs.Prelude.{◌≡◌, ℕ, ◌+◌, ◌-◌, ◌++◌, ◌∷◌, [], length, true, IfOk, OnOk, Ok, string_bytes};
ghost use Rattle.text_model.specs.Forms.{whole};
ghost use Rattle.text_model.specs.Texts.{words};
ghost use Rattle.text_words.specs.Reading.{Gives};
ghost use Rattle.script_text.specs.declared.line.Line.{Line};
ghost use Rattle.script_text.specs.declared.item.Item.{Item};
ghost use Rattle.script_text.specs.Faults.{Reads};
ghost use Rattle.script_text.specs.Lines.{line_form, line_text, line_at, is_line};
ghost use Rattle.script_text.specs.Items.{item_form, item_text, item_at, is_item};
ghost use Rattle.script_text.specs.Laws.{LinesAreReadBack, LinesHaveOneText, TextsOfLinesDiffer, ItemsAreReadBack, ItemsHaveOneText};
ghost use Rattle.script_text.specs.Laws.{TextsOfItemsDiffer, LinesPlaceTheFirstWrongWord, ItemsPlaceTheFirstWrongWord};

use crate::fault::LineFault;
use crate::item::Item;
use crate::line::Line;
use crate::read_items::read_item_words;
use crate::read_lines::read_line_words;
use crate::write_items::push_item;
use etcd_types::{Bytes, NoMemory};
use std::alloc::Global;
use text_words::{ReadError, Words};

/// Reads the line with this number, from 1, of a script, without its line feed.
///
/// `BadLine` says that these bytes are no line's text at this number, with the place, from 1, of the first word after
/// which no text can follow; a first line that isn't `world`, and a later one that is, are wrong at place 1.
pub fn read_line(alloc: Global, number: u64, line: &[u8]) -> Result<Line, LineFault>
    ensures found { IfOk result (λ l. (line.now ≡ line_text l) × (is_line number l ≡ true)) }
    ensures only { (l : Line) → is_line number l ≡ true → line.now ≡ line_text l → Reads number result (Ok l) }
    ensures exact { Reads number result (line_at number line.now) }
{
    placed_line(alloc, number, line)
}

/// Reads an item of a transcript, without its line feed. `BadLine` has number 0, and the place as `read_line` gives it.
pub fn read_item(alloc: Global, line: &[u8]) -> Result<Item, LineFault>
    ensures found { IfOk result (λ i. (line.now ≡ item_text i) × (is_item i ≡ true)) }
    ensures only { (i : Item) → is_item i ≡ true → line.now ≡ item_text i → Reads 0 result (Ok i) }
    ensures exact { Reads 0 result (item_at line.now) }
{
    placed_item(alloc, line)
}

/// The text of an item, without a line feed.
pub fn write_item(alloc: Global, item: &Item) -> Result<Bytes, NoMemory>
    ensures { IfOk result (λ b. b ≡ item_text item.now) }
{
    let mut out = String::new(alloc);
    append_item(&mut out, item)?;
    Ok(Bytes::from_vec(out.into_bytes()))
}

/// Appends the text of an item, without a line feed.
#[tactic(auto, unfolding(crate::specs::Items::item_text))]
pub fn append_item(out: &mut String, item: &Item) -> Result<(), NoMemory>
    ensures { OnOk result (string_bytes out.new ≡ string_bytes out.old ++ item_text item.now) }
{
    push_item(out, item)?;
    // The space behind the last word goes.
    let _space = out.pop();
    Ok(())
}

#[tactic(auto, unfolding(crate::specs::Lines::line_at))]
fn placed_line(alloc: Global, number: u64, line: &[u8]) -> Result<Line, LineFault>
    ensures { Reads number result (line_at number line.now) }
{
    match whole_line(alloc, number, line) {
        Ok(read) => Ok(read),
        Err(ReadError::NoMemory) => Err(LineFault::NoMemory),
        Err(ReadError::Wrong(left)) => Err(LineFault::BadLine {
            number,
            place: place(line, left),
        }),
    }
}

fn whole_line(alloc: Global, number: u64, line: &[u8]) -> Result<Line, ReadError>
    ensures { Gives (λ l. l) result (whole (line_form number) (words 32 line.now)) }
{
    let mut words = Words::of(b' ', line);
    let read = read_line_words(alloc, number, &mut words)?;
    words.end()?;
    Ok(read)
}

#[tactic(auto, unfolding(crate::specs::Items::item_at))]
fn placed_item(alloc: Global, line: &[u8]) -> Result<Item, LineFault>
    ensures { Reads 0 result (item_at line.now) }
{
    match whole_item(alloc, line) {
        Ok(read) => Ok(read),
        Err(ReadError::NoMemory) => Err(LineFault::NoMemory),
        Err(ReadError::Wrong(left)) => Err(LineFault::BadLine {
            number: 0,
            place: place(line, left),
        }),
    }
}

fn whole_item(alloc: Global, line: &[u8]) -> Result<Item, ReadError>
    ensures { Gives (λ i. i) result (whole item_form (words 32 line.now)) }
{
    let mut rest = Words::of(b' ', line);
    let read = read_item_words(alloc, &mut rest)?;
    rest.end()?;
    Ok(read)
}

/// The place, from 1, of the word from which so many are left.
fn place(line: &[u8], left: usize) -> u64
    ensures { result ≡ length (words 32 line.now) + 1 - left }
{
    let total = Words::of(b' ', line).len();
    (total + 1).saturating_sub(left) as u64
}

/// A law: each line has exactly one text, and is read from it.
pub fn each_line_has_one_text()
    ensures read_back { LinesAreReadBack }
    ensures one_text { LinesHaveOneText }
    ensures differ { TextsOfLinesDiffer }
{}

/// A law: a fault's place is that of the first word after which no text can follow, or one behind the last word where
/// all the words can be gone on to a text.
pub fn places_are_of_first_wrong_words()
    ensures lines { LinesPlaceTheFirstWrongWord }
    ensures items { ItemsPlaceTheFirstWrongWord }
{}

/// A law: each item has exactly one text, and is read from it.
pub fn each_item_has_one_text()
    ensures read_back { ItemsAreReadBack }
    ensures one_text { ItemsHaveOneText }
    ensures differ { TextsOfItemsDiffer }
{}
