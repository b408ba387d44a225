use table_rows::Wrong;

/// A step's name and its numbers, 0 for each that isn't there.
#[derive(Clone, Copy)]
pub struct Step<'a> {
    pub name: &'a str,
    pub first: u64,
    pub second: u64,
}

/// The step that a row spells.
pub fn read_step(case: &str) -> Result<Step<'_>, Wrong> {
    let Some((name, numbers)) = case.split_once(" ") else {
        return Ok(Step {
            name: case,
            first: 0,
            second: 0,
        });
    };
    let (first, second) = match numbers.split_once(" ") {
        None => (number(numbers)?, 0),
        Some((first, second)) => (number(first)?, number(second)?),
    };
    Ok(Step {
        name,
        first,
        second,
    })
}

fn number(word: &str) -> Result<u64, Wrong> {
    match word.parse::<u64>() {
        Ok(number) => Ok(number),
        Err(_) => Err(Wrong::Word),
    }
}
