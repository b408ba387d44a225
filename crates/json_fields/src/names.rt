ghost use Rattle.std.specs.Prelude.{◌≡◌, ◌||◌, option_map, option_and_then, slice_get, find, position};
ghost use Rattle.std.specs.Char.{to_ascii_uppercase};
ghost use Rattle.std.specs.List.{slice_split};
ghost use Rattle.std.specs.Str.{bytes_eq};
ghost use Rattle.json_model.specs.Names.{words, camel, is_spelling, field_of, one_byte, name_at, number_named, if_named, number_in};

/// Whether the key is the name without its `_`, each letter after one raised.
pub(crate) fn is_camel(key: &[u8], name: &[u8]) -> bool
    ensures { result ≡ bytes_eq key.now (camel name.now) }
{
    let mut at = 0;
    let mut raised = false;
    for byte in name {
        if *byte == b'_' {
            raised = true;
        } else {
            let letter = if raised {
                byte.to_ascii_uppercase()
            } else {
                *byte
            };
            if at == key.len() || key[at] != letter {
                return false;
            }
            at += 1;
            raised = false;
        }
    }
    at == key.len()
}

fn is_spelling(key: &[u8], name: &[u8]) -> bool
    ensures { result ≡ is_spelling key.now name.now }
{
    key == name || is_camel(key, name)
}

/// The field that the key names, of names with a space between two of them.
pub(crate) fn field_of<'a>(key: &[u8], names: &'a [u8]) -> Option<&'a [u8]>
    ensures { option_map (λ name. name.now) result ≡ field_of key.now (words names.now) }
{
    if names.is_empty() {
        return None;
    }
    names
        .split(|b| *b == b' ')
        .find(|name| is_spelling(key, *name))
}

/// The name of an enum's number.
pub(crate) fn name_at(place: u8, table: &str) -> Option<&str>
    ensures { option_map (λ name. name.now) result ≡ name_at place table.now }
{
    if table.is_empty() {
        return None;
    }
    table.split(' ').nth(usize::from(place))
}

fn place_of(text: &[u8], table: &[u8]) -> Option<usize>
    ensures { result ≡ position (λ name. bytes_eq text.now name) (words table.now) }
{
    if table.is_empty() {
        return None;
    }
    table.split(|b| *b == b' ').position(|name| text == name)
}

/// The number of an enum's name.
pub(crate) fn number_named(text: &[u8], table: &[u8]) -> Option<u8>
    ensures { result ≡ number_named text.now table.now }
{
    match place_of(text, table) {
        Some(place) => u8::try_from(place).ok(),
        None => None,
    }
}

/// A number that has a name.
pub(crate) fn number_in(number: u64, table: &str) -> Option<u8>
    ensures { result ≡ number_in number table.now }
{
    match u8::try_from(number) {
        Ok(place) if name_at(place, table).is_some() => Some(place),
        _ => None,
    }
}
