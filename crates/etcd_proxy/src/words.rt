ghost use Rattle.std.specs.Prelude.{◌≡◌, IfSome, option_map};
ghost use Rattle.etcd_proxy.specs.Start.{options_of};
ghost use Rattle.etcd_proxy.specs.Store.{address_of};
ghost use Rattle.etcd_proxy.specs.Words.{command_of, named, named_more, named_with, IsInRange};

use start_words::is_address;
use text_words::number_of;

/// The greatest number that a script is generated from.
const MOST: u64 = 20_000;

/// What the words of the command line ask for.
#[derive(Clone, Copy, Debug, PartialEq, Eq)]
pub(crate) enum Command {
    Replay,
    /// The script of this number, from 1 to 20,000, is generated and replayed.
    Generate(u64),
    /// A transcript is audited.
    Audit,
    /// A transcript is audited, and a refused line is explained.
    Explain,
    Help,
    Version,
}

/// Why the words of the command line can't be had.
#[derive(Clone, Copy, Debug, PartialEq, Eq)]
pub(crate) enum NoWords {
    /// One of them isn't UTF-8.
    NotText,
    NoMemory,
}

/// What these words ask for, or nothing where they are none of the forms.
pub(crate) fn command_of(words: &[String]) -> Option<Command>
    ensures command { result ≡ command_of words.now }
    ensures range { IfSome result IsInRange }
{
    match words {
        [word] => named(word.as_str()),
        [name, option] => named_more(name.as_str(), option.as_str()),
        [name, option, value] => named_with(name.as_str(), option.as_str(), value.as_str()),
        _ => None,
    }
}

fn named_more(name: &str, option: &str) -> Option<Command>
    ensures command { result ≡ named_more name.now option.now }
    ensures range { IfSome result IsInRange }
{
    if name == "audit" && option == "--explain" {
        Some(Command::Explain)
    } else {
        None
    }
}

fn named_with(name: &str, option: &str, value: &str) -> Option<Command>
    ensures command { result ≡ named_with name.now option.now value.now }
    ensures range { IfSome result IsInRange }
{
    if name == "replay" && option == "--generate" {
        match number_of(value.as_bytes(), 1, MOST) {
            Some(number) => Some(Command::Generate(number)),
            None => None,
        }
    } else {
        None
    }
}

fn named(word: &str) -> Option<Command>
    ensures command { result ≡ named word.now }
    ensures range { IfSome result IsInRange }
{
    if word == "replay" {
        Some(Command::Replay)
    } else if word == "audit" {
        Some(Command::Audit)
    } else if word == "--help" {
        Some(Command::Help)
    } else if word == "--version" {
        Some(Command::Version)
    } else {
        None
    }
}

/// The options behind `grpc-proxy start`, where the words begin so.
pub(crate) fn options_of(words: &[String]) -> Option<&[String]>
    ensures { option_map (λ options. options.now) result ≡ options_of words.now }
{
    match words {
        [program, command, options @ ..]
            if program.as_str() == "grpc-proxy" && command.as_str() == "start" => { Some(options) }
        _ => None,
    }
}

/// The address behind `store`, where the words are these two and it is `host:port`.
pub(crate) fn address_of(words: &[String]) -> Option<&[u8]>
    ensures { option_map (λ address. address.now) result ≡ address_of words.now }
{
    match words {
        [command, address] if command.as_str() == "store" && is_address(address.as_bytes()) => {
            Some(address.as_bytes())
        }
        _ => None,
    }
}
