//! The words of a command.
ghost use Rattle.std.specs.Prelude.{◌≡◌, map};
ghost use Rattle.std.specs.String.{string_bytes};
ghost use Rattle.std.specs.List.{list_all};
ghost use Rattle.std.specs.Char.{is_ascii_digit};
ghost use Rattle.fxfs.specs.Command.{IsCommandOf, command_of, is_count, mkfs_of, mkfs_with, shell_of};

use fx_super::{MAX_RING, MIN_RING};
use std::str;
use thiserror::Error;

/// The most digits of a number among the words.
pub const MOST_DIGITS: usize = 20;

/// What the words of a command ask for.
#[derive(Clone, Copy, Debug, PartialEq, Eq)]
pub enum Command {
    /// `shell`: the lines of a script, one after another.
    Shell,
    /// `mkfs`: a formatted disk, with a ring of this many blocks, 256 to 1,024.
    Mkfs(u32),
}

/// Why words were not read as a command.
#[derive(Clone, Copy, Debug, PartialEq, Eq, Error)]
pub enum WordsFault {
    /// They are no command.
    #[error("no such command")]
    BadWords,
}

/// The command that the words are: `shell` alone, or `mkfs`, with `--journal N` or `--journal=N`
/// once or not at all. N has 1 to 20 digits; a ring has [`MIN_RING`] blocks where the words do not
/// say. Takes no memory.
pub fn command_of(words: &[String]) -> Result<Command, WordsFault>
    ensures { IsCommandOf result (map string_bytes words.now) }
{
    match find_command(words) {
        Some(command) => Ok(command),
        None => Err(WordsFault::BadWords),
    }
}

/// The command that the words are, if they are one.
fn find_command(words: &[String]) -> Option<Command>
    ensures { result ≡ command_of (map string_bytes words.now) }
{
    let Some((word, options)) = words.split_first() else {
        return None;
    };
    if word.as_str() == "shell" {
        return shell_of(options);
    }
    if word.as_str() == "mkfs" {
        return mkfs_of(options);
    }
    None
}

/// The command whose words after `shell` are these.
fn shell_of(options: &[String]) -> Option<Command>
    ensures { result ≡ shell_of (map string_bytes options.now) }
{
    match options {
        [] => Some(Command::Shell),
        _ => None,
    }
}

/// The command whose words after `mkfs` are these.
fn mkfs_of(options: &[String]) -> Option<Command>
    ensures { result ≡ mkfs_of (map string_bytes options.now) }
{
    match options {
        [] => Some(Command::Mkfs(MIN_RING)),
        [option] => {
            let number = option.as_bytes().strip_prefix(b"--journal=".as_slice())?;
            mkfs_with(number)
        }
        [option, number] if option.as_str() == "--journal" => mkfs_with(number.as_bytes()),
        _ => None,
    }
}

/// The command `mkfs` with a ring of this many blocks, if there may be so many.
fn mkfs_with(number: &[u8]) -> Option<Command>
    ensures { result ≡ mkfs_with number.now }
{
    if !is_count(number) {
        return None;
    }
    let Ok(digits) = str::from_utf8(number) else {
        return None;
    };
    match digits.parse::<u32>() {
        Ok(ring) if MIN_RING <= ring && ring <= MAX_RING => Some(Command::Mkfs(ring)),
        _ => None,
    }
}

/// Whether each byte is a digit.
fn are_digits(word: &[u8]) -> bool
    ensures { result ≡ list_all is_ascii_digit word.now }
{
    word.iter().all(|b| b.is_ascii_digit())
}

/// Whether the word has 1 to 20 digits and nothing else.
fn is_count(word: &[u8]) -> bool
    ensures { result ≡ is_count word.now }
{
    !word.is_empty() && word.len() <= MOST_DIGITS && are_digits(word)
}
