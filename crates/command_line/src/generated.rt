//! `gen N`: how many processes the generated program has that the words ask for.
ghost use Rattle.std.specs.Prelude.{◌≡◌, ◌≤◌, IfSome};
ghost use Rattle.command_line.specs.Generated.{generated_of, processes_of, processes_with};
ghost use Rattle.command_line.specs.Given.{held};
ghost use Rattle.command_line.specs.Words.{texts};

use crate::given::{Given, given_by};
use crate::options::number_of;

/// The number of processes, from 1 to 20,000, of the generated program that the words ask for; nothing where they are not `gen N`.
pub fn generated_of(words: &[String]) -> Option<u32>
    ensures value { result ≡ generated_of (texts words.now) }
    ensures range { IfSome result (λ processes. processes ≤ 20000) }
{
    let [word, rest @ ..] = words else {
        return None;
    };
    if word.as_str() != "gen" {
        return None;
    }
    let given = given_by(rest)?;
    processes_with(given)
}

// The number that is given, where it is and no option is.
fn processes_with(given: Given<'_>) -> Option<u32>
    ensures value { result ≡ processes_with (held given.entry) }
    ensures range { IfSome result (λ processes. processes ≤ 20000) }
{
    if given.has_options() {
        return None;
    }
    let word = given.file?;
    processes_of(word)
}

// The number of processes that a word is.
fn processes_of(word: &str) -> Option<u32>
    ensures value { result ≡ processes_of word.now }
    ensures range { IfSome result (λ processes. processes ≤ 20000) }
{
    let number = number_of(word)?;
    if number < 1 || number > 20_000 {
        return None;
    }
    Some(number as u32)
}
