//! What the words of the command line ask for.
ghost use Rattle.std.specs.Prelude.{◌≡◌};
ghost use Rattle.std.specs.Option.{option_map};
ghost use Rattle.command_line.specs.Given.{asked, held};
ghost use Rattle.command_line.specs.Words.{command_of, request_of, request_with, takes_options, texts};

use crate::given::{Given, given_by};
use sim_base::Limits;

/// What is to be done with a source.
#[derive(Clone, Copy, Debug, PartialEq, Eq)]
pub enum Command {
    /// `run`: to run the program.
    Run,
    /// `check`: to say what refuses it, and to run nothing.
    Check,
    /// `compile`: to write its code as a code file, and to run nothing.
    Compile,
    /// `list`: to write its code as text, and to run nothing.
    Listing,
    /// `print`: to write its canonical text, and to run nothing.
    Print,
    /// `xref`: to write its cross references, and to run nothing.
    References,
}

/// A command, its limits and the name of its file.
#[derive(Clone, Copy)]
pub struct Request<'a> {
    pub command: Command,
    pub limits: Limits,
    pub file: &'a str,
}

/// The request that the words are, and nothing where they are no command.
pub fn request_of(words: &[String]) -> Option<Request<'_>>
    ensures { option_map asked result ≡ request_of (texts words.now) }
{
    let [word, rest @ ..] = words else {
        return None;
    };
    let command = command_of(word.as_str())?;
    let given = given_by(rest)?;
    request_with(command, given)
}

// A command with what is given to it; nothing where no file is, or where options are and it takes none.
fn request_with(command: Command, given: Given<'_>) -> Option<Request<'_>>
    ensures { option_map asked result ≡ request_with command (held given.entry) }
{
    if given.has_options() && !command.takes_options() {
        return None;
    }
    let file = given.file?;
    Some(Request {
        command,
        limits: given.limits(),
        file,
    })
}

impl Command {
    // Whether options may stand with it.
    fn takes_options(self) -> bool
        ensures { result ≡ takes_options self }
    {
        match self {
            Command::Run => true,
            Command::Check
            | Command::Compile
            | Command::Listing
            | Command::Print
            | Command::References => false,
        }
    }
}

// The command of this word, if it is one.
fn command_of(word: &str) -> Option<Command>
    ensures { result ≡ command_of word.now }
{
    match word {
        "run" => Some(Command::Run),
        "check" => Some(Command::Check),
        "compile" => Some(Command::Compile),
        "list" => Some(Command::Listing),
        "print" => Some(Command::Print),
        "xref" => Some(Command::References),
        _ => None,
    }
}
