//! `exec FILE`: the code that the words ask to be run, and under which limits.
ghost use Rattle.std.specs.Prelude.{◌≡◌};
ghost use Rattle.std.specs.Option.{option_map};
ghost use Rattle.command_line.specs.Executed.{code_request_of, code_with};
ghost use Rattle.command_line.specs.Given.{held, run_asked};
ghost use Rattle.command_line.specs.Words.{texts};

use crate::given::{Given, given_by};
use sim_base::Limits;

/// A run of code: its limits and the name of the code file.
#[derive(Clone, Copy)]
pub struct CodeRequest<'a> {
    pub limits: Limits,
    pub file: &'a str,
}

/// The run of code that the words ask for, and nothing where they are not `exec FILE`.
pub fn code_request_of(words: &[String]) -> Option<CodeRequest<'_>>
    ensures { option_map run_asked result ≡ code_request_of (texts words.now) }
{
    let [word, rest @ ..] = words else {
        return None;
    };
    if word.as_str() != "exec" {
        return None;
    }
    let given = given_by(rest)?;
    code_with(given)
}

// The run of code with what is given to it; nothing where no file is.
fn code_with(given: Given<'_>) -> Option<CodeRequest<'_>>
    ensures { option_map run_asked result ≡ code_with (held given.entry) }
{
    let file = given.file?;
    Some(CodeRequest {
        limits: given.limits(),
        file,
    })
}
