//! The rules of code files.
ghost use Rattle.std.specs.Prelude.{◌≡◌, Some};
ghost use Rattle.code_file.specs.Rules.{code_rule_text};

use std::fmt;

/// A rule that each code file keeps.
#[derive(Clone, Copy, Debug, PartialEq, Eq)]
pub enum CodeRule {
    /// `K1`: no header.
    NoHeader,
    /// `K2`: file ends early, inside a count or a record.
    EndsEarly,
    /// `K3`: field out of range: a number that stands for none of what the field can be.
    OutOfRange,
    /// `K4`: unused field not zero: an operand that the instruction has not.
    NotZero,
    /// `K5`: bytes after the end, or past the limit.
    AfterEnd,
}

impl CodeRule {
    /// The number and the words, as they are printed.
    pub fn text(self) -> &'static str
        ensures text { result.now ≡ code_rule_text self }
    {
        match self {
            CodeRule::NoHeader => "K1 no header",
            CodeRule::EndsEarly => "K2 file ends early",
            CodeRule::OutOfRange => "K3 field out of range",
            CodeRule::NotZero => "K4 unused field not zero",
            CodeRule::AfterEnd => "K5 bytes after the end",
        }
    }
}

impl fmt::Display for CodeRule {
    ghost output = { λ rule. Some (code_rule_text rule) };

    fn fmt<W: fmt::Write>(&self, f: &mut fmt::Formatter<W>) -> fmt::Result {
        f.write_str(self.text())
    }
}
