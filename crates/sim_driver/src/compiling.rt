// From the bytes of a source to the program that breaks no rule, or to the rule that refuses it.
ghost use Rattle.std.specs.Prelude.{◌≡◌, ◌<◌, ◌^◌, ◌-◌, length, IfOk};
ghost use Rattle.sim_lexer.specs.Spelling.{Reads, Spelled};
ghost use Rattle.sim_parser.specs.Claim.{IsWholeSource};
ghost use Rattle.sim_scope.specs.Source.{source_of};
ghost use Rattle.sim_tree.specs.Tree.{IsTree};
ghost use Rattle.sim_driver.specs.Compiling.{Answers, BindsAs, CheckRejects, ChecksAs, IsProgram, SourcePrints, SourceRejects, TokensReject, TreeRejects, token_line};
ghost use Rattle.command_line.specs.declared.words.Command.{Command as AnyCommand};
ghost use Rattle.command_line.specs.declared.words.Command.TheVariants.{Print};

use command_line::Command;
use sim_base::{Line, Memory, Rule, Token, TokenNo, line_of};
use sim_built::laws::allowed_programs_run;
use sim_expr_parser::SyntaxRefusal;
use sim_lexer::{LexRefusal, lex};
use sim_parser::parse;
use sim_print::print;
use sim_scope::{Bound, StaticRefusal};
use sim_static::check;
use sim_tree::grammar::one_tree;
use std::alloc::Global;
use thiserror::Error;

/// Why a source is no program.
#[derive(Clone, Copy, Debug, PartialEq, Eq, Error)]
pub enum Refusal {
    /// It breaks this rule, first at this line.
    #[error("line {}: {rule}", line.0)]
    Broken { rule: Rule, line: Line },
    /// Memory was refused.
    #[error("want of memory")]
    Memory,
}

/// The program of a source, which breaks no rule, for each command but `print`; or the rule that it breaks first, with the line.
pub fn bind(alloc: Global, command: Command, source: &[u8]) -> Result<Bound, Refusal>
    requires length { length source.now < 2 ^ 32 - 1 }
    requires binds { command ≡ Print → ⊥ }
    ensures { Answers (λ bound. IsProgram command source.now (source_of bound)) (SourceRejects command source.now) result }
{
    // Two trees of its tokens have one syntax, so a source is one program.
    one_tree();
    let tokens = tokens_of(alloc, source)?;
    let tree = tree_of(alloc, &tokens)?;
    bind_tree(alloc, command, &tokens, tree)
}

/// The canonical text of a source, which is a program of the grammar; or the rule of spelling or of the grammar that it breaks first, with
/// the line. No other rule is asked.
pub fn text_of(alloc: Global, source: &[u8]) -> Result<Vec<u8>, Refusal>
    requires { length source.now < 2 ^ 32 - 1 }
    ensures { Answers (λ text. SourcePrints source.now text.items) (SourceRejects Print source.now) result }
{
    one_tree();
    let tokens = tokens_of(alloc, source)?;
    let tree = tree_of(alloc, &tokens)?;
    match print(alloc, &tree) {
        Ok(text) => Ok(text),
        Err(Memory) => Err(Refusal::Memory),
    }
}

// The tokens of a source.
fn tokens_of(alloc: Global, source: &[u8]) -> Result<Vec<Token>, Refusal>
    requires { length source.now < 2 ^ 32 - 1 }
    ensures reads { (command : AnyCommand) → Answers (λ tokens. Reads source.now (Spelled tokens.items)) (SourceRejects command source.now) result }
    ensures whole { IfOk result (λ tokens. IsWholeSource tokens.items) }
{
    match lex(alloc, source) {
        Ok(tokens) => Ok(tokens),
        Err(LexRefusal::Broken { rule, place }) => Err(Refusal::Broken {
            rule,
            line: line_of(source, place as usize),
        }),
        Err(LexRefusal::Memory) => Err(Refusal::Memory),
    }
}

// The tree of tokens.
fn tree_of(alloc: Global, tokens: &[Token]) -> Result<sim_tree::Program, Refusal>
    requires { IsWholeSource tokens.now }
    ensures { (command : AnyCommand) → Answers (IsTree tokens.now) (TokensReject command tokens.now) result }
{
    match parse(alloc, tokens) {
        Ok(tree) => Ok(tree),
        Err(SyntaxRefusal::Broken { rule, token }) => Err(Refusal::Broken {
            rule,
            line: line_at(tokens, token),
        }),
        Err(SyntaxRefusal::Memory) => Err(Refusal::Memory),
    }
}

// The line of one of the tokens.
fn line_at(tokens: &[Token], token: TokenNo) -> Line
    ensures { result ≡ token_line tokens.now token.0 }
{
    match tokens.get(token.0 as usize) {
        Some(token) => token.line,
        None => Line(0),
    }
}

// The program of a tree of these tokens, which can be run.
fn bind_tree(
    alloc: Global,
    command: Command,
    tokens: &[Token],
    tree: sim_tree::Program,
) -> Result<Bound, Refusal>
    ensures { Answers (λ bound. BindsAs command tokens.now tree (source_of bound)) (TreeRejects command tokens.now tree) result }
{
    let bound = bind_checked(alloc, tokens, tree)?;
    allowed_programs_run();
    Ok(bound)
}

// The program of a tree of these tokens, by the static rules.
fn bind_checked(alloc: Global, tokens: &[Token], tree: sim_tree::Program) -> Result<Bound, Refusal>
    ensures { Answers (λ bound. ChecksAs tokens.now tree (source_of bound)) (CheckRejects tokens.now tree) result }
{
    match check(alloc, tree) {
        Ok(bound) => Ok(bound),
        Err(StaticRefusal::Broken { rule, token }) => Err(Refusal::Broken {
            rule,
            line: line_at(tokens, token),
        }),
        Err(StaticRefusal::Memory) => Err(Refusal::Memory),
    }
}
