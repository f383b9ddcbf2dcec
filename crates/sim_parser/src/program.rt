//! The parser of whole programs.
#![tactic(auto, unfolding(sim_tree::specs::Grammar::is))]

ghost use Rattle.std.specs.Prelude.{◌≡◌, ◌<◌, Err, IfOk, length, map};
ghost use Rattle.sim_base.specs.declared.numbering.TokenNo.{TokenNo as Number};
ghost use Rattle.sim_base.specs.declared.rule.Rule.{Rule as Broken};
ghost use Rattle.sim_expr_parser.specs.declared.refusal.SyntaxRefusal.TheVariants as refusal;
ghost use Rattle.sim_tree.specs.Tree.{line};
ghost use Rattle.sim_parser.specs.Claim.{IsWholeSource, Parses};
ghost use Rattle.sim_parser.specs.Program.{GivesPrefix, GivesProgram};

use crate::statement::compound;
use crate::words::past_semicolons;
use sim_base::{Line, Rule, Token, TokenKind};
use sim_expr_parser::{Source, Stop, SyntaxRefusal, arguments};
use sim_tree::{BlockPrefix, Program};
use std::alloc::{AllocError, Global};

/// The tree of a whole program, or by Y1 the first token with which the tokens begin no program, or by Y2 the first token
/// that would begin a statement or an expression deeper than the limit, whichever comes first.
pub fn parse(alloc: Global, tokens: &[Token]) -> Result<Program, SyntaxRefusal>
    requires source { IsWholeSource tokens.now }
    ensures answers { Parses tokens.now result }
    ensures within { (rule : Broken) (k : Number) → result ≡ Err (refusal.Broken rule k) → k.0 < length tokens.now }
{
    let source = &Source::new(alloc, tokens);
    match program(source) {
        Ok(program) => Ok(program),
        Err(Stop::Unexpected(bad)) => Err(SyntaxRefusal::Broken {
            rule: Rule::UnexpectedToken,
            token: source.token_no(bad),
        }),
        Err(Stop::TooDeep(deep)) => Err(SyntaxRefusal::Broken {
            rule: Rule::NestedTooDeeply,
            token: source.token_no(deep),
        }),
        Err(Stop::Memory) => Err(SyntaxRefusal::Memory),
    }
}

// The tree of a whole program, or where it stops.
fn program(source: &Source) -> Result<Program, Stop>
    requires source { IsWholeSource source.now }
    ensures { GivesProgram source.now result }
{
    let (prefix, at) = block_prefix(source)?;
    let (block, next) = compound(source, at, 0)?;
    let end = past_semicolons(source, next);
    if source.kind_at(end) != TokenKind::EndOfSource {
        return Err(Stop::Unexpected(end));
    }
    let lines = lines(source.allocator(), source.tokens())?;
    Ok(Program {
        prefix,
        block,
        lines,
    })
}

// The prefix of a program's block, if there is one, and the index after it.
fn block_prefix(source: &Source) -> Result<(Option<BlockPrefix>, usize), Stop>
    requires source { IsWholeSource source.now }
    ensures { GivesPrefix source.now result }
{
    if source.kind_at(0) != TokenKind::Identifier {
        source.expect(0, TokenKind::Begin)?;
        return Ok((None, 0));
    }
    let (class, next) = source.identifier_at(0)?;
    let (arguments, end) = arguments(source, next, 0)?;
    Ok((Some(BlockPrefix { class, arguments }), end))
}

// The line of each token.
fn lines(alloc: Global, tokens: &[Token]) -> Result<Vec<Line>, AllocError>
    ensures { IfOk result (λ lines. lines.items ≡ map line tokens.now) }
{
    let mut lines = Vec::with_capacity(alloc, tokens.len())?;
    for token in tokens {
        lines.push(token.line)?;
    }
    Ok(lines)
}
