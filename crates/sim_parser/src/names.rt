//! Types and lists of identifiers.
#![tactic(auto, unfolding(sim_tree::specs::Grammar::is))]

ghost use Rattle.std.specs.Prelude.{◌≡◌, ◌<◌, ℕ, length};
ghost use Rattle.sim_tree.specs.Grammar as g;
ghost use Rattle.sim_tree.specs.Grammar.{Kept, Of, Once, just};
ghost use Rattle.sim_base.specs.declared.token.TokenKind.TheVariants as k;
ghost use Rattle.sim_tree.specs.Derivation.{identifier};
ghost use Rattle.sim_parser.specs.CommaLists.{ReadsAt};
ghost use Rattle.sim_tree.specs.Reading.{node};
ghost use Rattle.sim_tree.specs.ProgramDerivation.{ids, type_derivation};
ghost use Rattle.sim_expr_parser.specs.Parsing.{GivesTo};
ghost use Rattle.sim_parser.specs.Parsing.{GivesPart};

use crate::lists::comma_list;
use sim_base::TokenKind;
use sim_expr_parser::{Source, Stop};
use sim_tree::{Identifier, TypeName};

/// The type at a token, with the index after it.
pub fn type_name(source: &Source, at: usize) -> Result<(TypeName, usize), Stop>
    requires within { at < length source.now }
    ensures { (d : ℕ) → GivesPart source.now d g.TypeName at type_derivation result }
{
    let token = source.token_no(at);
    if let Some(next) = source.eat(at, TokenKind::IntegerWord) {
        return Ok((TypeName::Integer(token), next));
    }
    if let Some(next) = source.eat(at, TokenKind::Boolean) {
        return Ok((TypeName::Boolean(token), next));
    }
    if let Some(next) = source.eat(at, TokenKind::CharacterWord) {
        return Ok((TypeName::Character(token), next));
    }
    if let Some(next) = source.eat(at, TokenKind::TextWord) {
        return Ok((TypeName::Text(token), next));
    }
    let next = source.expect(at, TokenKind::Ref)?;
    let next = source.expect(next, TokenKind::Open)?;
    let (class, next) = source.identifier_at(next)?;
    let end = source.expect(next, TokenKind::Close)?;
    Ok((TypeName::Reference { token, class }, end))
}

/// The identifiers at a token, at least one, with commas between them, and the index after them.
pub fn identifiers(source: &Source, start: usize) -> Result<(Vec<Identifier>, usize), Stop>
    requires within { start < length source.now }
    ensures { (d : ℕ) → GivesPart source.now d g.Identifiers start (λ v. ids v.items) result }
{
    comma_list(
        source,
        start,
        |at|
            requires { at < length source.now }
            ensures { ReadsAt source.entry.now (Kept (just k.Identifier)) identifier at result }
        { source.identifier_at(at) },
    )
}
