//! The parser of expressions.
#![tactic(auto, unfolding(sim_tree::specs::Grammar::is))]

ghost use Rattle.std.specs.Prelude.{◌≡◌, ◌<◌, ◌≤◌, ◌+◌, ℕ, List, map, length, Some, true};
ghost use Rattle.sim_base.specs.declared.token.TokenKind.TheVariants as k;
ghost use Rattle.sim_tree.specs.Grammar as g;
ghost use Rattle.sim_tree.specs.Grammar.{Of, Once, Maybe, Many, Mark, begins_simple as spec_begins, is, one_of, signs};
ghost use Rattle.sim_tree.specs.Reading.{kind_at};
ghost use Rattle.sim_tree.specs.Derivation.{derivation_of, not_mark, operand_derivation, item, term_derivation, factor_derivation, selector_derivation, arguments as arguments_derivation, level_part};
ghost use Rattle.sim_expr_parser.specs.Level.{many, under, operator, operators_of};
ghost use Rattle.sim_expr_parser.specs.declared.operators.Operators.TheVariants as spec_operators;
ghost use Rattle.sim_expr_parser.specs.Operators.{IsRead, GivesTail};
ghost use Rattle.sim_expr_parser.specs.Claim.{Answers};
ghost use Rattle.sim_expr_parser.specs.Parsing.{IsSource, GivesBoxed, GivesLevel, GivesNext, GivesRow, GivesTo, GivesList};

use crate::level::Level;
use crate::lists::add;
use crate::operators::{Operators, begins_with_not, begins_with_sign, operators_at};
use crate::refusal::{Stop, SyntaxRefusal};
use crate::signs::{leading_sign, membership_at, multiplication_at, relation_at, sign_at};
use crate::source::Source;
use sim_base::{Rule, Token, TokenKind, TokenNo};
use sim_tree::{Expr, Factor, Operand, Selector, Term};
use std::alloc::Global;

/// How deep statements and expressions nest.
pub const LIMIT: u32 = 200;

// The levels of expressions at which the parser begins or goes on, from that of a primary with what is taken of it.
const POSTFIX: u32 = 1;

const FACTOR: u32 = 2;

const TERM: u32 = 3;

const SUM: u32 = 4;

const CONCATENATION: u32 = 5;

const RELATION: u32 = 6;

const NEGATION: u32 = 7;

const SIMPLE: u32 = 13;

fn begins_simple(kind: TokenKind) -> bool
    ensures { result ≡ one_of spec_begins kind }
{
    matches!(
        kind,
        TokenKind::Not
            | TokenKind::Plus
            | TokenKind::Minus
            | TokenKind::Integer
            | TokenKind::Character
            | TokenKind::Text
            | TokenKind::True
            | TokenKind::False
            | TokenKind::None
            | TokenKind::Notext
            | TokenKind::Identifier
            | TokenKind::This
            | TokenKind::New
            | TokenKind::Open
    )
}

/// The expression that begins at a token, with the index after it, or the first bad token by Y1, or by Y2 the first that
/// would begin an expression deeper than the limit. The depth is how many statements and expressions stand around it.
pub fn parse_expr(
    alloc: Global,
    tokens: &[Token],
    at: usize,
    depth: u32,
) -> Result<(Expr, usize), SyntaxRefusal>
    requires source { IsSource tokens.now }
    requires within { at < length tokens.now }
    requires shallow { depth ≤ LIMIT }
    ensures { Answers tokens.now depth at result }
{
    let source = &Source::new(alloc, tokens);
    match expression(source, at, depth) {
        Ok(read) => Ok(read),
        Err(Stop::Unexpected(bad)) => Err(SyntaxRefusal::Broken {
            rule: Rule::UnexpectedToken,
            token: source.token_no(bad),
        }),
        Err(Stop::TooDeep(deep)) => Err(SyntaxRefusal::Broken {
            rule: Rule::NestedTooDeeply,
            token: source.token_no(deep),
        }),
        Err(Stop::Memory) => Err(SyntaxRefusal::Memory),
    }
}

/// The expression at a token, with the index after it.
#[cycle(parser)]
pub fn expression(source: &Source, at: usize, depth: u32) -> Result<(Expr, usize), Stop>
    requires within { at < length source.now }
    requires shallow { depth ≤ LIMIT }
    ensures { GivesLevel source.now depth 14 at result }
{
    let kind = source.kind_at(at);
    if kind != TokenKind::If && !begins_simple(kind) {
        return Err(Stop::Unexpected(at));
    }
    if depth == LIMIT {
        return Err(Stop::TooDeep(at));
    }
    if kind == TokenKind::If {
        return conditional(source, at, depth);
    }
    up_to_level(source, at, depth + 1, SIMPLE)
}

// A conditional expression. The depth is that around it.
#[cycle(parser)]
#[inline(never)]
fn conditional(source: &Source, at: usize, depth: u32) -> Result<(Expr, usize), Stop>
    requires within { at < length source.now }
    requires shallow { depth < LIMIT }
    ensures { is (kind_at source.now at) k.If ≡ true → GivesLevel source.now depth 14 at result }
{
    let token = source.token_no(at);
    let next = source.expect(at, TokenKind::If)?;
    let (condition, next) = boxed(source, next, depth + 1)?;
    let next = source.expect(next, TokenKind::Then)?;
    let (first, next) = boxed_up_to_level(source, next, depth + 1, SIMPLE)?;
    let next = source.expect(next, TokenKind::Else)?;
    let (second, end) = boxed(source, next, depth + 1)?;
    Ok((
        Expr::If {
            token,
            condition,
            first,
            second,
        },
        end,
    ))
}

// An expression in a box of its own, so that no frame above holds it.
#[cycle(parser)]
#[inline(never)]
fn boxed(source: &Source, at: usize, depth: u32) -> Result<(Box<Expr>, usize), Stop>
    requires within { at < length source.now }
    requires shallow { depth ≤ LIMIT }
    ensures { GivesBoxed source.now depth 14 at result }
{
    let (inner, end) = expression(source, at, depth)?;
    Ok((Box::new(source.allocator(), inner)?, end))
}

// The part of a level in a box of its own.
#[cycle(parser)]
#[inline(never)]
fn boxed_up_to_level(
    source: &Source,
    at: usize,
    depth: u32,
    top: u32,
) -> Result<(Box<Expr>, usize), Stop>
    requires within { at < length source.now }
    requires shallow { depth ≤ LIMIT }
    requires level { 1 ≤ top }
    requires simple { top ≤ 13 }
    ensures { GivesBoxed source.now depth top at result }
{
    let (inner, end) = up_to_level(source, at, depth, top)?;
    Ok((Box::new(source.allocator(), inner)?, end))
}

// The part of a level at a token: the operand there, raised as far as operators stand behind it.
#[cycle(parser)]
#[inline(never)]
fn up_to_level(source: &Source, at: usize, depth: u32, top: u32) -> Result<(Expr, usize), Stop>
    requires within { at < length source.now }
    requires shallow { depth ≤ LIMIT }
    requires level { 1 ≤ top }
    requires simple { top ≤ 13 }
    ensures { GivesLevel source.now depth top at result }
{
    if begins_with_not(source, at, top) {
        let (negated, next) = negation(source, at, depth)?;
        return raised(source, next, depth, negated, NEGATION, top);
    }
    if begins_with_sign(source, at, top) {
        let (sum, next) = signed_sum(source, at, depth)?;
        return raised(source, next, depth, sum, SUM, top);
    }
    let (operand, next) = postfix(source, at, depth)?;
    raised(source, next, depth, operand, POSTFIX, top)
}

// An operand that was read before a token, raised level by level as far as operators stand there.
#[cycle(parser)]
#[inline(never)]
fn raised(
    source: &Source,
    start: usize,
    depth: u32,
    operand: Expr,
    level: u32,
    top: u32,
) -> Result<(Expr, usize), Stop>
    requires within { start < length source.now }
    requires shallow { depth ≤ LIMIT }
    requires level { 1 ≤ level }
    requires low { level ≤ top }
    requires simple { top ≤ 13 }
    ensures { (i : ℕ) → IsRead source.now depth i level top operand start → GivesLevel source.now depth top i result }
{
    let mut at = start;
    let mut reached = level;
    let mut first = operand;
    while let Some(operators) = operators_at(source, at, reached, top) {
        let (whole, end) = extended(
            source,
            at,
            depth,
            operators,
            Box::new(source.allocator(), first)?,
        )?;
        first = whole;
        reached = operators.operand() + 1;
        at = end;
    }
    Ok((first, at))
}

// A first operand with the operators of one level that stand behind it, and their operands.
#[cycle(parser)]
#[inline(never)]
fn extended(
    source: &Source,
    at: usize,
    depth: u32,
    operators: Operators,
    first: Box<Expr>,
) -> Result<(Expr, usize), Stop>
    requires within { at < length source.now }
    requires shallow { depth ≤ LIMIT }
    ensures { operators_of (kind_at source.now at) ≡ Some operators → GivesTail source.now depth at operators first.value result }
{
    match operators {
        Operators::Relations => relation(source, at, depth, first),
        Operators::Signs => {
            let (terms, end) = terms(source, at, depth)?;
            Ok((
                Expr::Sum {
                    sign: None,
                    first,
                    rest: terms,
                },
                end,
            ))
        }
        Operators::Multiplications => {
            let (factors, end) = factors(source, at, depth)?;
            Ok((
                Expr::Product {
                    first,
                    rest: factors,
                },
                end,
            ))
        }
        Operators::Single(level) => {
            let (operands, end) = operands(source, at, depth, level)?;
            Ok((level.node(first, operands), end))
        }
    }
}

// Each operator of a level with its operand.
#[cycle(parser)]
fn operands(
    source: &Source,
    start: usize,
    depth: u32,
    level: Level,
) -> Result<(Vec<Operand>, usize), Stop>
    requires within { start < length source.now }
    requires shallow { depth ≤ LIMIT }
    ensures { GivesRow source.now depth (many level) start (λ v. map (λ o. item (under level) (operator level) (operand_derivation o)) v.items) result }
{
    let mut at = start;
    let mut rest = Vec::new(source.allocator());
    while let Some(next) = source.eat(at, level.operator()) {
        let (operand, end) = up_to_level(source, next, depth, level.operand())?;
        let token = source.token_no(at);
        add(&mut rest, Operand { token, operand })?;
        at = end;
    }
    Ok((rest, at))
}

// Each `not` in front of a relation.
fn not_marks(source: &Source, start: usize) -> Result<(Vec<TokenNo>, usize), Stop>
    requires within { start < length source.now }
    ensures { (d : ℕ) → GivesRow source.now d g.NotSign start (λ v. map not_mark v.items) result }
{
    let mut at = start;
    let mut marks = Vec::new(source.allocator());
    while let Some(next) = source.eat(at, TokenKind::Not) {
        marks.push(source.token_no(at))?;
        at = next;
    }
    Ok((marks, at))
}

// What `not` begins: a relation behind each `not`.
#[cycle(parser)]
#[inline(never)]
fn negation(source: &Source, at: usize, depth: u32) -> Result<(Expr, usize), Stop>
    requires within { at < length source.now }
    requires shallow { depth ≤ LIMIT }
    ensures { is (kind_at source.now at) k.Not ≡ true → GivesLevel source.now depth 7 at result }
{
    let (marks, next) = not_marks(source, at)?;
    let (operand, end) = boxed_up_to_level(source, next, depth, RELATION)?;
    Ok((
        Expr::Not {
            tokens: marks,
            operand,
        },
        end,
    ))
}

// A relation or a test of a class behind its left side.
#[cycle(parser)]
#[inline(never)]
fn relation(source: &Source, at: usize, depth: u32, left: Box<Expr>) -> Result<(Expr, usize), Stop>
    requires within { at < length source.now }
    requires shallow { depth ≤ LIMIT }
    ensures { operators_of (kind_at source.now at) ≡ Some spec_operators.Relations → GivesTail source.now depth at spec_operators.Relations left.value result }
{
    let token = source.token_no(at);
    if let Some((membership, next)) = membership_at(source, at) {
        let (class, end) = source.identifier_at(next)?;
        let object = left;
        return Ok((
            Expr::Member {
                object,
                token,
                membership,
                class,
            },
            end,
        ));
    }
    let Some((relation, next)) = relation_at(source, at) else {
        return Err(Stop::Unexpected(at));
    };
    let (right, end) = boxed_up_to_level(source, next, depth, CONCATENATION)?;
    Ok((
        Expr::Related {
            left,
            token,
            relation,
            right,
        },
        end,
    ))
}

// What a sign begins: a sum.
#[cycle(parser)]
#[inline(never)]
fn signed_sum(source: &Source, at: usize, depth: u32) -> Result<(Expr, usize), Stop>
    requires within { at < length source.now }
    requires shallow { depth ≤ LIMIT }
    ensures { one_of signs (kind_at source.now at) ≡ true → GivesLevel source.now depth 4 at result }
{
    let (sign, start) = leading_sign(source, at);
    let (first, next) = boxed_up_to_level(source, start, depth, TERM)?;
    let (rest, end) = terms(source, next, depth)?;
    Ok((Expr::Sum { sign, first, rest }, end))
}

// Each sign with its term.
#[cycle(parser)]
fn terms(source: &Source, start: usize, depth: u32) -> Result<(Vec<Term>, usize), Stop>
    requires within { start < length source.now }
    requires shallow { depth ≤ LIMIT }
    ensures { GivesRow source.now depth g.NextTerm start (λ v. map term_derivation v.items) result }
{
    let mut at = start;
    let mut rest = Vec::new(source.allocator());
    while let Some((sign, next)) = sign_at(source, at) {
        let (term, end) = up_to_level(source, next, depth, TERM)?;
        let token = source.token_no(at);
        add(&mut rest, Term { token, sign, term })?;
        at = end;
    }
    Ok((rest, at))
}

// Each operator with its factor.
#[cycle(parser)]
fn factors(source: &Source, start: usize, depth: u32) -> Result<(Vec<Factor>, usize), Stop>
    requires within { start < length source.now }
    requires shallow { depth ≤ LIMIT }
    ensures { GivesRow source.now depth g.NextFactor start (λ v. map factor_derivation v.items) result }
{
    let mut at = start;
    let mut rest = Vec::new(source.allocator());
    while let Some((operator, next)) = multiplication_at(source, at) {
        let (factor, end) = up_to_level(source, next, depth, FACTOR)?;
        let token = source.token_no(at);
        let item = Factor {
            token,
            operator,
            factor,
        };
        add(&mut rest, item)?;
        at = end;
    }
    Ok((rest, at))
}

/// The operand at a token: a primary, and what is taken of it.
#[cycle(parser)]
pub fn postfix(source: &Source, at: usize, depth: u32) -> Result<(Expr, usize), Stop>
    requires within { at < length source.now }
    requires shallow { depth ≤ LIMIT }
    ensures { GivesLevel source.now depth 1 at result }
{
    let (first, next) = primary(source, at, depth)?;
    let (rest, end) = selectors(source, next, depth)?;
    if rest.is_empty() {
        return Ok((first, end));
    }
    let primary = Box::new(source.allocator(), first)?;
    Ok((Expr::Postfix { primary, rest }, end))
}

/// What is taken of an object, from its first dot or `qua` on.
#[cycle(parser)]
pub fn selectors(source: &Source, start: usize, depth: u32) -> Result<(Vec<Selector>, usize), Stop>
    requires within { start < length source.now }
    requires shallow { depth ≤ LIMIT }
    ensures { GivesRow source.now depth g.Selection start (λ v. map selector_derivation v.items) result }
{
    let mut at = start;
    let mut rest = Vec::new(source.allocator());
    while let Some((taken, end)) = selector(source, at, depth)? {
        add(&mut rest, taken)?;
        at = end;
    }
    Ok((rest, at))
}

#[cycle(parser)]
fn selector(source: &Source, at: usize, depth: u32) -> Result<Option<(Selector, usize)>, Stop>
    requires within { at < length source.now }
    requires shallow { depth ≤ LIMIT }
    ensures { GivesNext source.now depth g.Selection at selector_derivation result }
{
    let token = source.token_no(at);
    if let Some(next) = source.eat(at, TokenKind::Dot) {
        let (name, next) = source.identifier_at(next)?;
        let (arguments, end) = arguments(source, next, depth)?;
        return Ok(Some((
            Selector::Dot {
                token,
                name,
                arguments,
            },
            end,
        )));
    }
    let Some(next) = source.eat(at, TokenKind::Qua) else {
        return Ok(None);
    };
    let (class, end) = source.identifier_at(next)?;
    Ok(Some((Selector::Qua { token, class }, end)))
}

#[cycle(parser)]
fn primary(source: &Source, at: usize, depth: u32) -> Result<(Expr, usize), Stop>
    requires within { at < length source.now }
    requires shallow { depth ≤ LIMIT }
    ensures { GivesLevel source.now depth 0 at result }
{
    match source.kind_at(at) {
        TokenKind::Identifier => named(source, at, depth),
        TokenKind::Open => parentheses(source, at, depth),
        TokenKind::This => local_object(source, at),
        TokenKind::New => generator(source, at, depth),
        _ => source.constant_at(at),
    }
}

// An identifier with its actual parameters or subscripts.
#[cycle(parser)]
#[inline(never)]
fn named(source: &Source, at: usize, depth: u32) -> Result<(Expr, usize), Stop>
    requires within { at < length source.now }
    requires shallow { depth ≤ LIMIT }
    ensures { is (kind_at source.now at) k.Identifier ≡ true → GivesLevel source.now depth 0 at result }
{
    let (name, next) = source.identifier_at(at)?;
    let (arguments, end) = arguments(source, next, depth)?;
    Ok((Expr::Named { name, arguments }, end))
}

// An expression in parentheses.
#[cycle(parser)]
#[inline(never)]
fn parentheses(source: &Source, at: usize, depth: u32) -> Result<(Expr, usize), Stop>
    requires within { at < length source.now }
    requires shallow { depth ≤ LIMIT }
    ensures { is (kind_at source.now at) k.Open ≡ true → GivesLevel source.now depth 0 at result }
{
    let token = source.token_no(at);
    let next = source.expect(at, TokenKind::Open)?;
    let (inner, next) = boxed(source, next, depth)?;
    let end = source.expect(next, TokenKind::Close)?;
    Ok((Expr::Parentheses { token, inner }, end))
}

// `this` and a class.
#[inline(never)]
fn local_object(source: &Source, at: usize) -> Result<(Expr, usize), Stop>
    requires within { at < length source.now }
    ensures { (d : ℕ) → is (kind_at source.now at) k.This ≡ true → GivesLevel source.now d 0 at result }
{
    let token = source.token_no(at);
    let next = source.expect(at, TokenKind::This)?;
    let (class, end) = source.identifier_at(next)?;
    Ok((Expr::This { token, class }, end))
}

// `new`, a class and its actual parameters.
#[cycle(parser)]
#[inline(never)]
fn generator(source: &Source, at: usize, depth: u32) -> Result<(Expr, usize), Stop>
    requires within { at < length source.now }
    requires shallow { depth ≤ LIMIT }
    ensures { is (kind_at source.now at) k.New ≡ true → GivesLevel source.now depth 0 at result }
{
    let token = source.token_no(at);
    let next = source.expect(at, TokenKind::New)?;
    let (class, next) = source.identifier_at(next)?;
    let (arguments, end) = arguments(source, next, depth)?;
    Ok((
        Expr::New {
            token,
            class,
            arguments,
        },
        end,
    ))
}

/// The actual parameters or subscripts at a token, none where it is no parenthesis, with the index after them.
#[cycle(parser)]
pub fn arguments(source: &Source, at: usize, depth: u32) -> Result<(Vec<Expr>, usize), Stop>
    requires within { at < length source.now }
    requires shallow { depth ≤ LIMIT }
    ensures { GivesTo source.now depth (Of Maybe g.Arguments) at (λ v. arguments_derivation (map derivation_of v.items)) result }
{
    let Some(next) = source.eat(at, TokenKind::Open) else {
        return Ok((Vec::new(source.allocator()), at));
    };
    let (list, next) = argument_list(source, next, depth)?;
    let end = source.expect(next, TokenKind::Close)?;
    Ok((list, end))
}

// Expressions with commas between them, at least one.
#[cycle(parser)]
fn argument_list(source: &Source, start: usize, depth: u32) -> Result<(Vec<Expr>, usize), Stop>
    requires within { start < length source.now }
    requires shallow { depth ≤ LIMIT }
    ensures { GivesList source.now depth start result }
{
    let mut list = Vec::new(source.allocator());
    let (first, mut at) = expression(source, start, depth)?;
    add(&mut list, first)?;
    while let Some(next) = source.eat(at, TokenKind::Comma) {
        let (argument, end) = expression(source, next, depth)?;
        add(&mut list, argument)?;
        at = end;
    }
    Ok((list, at))
}
