//! The parser of statements, blocks and declarations, which contain each other.
#![tactic(auto, unfolding(sim_tree::specs::Grammar::is))]

ghost use Rattle.std.specs.Prelude.{◌≡◌, ◌≤◌, ◌<◌, ◌+◌, ℕ, List, [], ◌∷◌, map, length, true};
ghost use Rattle.sim_tree.specs.Grammar as g;
ghost use Rattle.sim_tree.specs.Grammar.{Kept, Of, Once, Maybe, Many, just, one_of};
ghost use Rattle.sim_base.specs.declared.token.TokenKind.TheVariants as k;
ghost use Rattle.sim_tree.specs.Reading.{Forest, done, node, kind_at};
ghost use Rattle.sim_tree.specs.Derivation.{row};
ghost use Rattle.sim_tree.specs.ProgramDerivation.{block_derivation, class_derivation, procedure_derivation, statements as statements_derivation, statement_derivation, when_derivation};
ghost use Rattle.sim_parser.specs.Parsing.{GivesAll, GivesDecl, GivesDeclaration, GivesDeclarations, GivesInside, GivesPart, GivesStatements, GivesTyped, NoDeclaration, begins as begins_spec, body_row, branch_part, branch_derivation, branch_word, connection_row, connection_derivation, for_row, identified_row, if_row, inspect_row, while_row};

use crate::declaration::{segments, variables};
use crate::elements::{ForList, for_list};
use crate::heading::{Heading, heading_at, protections, virtuals};
use crate::names::type_name;
use crate::operation::{activation_statement, assigned, operand, operation, operation_statement};
use crate::words::{
    begins_declaration, begins_statement, past_closing, past_semicolons, prefixed_class_at,
};
use sim_base::{TokenKind, TokenNo};
use sim_expr_parser::{LIMIT, Source, Stop, arguments, expression, selectors};
use sim_tree::{Block, BlockPrefix, Class, Decl, Expr, Procedure, Stmt, TypeName, When};

/// What a connection does, from its `do` on.
#[derive(Drop)]
pub struct Connection {
    /// The token of `do`.
    opening: TokenNo,
    /// The body.
    body: Stmt,
    /// The token behind the body.
    end: TokenNo,
}

/// A branch of a statement that may be left out.
#[derive(Clone, Copy)]
pub enum Branch {
    /// `else`.
    Else,
    /// `otherwise`.
    Otherwise,
}

impl Branch {
    // Its word.
    fn word(self) -> TokenKind
        ensures { result ≡ branch_word self }
    {
        match self {
            Branch::Else => TokenKind::Else,
            Branch::Otherwise => TokenKind::Otherwise,
        }
    }
}

// The statements of a block.
#[derive(Drop)]
struct Sequence {
    statements: Vec<Stmt>,
    // The token of `end`.
    end: TokenNo,
}

/// The statement at a token, with the index after it. The depth is how many statements and expressions stand around it.
#[cycle(statement)]
pub fn statement(source: &Source, at: usize, depth: u32) -> Result<(Stmt, usize), Stop>
    requires within { at < length source.now }
    requires shallow { depth ≤ LIMIT }
    ensures { GivesPart source.now depth g.Statement at statement_derivation result }
{
    if !begins_statement(source.kind_at(at)) {
        let token = source.token_no(at);
        return Ok((Stmt::Empty { token }, at));
    }
    if depth == LIMIT {
        return Err(Stop::TooDeep(at));
    }
    begun_statement(source, at, depth + 1)
}

// A statement that its first token begins. The depth is that inside it.
#[cycle(statement)]
fn begun_statement(source: &Source, at: usize, depth: u32) -> Result<(Stmt, usize), Stop>
    requires within { at < length source.now }
    requires shallow { depth ≤ LIMIT }
    requires begins { one_of begins_spec (kind_at source.now at) ≡ true }
    ensures { GivesInside source.now depth at result }
{
    match source.kind_at(at) {
        TokenKind::Begin => block_statement(source, at, depth),
        TokenKind::Identifier => identified_statement(source, at, depth),
        TokenKind::Inner => inner_statement(source, at),
        TokenKind::If => if_statement(source, at, depth),
        TokenKind::While => while_statement(source, at, depth),
        TokenKind::For => for_statement(source, at, depth),
        TokenKind::Inspect => inspect_statement(source, at, depth),
        TokenKind::Activate | TokenKind::Reactivate => { activation_statement(source, at, depth) }
        _ => operation_statement(source, at, depth),
    }
}

#[inline(never)]
fn inner_statement(source: &Source, at: usize) -> Result<(Stmt, usize), Stop>
    requires within { at < length source.now }
    ensures { (d : ℕ) → GivesAll source.now d (Kept (just k.Inner) ∷ []) at statement_derivation result }
{
    let token = source.token_no(at);
    let end = source.expect(at, TokenKind::Inner)?;
    Ok((Stmt::Inner { token }, end))
}

#[cycle(statement)]
fn block_statement(source: &Source, at: usize, depth: u32) -> Result<(Stmt, usize), Stop>
    requires within { at < length source.now }
    requires shallow { depth ≤ LIMIT }
    ensures { GivesAll source.now depth (Of Once g.Compound ∷ []) at statement_derivation result }
{
    let (block, end) = compound(source, at, depth)?;
    Ok((Stmt::Block { block }, end))
}

// A statement that an identifier begins: a prefixed block, a call or an assignment.
#[cycle(statement)]
fn identified_statement(source: &Source, at: usize, depth: u32) -> Result<(Stmt, usize), Stop>
    requires within { at < length source.now }
    requires shallow { depth ≤ LIMIT }
    ensures { GivesAll source.now depth identified_row at statement_derivation result }
{
    let (name, next) = source.identifier_at(at)?;
    let (arguments, next) = arguments(source, next, depth)?;
    if source.kind_at(next) == TokenKind::Begin {
        let (block, end) = compound(source, next, depth)?;
        let prefix = BlockPrefix {
            class: name,
            arguments,
        };
        return Ok((Stmt::PrefixedBlock { prefix, block }, end));
    }
    let (selectors, next) = selectors(source, next, depth)?;
    let (rest, end) = assigned(source, next, depth)?;
    let left = operand(
        source.allocator(),
        Expr::Named { name, arguments },
        selectors,
    )?;
    Ok((operation(left, rest), end))
}

#[cycle(statement)]
fn if_statement(source: &Source, at: usize, depth: u32) -> Result<(Stmt, usize), Stop>
    requires within { at < length source.now }
    requires shallow { depth ≤ LIMIT }
    ensures { GivesAll source.now depth if_row at statement_derivation result }
{
    let token = source.token_no(at);
    let next = source.expect(at, TokenKind::If)?;
    let (condition, next) = expression(source, next, depth)?;
    let next = source.expect(next, TokenKind::Then)?;
    let (first, next) = statement(source, next, depth)?;
    let then_branch = Box::new(source.allocator(), first)?;
    let (else_branch, end) = optional_branch(source, next, depth, Branch::Else)?;
    Ok((
        Stmt::If {
            token,
            condition,
            then_branch,
            else_branch,
        },
        end,
    ))
}

// A branch behind its word, where the word stands there.
#[cycle(statement)]
#[inline(never)]
fn optional_branch(
    source: &Source,
    at: usize,
    depth: u32,
    branch: Branch,
) -> Result<(Option<Box<Stmt>>, usize), Stop>
    requires within { at < length source.now }
    requires shallow { depth ≤ LIMIT }
    ensures { GivesAll source.now depth (Of Maybe (branch_part branch) ∷ []) at (branch_derivation branch) result }
{
    let Some(next) = source.eat(at, branch.word()) else {
        return Ok((None, at));
    };
    let (body, end) = statement(source, next, depth)?;
    Ok((Some(Box::new(source.allocator(), body)?), end))
}

#[cycle(statement)]
fn while_statement(source: &Source, at: usize, depth: u32) -> Result<(Stmt, usize), Stop>
    requires within { at < length source.now }
    requires shallow { depth ≤ LIMIT }
    ensures { GivesAll source.now depth while_row at statement_derivation result }
{
    let token = source.token_no(at);
    let next = source.expect(at, TokenKind::While)?;
    let (condition, next) = expression(source, next, depth)?;
    let (body, end) = body(source, next, depth)?;
    let body = Box::new(source.allocator(), body)?;
    Ok((
        Stmt::While {
            token,
            condition,
            body,
        },
        end,
    ))
}

// A statement behind `do`.
#[cycle(statement)]
fn body(source: &Source, at: usize, depth: u32) -> Result<(Stmt, usize), Stop>
    requires within { at < length source.now }
    requires shallow { depth ≤ LIMIT }
    ensures { GivesAll source.now depth body_row at (λ s. node g.Statement (statement_derivation s) done) result }
{
    let next = source.expect(at, TokenKind::Do)?;
    statement(source, next, depth)
}

#[cycle(statement)]
fn for_statement(source: &Source, at: usize, depth: u32) -> Result<(Stmt, usize), Stop>
    requires within { at < length source.now }
    requires shallow { depth ≤ LIMIT }
    ensures { GivesAll source.now depth for_row at statement_derivation result }
{
    let token = source.token_no(at);
    let next = source.expect(at, TokenKind::For)?;
    let (variable, next) = source.identifier_at(next)?;
    let (list, next) = for_list(source, next, depth)?;
    let (body, end) = body(source, next, depth)?;
    let body = Box::new(source.allocator(), body)?;
    let statement = match list {
        ForList::Values { sign, elements } => Stmt::For {
            token,
            variable,
            sign,
            elements,
            body,
        },
        ForList::References { sign, elements } => Stmt::ForReference {
            token,
            variable,
            sign,
            elements,
            body,
        },
    };
    Ok((statement, end))
}

#[cycle(statement)]
fn inspect_statement(source: &Source, at: usize, depth: u32) -> Result<(Stmt, usize), Stop>
    requires within { at < length source.now }
    requires shallow { depth ≤ LIMIT }
    ensures { GivesAll source.now depth inspect_row at statement_derivation result }
{
    let token = source.token_no(at);
    let next = source.expect(at, TokenKind::Inspect)?;
    let (object, next) = expression(source, next, depth)?;
    if source.kind_at(next) == TokenKind::Do {
        let (connection, next) = connected_at(source, next, depth)?;
        let Connection { opening, body, end } = connection;
        let body = Box::new(source.allocator(), body)?;
        let (otherwise, next) = optional_branch(source, next, depth, Branch::Otherwise)?;
        return Ok((
            Stmt::Inspect {
                token,
                object,
                opening,
                body,
                end,
                otherwise,
            },
            next,
        ));
    }
    let (arms, next) = when_arms(source, next, depth)?;
    let (otherwise, end) = optional_branch(source, next, depth, Branch::Otherwise)?;
    Ok((
        Stmt::InspectWhen {
            token,
            object,
            arms,
            otherwise,
        },
        end,
    ))
}

// The arms of `inspect`, at least one.
#[cycle(statement)]
#[inline(never)]
fn when_arms(source: &Source, start: usize, depth: u32) -> Result<(Vec<When>, usize), Stop>
    requires within { start < length source.now }
    requires shallow { depth ≤ LIMIT }
    requires no_do { kind_at source.now start ≡ k.Do → ⊥ }
    ensures { GivesPart source.now depth g.Arms start (λ v. row g.WhenArm (map when_derivation v.items) done) result }
{
    source.expect(start, TokenKind::When)?;
    let mut at = start;
    let mut arms = Vec::new(source.allocator());
    while source.kind_at(at) == TokenKind::When {
        let (arm, next) = when_arm(source, at, depth)?;
        arms.push(arm)?;
        at = next;
    }
    Ok((arms, at))
}

#[cycle(statement)]
#[inline(never)]
fn when_arm(source: &Source, at: usize, depth: u32) -> Result<(When, usize), Stop>
    requires within { at < length source.now }
    requires shallow { depth ≤ LIMIT }
    ensures { GivesPart source.now depth g.WhenArm at when_derivation result }
{
    let token = source.token_no(at);
    let next = source.expect(at, TokenKind::When)?;
    let (class, next) = source.identifier_at(next)?;
    let (connection, next) = connected_at(source, next, depth)?;
    let Connection { opening, body, end } = connection;
    Ok((
        When {
            token,
            class,
            opening,
            body,
            end,
        },
        next,
    ))
}

// A connection from its `do` on.
#[cycle(statement)]
#[inline(never)]
fn connected_at(source: &Source, at: usize, depth: u32) -> Result<(Connection, usize), Stop>
    requires within { at < length source.now }
    requires shallow { depth ≤ LIMIT }
    ensures { GivesAll source.now depth connection_row at connection_derivation result }
{
    let opening = source.token_no(at);
    let next = source.expect(at, TokenKind::Do)?;
    let (body, next) = statement(source, next, depth)?;
    let end = source.token_no(next);
    Ok((Connection { opening, body, end }, next))
}

/// The block at its `begin`, with the index after its `end`.
#[cycle(statement)]
pub fn compound(source: &Source, at: usize, depth: u32) -> Result<(Block, usize), Stop>
    requires within { at < length source.now }
    requires shallow { depth ≤ LIMIT }
    ensures { GivesPart source.now depth g.Compound at block_derivation result }
{
    let token = source.token_no(at);
    let next = source.expect(at, TokenKind::Begin)?;
    let next = past_semicolons(source, next);
    let (declarations, next) = declarations(source, next, depth)?;
    let (sequence, end) = sequence_at(source, next, depth)?;
    Ok((
        Block {
            token,
            declarations,
            statements: sequence.statements,
            end: sequence.end,
        },
        end,
    ))
}

// The declarations of a block, and the index at which its statements begin.
#[cycle(statement)]
#[inline(never)]
fn declarations(source: &Source, start: usize, depth: u32) -> Result<(Vec<Decl>, usize), Stop>
    requires within { start < length source.now }
    requires shallow { depth ≤ LIMIT }
    ensures { GivesDeclarations source.now depth start result }
{
    let mut at = start;
    let mut list = Vec::new(source.allocator());
    while let Some((declared, next)) = declaration(source, at, depth)? {
        list.push(declared)?;
        at = next;
    }
    Ok((list, at))
}

// The declaration at a token with the semicolons behind it, if one begins there.
#[cycle(statement)]
#[inline(never)]
fn declaration(source: &Source, at: usize, depth: u32) -> Result<Option<(Decl, usize)>, Stop>
    requires within { at < length source.now }
    requires shallow { depth ≤ LIMIT }
    ensures { GivesDeclaration source.now depth at result }
{
    if let Some(word) = prefixed_class_at(source, at) {
        let (prefix, _) = source.identifier_at(at)?;
        let token = source.token_no(word);
        let next = source.expect(word, TokenKind::Class)?;
        let (class, next) = class(source, next, depth)?;
        let end = past_closing(source, next)?;
        let prefix = Some(prefix);
        return Ok(Some((
            Decl::Class {
                prefix,
                token,
                class,
            },
            end,
        )));
    }
    if !begins_declaration(source.kind_at(at)) {
        return Ok(None);
    }
    let (declared, next) = plain_declaration(source, at, depth)?;
    let end = past_closing(source, next)?;
    Ok(Some((declared, end)))
}

// A declaration without a prefix.
#[cycle(statement)]
#[inline(never)]
fn plain_declaration(source: &Source, at: usize, depth: u32) -> Result<(Decl, usize), Stop>
    requires within { at < length source.now }
    requires shallow { depth ≤ LIMIT }
    ensures { GivesDecl source.now depth at result }
{
    let token = source.token_no(at);
    if let Some(next) = source.eat(at, TokenKind::Procedure) {
        let (procedure, end) = procedure(source, next, depth)?;
        return Ok((
            Decl::Procedure {
                result: None,
                token,
                procedure,
            },
            end,
        ));
    }
    if let Some(next) = source.eat(at, TokenKind::Class) {
        let (class, end) = class(source, next, depth)?;
        return Ok((
            Decl::Class {
                prefix: None,
                token,
                class,
            },
            end,
        ));
    }
    let (name, next) = type_name(source, at)?;
    typed_declaration(source, next, depth, name)
}

// What is declared behind a type.
#[cycle(statement)]
#[inline(never)]
fn typed_declaration(
    source: &Source,
    at: usize,
    depth: u32,
    type_name: TypeName,
) -> Result<(Decl, usize), Stop>
    requires within { at < length source.now }
    requires shallow { depth ≤ LIMIT }
    ensures { GivesTyped type_name source.now depth at result }
{
    let token = source.token_no(at);
    if let Some(next) = source.eat(at, TokenKind::Procedure) {
        let (procedure, end) = procedure(source, next, depth)?;
        let result = Some(type_name);
        return Ok((
            Decl::Procedure {
                result,
                token,
                procedure,
            },
            end,
        ));
    }
    if let Some(next) = source.eat(at, TokenKind::Array) {
        let (segments, end) = segments(source, next, depth)?;
        return Ok((
            Decl::Arrays {
                type_name,
                token,
                segments,
            },
            end,
        ));
    }
    source.expect(at, TokenKind::Identifier)?;
    let (variables, end) = variables(source, at)?;
    Ok((
        Decl::Variables {
            type_name,
            variables,
        },
        end,
    ))
}

// A procedure behind its word.
#[cycle(statement)]
fn procedure(source: &Source, at: usize, depth: u32) -> Result<(Procedure, usize), Stop>
    requires within { at < length source.now }
    requires shallow { depth ≤ LIMIT }
    ensures { GivesPart source.now depth g.Procedure at procedure_derivation result }
{
    let (name, next) = source.identifier_at(at)?;
    let (heading, next) = heading_at(source, next)?;
    let (body, next) = statement(source, next, depth)?;
    let body = Box::new(source.allocator(), body)?;
    let end = source.token_no(next);
    let Heading {
        parameters,
        modes,
        specifications,
    } = heading;
    Ok((
        Procedure {
            name,
            parameters,
            modes,
            specifications,
            body,
            end,
        },
        next,
    ))
}

// A class behind its word.
#[cycle(statement)]
fn class(source: &Source, at: usize, depth: u32) -> Result<(Class, usize), Stop>
    requires within { at < length source.now }
    requires shallow { depth ≤ LIMIT }
    ensures { GivesPart source.now depth g.Class at class_derivation result }
{
    let (name, next) = source.identifier_at(at)?;
    let (heading, next) = heading_at(source, next)?;
    let (protections, next) = protections(source, next)?;
    let (virtuals, next) = virtuals(source, next)?;
    let (body, next) = statement(source, next, depth)?;
    let body = Box::new(source.allocator(), body)?;
    let end = source.token_no(next);
    let Heading {
        parameters,
        modes,
        specifications,
    } = heading;
    Ok((
        Class {
            name,
            parameters,
            modes,
            specifications,
            protections,
            virtuals,
            body,
            end,
        },
        next,
    ))
}

// The statements of a block and its `end`, where no declaration begins.
#[cycle(statement)]
#[inline(never)]
fn sequence_at(source: &Source, at: usize, depth: u32) -> Result<(Sequence, usize), Stop>
    requires within { at < length source.now }
    requires shallow { depth ≤ LIMIT }
    requires no_declaration { NoDeclaration source.now at }
    ensures { GivesPart source.now depth g.Block at (λ s. statements_derivation (map statement_derivation s.statements.items) s.end.0) result }
{
    let end = source.token_no(at);
    if let Some(next) = source.eat(at, TokenKind::End) {
        let statements = Vec::new(source.allocator());
        return Ok((Sequence { statements, end }, next));
    }
    if !begins_statement(source.kind_at(at)) {
        return Err(Stop::Unexpected(at));
    }
    let (statements, next) = statements(source, at, depth)?;
    let end = source.token_no(next);
    let next = source.expect(next, TokenKind::End)?;
    Ok((Sequence { statements, end }, next))
}

// Statements with semicolons between them, at least one.
#[cycle(statement)]
#[inline(never)]
fn statements(source: &Source, start: usize, depth: u32) -> Result<(Vec<Stmt>, usize), Stop>
    requires within { start < length source.now }
    requires shallow { depth ≤ LIMIT }
    ensures { GivesStatements source.now depth start result }
{
    let mut list = Vec::new(source.allocator());
    let (first, mut at) = statement(source, start, depth)?;
    list.push(first)?;
    while let Some(next) = source.eat(at, TokenKind::Semicolon) {
        let (following, end) = statement(source, next, depth)?;
        list.push(following)?;
        at = end;
    }
    Ok((list, at))
}
