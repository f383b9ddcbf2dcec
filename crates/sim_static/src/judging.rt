//! The walk of the last round.
ghost use Rattle.sim_scope.specs.Runs.{each};
ghost use Rattle.sim_scope.specs.Statements.{judging};
ghost use Rattle.sim_scope.specs.Walk.{of_arm, of_block, of_branch, of_class_body, of_declaration, of_statement, of_whole};
ghost use Rattle.sim_static.specs.StatementWalk.{Tells};

use crate::activation::activation;
use crate::assignment::assignment;
use crate::bounds::{declared_type, result_type, segments, variables};
use crate::connection::{inspect, inspect_when};
use crate::control::{references, values};
use crate::prefix::{block_prefix, class_prefix};
use crate::statement::{call, required};
use sim_scope::{Extent, Found, Position, Scopes, SimType};
use sim_tree::{Block, Decl, Stmt, When};

/// A statement.
#[cycle(judging)]
#[tactic(auto, using(crate::proofs::Tellings::tellings))]
fn statement(scopes: &Scopes, found: &mut Found, position: Position, stmt: &Stmt)
    ensures { Tells found.old found.new (of_statement (judging scopes.now) position stmt.now) }
{
    match stmt {
        Stmt::Block { block } => match position {
            Position::ClassBody => class_body(scopes, found, block),
            Position::ClassStatement => self::block(scopes, found, block),
            Position::Inside => self::block(scopes, found, block),
        },
        Stmt::PrefixedBlock { prefix, block } => {
            block_prefix(scopes, found, prefix, block.token);
            whole(scopes, found, block);
        }
        Stmt::Call { call: expr } => call(scopes, found, expr),
        Stmt::Assignment { left, rest } => assignment(scopes, found, left, rest),
        Stmt::If {
            condition,
            then_branch,
            else_branch,
            ..
        } => {
            required(
                scopes,
                Extent::Statement,
                found,
                SimType::Boolean,
                condition,
            );
            statement(scopes, found, Position::Inside, then_branch);
            branch(scopes, found, else_branch);
        }
        Stmt::While {
            condition,
            body,
            ..
        } => {
            required(
                scopes,
                Extent::Statement,
                found,
                SimType::Boolean,
                condition,
            );
            statement(scopes, found, Position::Inside, body);
        }
        Stmt::For {
            variable,
            elements,
            body,
            ..
        } => {
            values(scopes, found, variable, elements);
            statement(scopes, found, Position::Inside, body);
        }
        Stmt::ForReference {
            variable,
            elements,
            body,
            ..
        } => {
            references(scopes, found, variable, elements);
            statement(scopes, found, Position::Inside, body);
        }
        Stmt::Inspect {
            token,
            object,
            body,
            otherwise,
            ..
        } => {
            inspect(scopes, found, *token, object);
            statement(scopes, found, Position::Inside, body);
            branch(scopes, found, otherwise);
        }
        Stmt::InspectWhen {
            token,
            object,
            arms: list,
            otherwise,
        } => {
            inspect_when(scopes, found, *token, object, list);
            arms(scopes, found, list);
            branch(scopes, found, otherwise);
        }
        Stmt::Inner { .. } => {}
        Stmt::Empty { .. } => {}
        Stmt::Activation {
            token,
            process,
            timing,
            ..
        } => activation(scopes, found, *token, process, timing),
    }
}

#[cycle(judging)]
#[tactic(auto, using(crate::proofs::Tellings::tellings))]
fn branch(scopes: &Scopes, found: &mut Found, stmt: &Option<Box<Stmt>>)
    ensures { Tells found.old found.new (of_branch (judging scopes.now) stmt.now) }
{
    match stmt {
        Some(stmt) => statement(scopes, found, Position::Inside, stmt),
        None => {}
    }
}

#[cycle(judging)]
#[tactic(auto, using(crate::proofs::Tellings::tellings))]
fn arms(scopes: &Scopes, found: &mut Found, list: &[When])
    ensures { Tells found.old found.new (each (of_arm (judging scopes.now)) list.now) }
{
    for item in list {
        statement(scopes, found, Position::Inside, &item.body);
    }
}

#[cycle(judging)]
#[tactic(auto, using(crate::proofs::Tellings::tellings))]
fn statements(scopes: &Scopes, found: &mut Found, position: Position, list: &[Stmt])
    ensures { Tells found.old found.new (each (of_statement (judging scopes.now) position) list.now) }
{
    for item in list {
        statement(scopes, found, position, item);
    }
}

/// A block, or a compound statement.
#[cycle(judging)]
#[tactic(auto, using(crate::proofs::Tellings::tellings))]
fn block(scopes: &Scopes, found: &mut Found, block: &Block)
    ensures { Tells found.old found.new (of_block (judging scopes.now) block.now) }
{
    if block.declarations.is_empty() {
        return statements(scopes, found, Position::Inside, &block.statements);
    }
    declarations(scopes, found, &block.declarations);
    statements(scopes, found, Position::Inside, &block.statements);
}

/// What is inside a block that is one also without declarations.
#[cycle(judging)]
#[tactic(auto, using(crate::proofs::Tellings::tellings))]
pub(crate) fn whole(scopes: &Scopes, found: &mut Found, block: &Block)
    ensures { Tells found.old found.new (of_whole (judging scopes.now) block.now) }
{
    declarations(scopes, found, &block.declarations);
    statements(scopes, found, Position::Inside, &block.statements);
}

/// The body of a class.
#[cycle(judging)]
#[tactic(auto, using(crate::proofs::Tellings::tellings))]
fn class_body(scopes: &Scopes, found: &mut Found, block: &Block)
    ensures { Tells found.old found.new (of_class_body (judging scopes.now) block.now) }
{
    declarations(scopes, found, &block.declarations);
    statements(scopes, found, Position::ClassStatement, &block.statements);
}

#[cycle(judging)]
#[tactic(auto, using(crate::proofs::Tellings::tellings))]
fn declarations(scopes: &Scopes, found: &mut Found, list: &[Decl])
    ensures { Tells found.old found.new (each (of_declaration (judging scopes.now)) list.now) }
{
    for item in list {
        declaration(scopes, found, item);
    }
}

#[cycle(judging)]
#[tactic(auto, using(crate::proofs::Tellings::tellings))]
fn declaration(scopes: &Scopes, found: &mut Found, decl: &Decl)
    ensures { Tells found.old found.new (of_declaration (judging scopes.now) decl.now) }
{
    match decl {
        Decl::Variables {
            type_name,
            variables: list,
        } => {
            declared_type(scopes, found, type_name);
            variables(found, type_name, list);
        }
        Decl::Arrays {
            type_name,
            segments: list,
            ..
        } => {
            declared_type(scopes, found, type_name);
            segments(scopes, found, list);
        }
        Decl::Procedure {
            result: type_name,
            procedure,
            ..
        } => {
            result_type(scopes, found, type_name);
            statement(scopes, found, Position::Inside, &procedure.body)
        }
        Decl::Class { prefix, class, .. } => {
            class_prefix(scopes, found, prefix, class.name.token);
            statement(scopes, found, Position::ClassBody, &class.body);
        }
    }
}
