//! The declarations of a program: the first round of the static rules.
ghost use Rattle.std.specs.Prelude.{◌≡◌, IfOk, OnOk, option_map};
ghost use Rattle.sim_tree.specs.SyntaxOfProgram.{prefix_syntax};
ghost use Rattle.sim_scope.specs.Building.{marked};
ghost use Rattle.sim_scope.specs.Declare.{declarations_of, declaring, inner_marks, program_marks};
ghost use Rattle.sim_scope.specs.Runs.{Runs, each};
ghost use Rattle.sim_scope.specs.Walk.{of_arm, of_block, of_branch, of_class_body, of_declaration, of_statement, of_whole};
ghost use Rattle.sim_scope.specs.declared.types.Position.TheVariants as position;

use crate::building::Building;
use crate::found::Fault;
use crate::parts::{self, heading, prefixed, protections, segments, variables, virtuals};
use crate::scopes::Scopes;
use crate::types::{BlockKind, Position};
use sim_base::{Memory, Rule, TokenNo};
use sim_tree::{Block, BlockPrefix, Decl, Program, Stmt, When};
use std::alloc::{AllocError, Global};

/// What a program declares: its tables, and the least rule that its declarations break. The tables are there also where one is broken;
/// of an identifier that is declared twice in a block they have the first.
#[derive(Drop)]
pub struct Declared {
    /// The tables.
    pub scopes: Scopes,
    /// The least broken rule of `S1`, `S4`, `S5`, `S6`, `L1` and `L3`.
    pub broken: Option<Fault>,
}

/// An `inner`.
#[tactic(auto, using(crate::proofs::Declarations::declares))]
fn inner(tables: &mut Building, position: Position, token: TokenNo)
    ensures { Runs marked tables.old tables.new (inner_marks position token.0) }
{
    match position {
        Position::ClassStatement => tables.inner(token),
        Position::ClassBody => tables.note(token, Rule::InnerOutOfPlace),
        Position::Inside => tables.note(token, Rule::InnerOutOfPlace),
    }
}

/// A statement, whose blocks declare.
#[cycle(declare)]
#[tactic(auto, using(crate::proofs::Declarations::declares))]
fn statement(
    alloc: Global,
    tables: &mut Building,
    position: Position,
    stmt: &Stmt,
) -> Result<(), AllocError>
    ensures { OnOk result (Runs marked tables.old tables.new (of_statement declaring position stmt.now)) }
{
    match stmt {
        Stmt::Block { block } => match position {
            Position::ClassBody => class_body(alloc, tables, block),
            Position::ClassStatement => self::block(alloc, tables, block),
            Position::Inside => self::block(alloc, tables, block),
        },
        Stmt::PrefixedBlock { prefix, block } => {
            prefixed(alloc, tables, &prefix.class, block.token)?;
            whole(alloc, tables, block)
        }
        Stmt::If {
            then_branch,
            else_branch,
            ..
        } => {
            statement(alloc, tables, Position::Inside, then_branch)?;
            branch(alloc, tables, else_branch)
        }
        Stmt::While { body, .. } => statement(alloc, tables, Position::Inside, body),
        Stmt::For { body, .. } => statement(alloc, tables, Position::Inside, body),
        Stmt::ForReference { body, .. } => statement(alloc, tables, Position::Inside, body),
        Stmt::Inspect {
            opening,
            body,
            end,
            otherwise,
            ..
        } => {
            tables.open(alloc, BlockKind::Connection, *opening, *opening)?;
            statement(alloc, tables, Position::Inside, body)?;
            tables.close(*end)?;
            branch(alloc, tables, otherwise)
        }
        Stmt::InspectWhen {
            arms: list,
            otherwise,
            ..
        } => {
            arms(alloc, tables, list)?;
            branch(alloc, tables, otherwise)
        }
        Stmt::Inner { token } => {
            inner(tables, position, *token);
            Ok(())
        }
        Stmt::Empty { .. } => Ok(()),
        Stmt::Call { .. } => Ok(()),
        Stmt::Assignment { .. } => Ok(()),
        Stmt::Activation { .. } => Ok(()),
    }
}

#[cycle(declare)]
#[tactic(auto, using(crate::proofs::Declarations::declares))]
fn branch(alloc: Global, tables: &mut Building, stmt: &Option<Box<Stmt>>) -> Result<(), AllocError>
    ensures { OnOk result (Runs marked tables.old tables.new (of_branch declaring stmt.now)) }
{
    match stmt {
        Some(stmt) => statement(alloc, tables, Position::Inside, stmt),
        None => Ok(()),
    }
}

#[cycle(declare)]
#[tactic(auto, using(crate::proofs::Declarations::declares))]
fn arms(alloc: Global, tables: &mut Building, list: &[When]) -> Result<(), AllocError>
    ensures { OnOk result (Runs marked tables.old tables.new (each (of_arm declaring) list.now)) }
{
    for item in list {
        tables.open(alloc, BlockKind::Connection, item.opening, item.opening)?;
        statement(alloc, tables, Position::Inside, &item.body)?;
        tables.close(item.end)?;
    }
    Ok(())
}

#[cycle(declare)]
#[tactic(auto, using(crate::proofs::Declarations::declares))]
fn statements(
    alloc: Global,
    tables: &mut Building,
    position: Position,
    list: &[Stmt],
) -> Result<(), AllocError>
    ensures { OnOk result (Runs marked tables.old tables.new (each (of_statement declaring position) list.now)) }
{
    for item in list {
        statement(alloc, tables, position, item)?;
    }
    Ok(())
}

/// A block. Without declarations it is none.
#[cycle(declare)]
#[tactic(auto, using(crate::proofs::Declarations::declares))]
fn block(alloc: Global, tables: &mut Building, block: &Block) -> Result<(), AllocError>
    ensures { OnOk result (Runs marked tables.old tables.new (of_block declaring block.now)) }
{
    if block.declarations.is_empty() {
        return statements(alloc, tables, Position::Inside, &block.statements);
    }
    tables.open(alloc, BlockKind::SubBlock, block.token, block.token)?;
    declarations(alloc, tables, &block.declarations)?;
    statements(alloc, tables, Position::Inside, &block.statements)?;
    tables.close(block.end)
}

/// A block that is one also without declarations, behind its beginning.
#[cycle(declare)]
#[tactic(auto, using(crate::proofs::Declarations::declares))]
fn whole(alloc: Global, tables: &mut Building, block: &Block) -> Result<(), AllocError>
    ensures { OnOk result (Runs marked tables.old tables.new (of_whole declaring block.now)) }
{
    declarations(alloc, tables, &block.declarations)?;
    statements(alloc, tables, Position::Inside, &block.statements)?;
    tables.close(block.end)
}

/// The body of a class: its declarations are those of the class.
#[cycle(declare)]
#[tactic(auto, using(crate::proofs::Declarations::declares))]
fn class_body(alloc: Global, tables: &mut Building, block: &Block) -> Result<(), AllocError>
    ensures { OnOk result (Runs marked tables.old tables.new (of_class_body declaring block.now)) }
{
    declarations(alloc, tables, &block.declarations)?;
    statements(alloc, tables, Position::ClassStatement, &block.statements)
}

#[cycle(declare)]
#[tactic(auto, using(crate::proofs::Declarations::declares))]
fn declarations(alloc: Global, tables: &mut Building, list: &[Decl]) -> Result<(), AllocError>
    ensures { OnOk result (Runs marked tables.old tables.new (each (of_declaration declaring) list.now)) }
{
    for item in list {
        declaration(alloc, tables, item)?;
    }
    Ok(())
}

#[cycle(declare)]
#[tactic(auto, using(crate::proofs::Declarations::declares))]
fn declaration(alloc: Global, tables: &mut Building, decl: &Decl) -> Result<(), AllocError>
    ensures { OnOk result (Runs marked tables.old tables.new (of_declaration declaring decl.now)) }
{
    match decl {
        Decl::Variables {
            type_name,
            variables: list,
        } => variables(alloc, tables, type_name, list),
        Decl::Arrays {
            type_name,
            segments: list,
            ..
        } => segments(alloc, tables, type_name, list),
        Decl::Procedure {
            result: type_name,
            token,
            procedure,
        } => {
            parts::procedure(alloc, tables, type_name, *token, &procedure.name)?;
            heading(
                alloc,
                tables,
                &procedure.parameters,
                &procedure.modes,
                &procedure.specifications,
            )?;
            statement(alloc, tables, Position::Inside, &procedure.body)?;
            tables.close(procedure.end)
        }
        Decl::Class {
            prefix,
            token,
            class,
        } => {
            parts::class(alloc, tables, prefix, *token, &class.name)?;
            heading(
                alloc,
                tables,
                &class.parameters,
                &class.modes,
                &class.specifications,
            )?;
            protections(alloc, tables, &class.protections)?;
            virtuals(alloc, tables, &class.virtuals)?;
            statement(alloc, tables, Position::ClassBody, &class.body)?;
            tables.close(class.end)
        }
    }
}

/// The beginning of the program's block.
#[tactic(auto, using(crate::proofs::Declarations::declares))]
fn program_block(
    alloc: Global,
    tables: &mut Building,
    prefix: &Option<BlockPrefix>,
    begin: TokenNo,
) -> Result<(), AllocError>
    ensures { OnOk result (Runs marked tables.old tables.new (program_marks (option_map prefix_syntax prefix.now) begin.0)) }
{
    match prefix {
        Some(prefix) => prefixed(alloc, tables, &prefix.class, begin),
        None => tables.open(alloc, BlockKind::Program, begin, begin),
    }
}

/// The tables of a program, and the first rule that its declarations break.
#[tactic(auto, using(crate::proofs::Declarations::declared))]
pub fn declare(alloc: Global, program: &Program) -> Result<Declared, Memory>
    ensures tables { IfOk result (λ declared. declared.scopes ≡ (declarations_of program.now).tables) }
    ensures broken { IfOk result (λ declared. declared.broken ≡ (declarations_of program.now).least) }
{
    let mut tables = Building::new(alloc);
    program_block(alloc, &mut tables, &program.prefix, program.block.token)?;
    whole(alloc, &mut tables, &program.block)?;
    let (scopes, broken) = tables.finish();
    Ok(Declared { scopes, broken })
}
