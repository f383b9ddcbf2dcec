// The tokens of statements, blocks and declarations.
ghost use Rattle.std.specs.Prelude.{◌≡◌, OnOk};
ghost use Rattle.sim_tree.specs.ProgramDerivation.{activation_kind, assignment_kind};
ghost use Rattle.sim_print.specs.Laid.{Prints};
ghost use Rattle.sim_print.specs.Spelling.{each};
ghost use Rattle.sim_print.specs.Trees.{before_semicolon, of_arm, of_assigned, of_block, of_branch, of_declaration, of_element, of_elements, of_prefix, of_reference_element, of_reference_elements, of_statement, of_statements, of_timing};

use crate::expression::{actuals, expression};
use crate::layout::Layout;
use crate::parts::{
    class_prefix, heading, mark, protections, result_type, segments, type_name, variables, virtuals,
};
use sim_base::TokenKind;
use sim_tree::{
    Activation, Assigned, Assignment, Block, BlockPrefix, Decl, ForElement, ReferenceElement, Stmt,
    Timing, When,
};
use std::alloc::AllocError;

// ---- parts of statements

fn assignment_kind(sign: Assignment) -> TokenKind
    ensures { result ≡ assignment_kind sign }
{
    match sign {
        Assignment::Value => TokenKind::Assign,
        Assignment::Reference => TokenKind::AssignReference,
    }
}

fn activation_kind(word: Activation) -> TokenKind
    ensures { result ≡ activation_kind word }
{
    match word {
        Activation::Activate => TokenKind::Activate,
        Activation::Reactivate => TokenKind::Reactivate,
    }
}

#[tactic(auto, using(crate::proofs::StatementParts::statement_part_rules))]
fn right_sides(layout: &mut Layout, list: &[Assigned]) -> Result<(), AllocError>
    ensures { OnOk result (Prints layout.old layout.new (each of_assigned list.now)) }
{
    for item in list {
        layout.word(assignment_kind(item.sign))?;
        expression(layout, &item.value)?;
    }
    Ok(())
}

#[tactic(auto, using(crate::proofs::StatementParts::statement_part_rules))]
fn element(layout: &mut Layout, element: &ForElement) -> Result<(), AllocError>
    ensures { OnOk result (Prints layout.old layout.new (of_element element.now)) }
{
    match element {
        ForElement::Value { value } => expression(layout, value),
        ForElement::Step {
            start,
            step,
            limit,
            ..
        } => {
            expression(layout, start)?;
            layout.word(TokenKind::Step)?;
            expression(layout, step)?;
            layout.word(TokenKind::Until)?;
            expression(layout, limit)
        }
        ForElement::While {
            value,
            condition,
            ..
        } => {
            expression(layout, value)?;
            layout.word(TokenKind::While)?;
            expression(layout, condition)
        }
    }
}

#[tactic(auto, using(crate::proofs::StatementParts::statement_part_rules))]
fn elements(layout: &mut Layout, list: &[ForElement]) -> Result<(), AllocError>
    ensures { OnOk result (Prints layout.old layout.new (of_elements list.now)) }
{
    let Some((first, rest)) = list.split_first() else {
        return Ok(());
    };
    element(layout, first)?;
    for item in rest {
        layout.word(TokenKind::Comma)?;
        element(layout, item)?;
    }
    Ok(())
}

#[tactic(auto, using(crate::proofs::StatementParts::statement_part_rules))]
fn reference_element(layout: &mut Layout, element: &ReferenceElement) -> Result<(), AllocError>
    ensures { OnOk result (Prints layout.old layout.new (of_reference_element element.now)) }
{
    match element {
        ReferenceElement::Value { value } => expression(layout, value),
        ReferenceElement::While {
            value,
            condition,
            ..
        } => {
            expression(layout, value)?;
            layout.word(TokenKind::While)?;
            expression(layout, condition)
        }
    }
}

#[tactic(auto, using(crate::proofs::StatementParts::statement_part_rules))]
fn reference_elements(layout: &mut Layout, list: &[ReferenceElement]) -> Result<(), AllocError>
    ensures { OnOk result (Prints layout.old layout.new (of_reference_elements list.now)) }
{
    let Some((first, rest)) = list.split_first() else {
        return Ok(());
    };
    reference_element(layout, first)?;
    for item in rest {
        layout.word(TokenKind::Comma)?;
        reference_element(layout, item)?;
    }
    Ok(())
}

// When a process is scheduled for, where that is written.
#[tactic(auto, using(crate::proofs::StatementParts::statement_part_rules))]
fn timing(layout: &mut Layout, timing: &Option<Timing>) -> Result<(), AllocError>
    ensures { OnOk result (Prints layout.old layout.new (of_timing timing.now)) }
{
    match timing {
        None => Ok(()),
        Some(Timing::At { time, prior, .. }) => {
            layout.word(TokenKind::At)?;
            expression(layout, time)?;
            mark(layout, TokenKind::Prior, prior)
        }
        Some(Timing::Delay { time, prior, .. }) => {
            layout.word(TokenKind::Delay)?;
            expression(layout, time)?;
            mark(layout, TokenKind::Prior, prior)
        }
        Some(Timing::Before { process, .. }) => {
            layout.word(TokenKind::Before)?;
            expression(layout, process)
        }
        Some(Timing::After { process, .. }) => {
            layout.word(TokenKind::After)?;
            expression(layout, process)
        }
    }
}

/// The class in front of a block, with its actual parameters.
#[tactic(auto, using(crate::proofs::StatementParts::statement_part_rules))]
pub(crate) fn block_prefix(layout: &mut Layout, prefix: &BlockPrefix) -> Result<(), AllocError>
    ensures { OnOk result (Prints layout.old layout.new (of_prefix prefix.now)) }
{
    layout.name(&prefix.class)?;
    actuals(layout, &prefix.arguments)
}

// ---- statements, blocks and declarations

#[cycle(statement)]
#[tactic(auto, using(crate::proofs::Statements::statement_rules))]
fn statement(layout: &mut Layout, tree: &Stmt) -> Result<(), AllocError>
    ensures { OnOk result (Prints layout.old layout.new (of_statement tree.now)) }
{
    match tree {
        Stmt::Empty { .. } => Ok(()),
        Stmt::Block { block: tree } => block(layout, tree),
        Stmt::PrefixedBlock {
            prefix,
            block: tree,
        } => {
            block_prefix(layout, prefix)?;
            block(layout, tree)
        }
        Stmt::Inner { .. } => layout.word(TokenKind::Inner),
        Stmt::Call { call } => expression(layout, call),
        Stmt::Assignment { left, rest } => {
            expression(layout, left)?;
            right_sides(layout, rest)
        }
        Stmt::If {
            condition,
            then_branch,
            else_branch,
            ..
        } => {
            layout.word(TokenKind::If)?;
            expression(layout, condition)?;
            layout.word(TokenKind::Then)?;
            statement(layout, then_branch)?;
            branch(layout, TokenKind::Else, else_branch)
        }
        Stmt::While {
            condition,
            body,
            ..
        } => {
            layout.word(TokenKind::While)?;
            expression(layout, condition)?;
            layout.word(TokenKind::Do)?;
            statement(layout, body)
        }
        Stmt::For {
            variable,
            elements: list,
            body,
            ..
        } => {
            layout.word(TokenKind::For)?;
            layout.name(variable)?;
            layout.word(TokenKind::Assign)?;
            elements(layout, list)?;
            layout.word(TokenKind::Do)?;
            statement(layout, body)
        }
        Stmt::ForReference {
            variable,
            elements: list,
            body,
            ..
        } => {
            layout.word(TokenKind::For)?;
            layout.name(variable)?;
            layout.word(TokenKind::AssignReference)?;
            reference_elements(layout, list)?;
            layout.word(TokenKind::Do)?;
            statement(layout, body)
        }
        Stmt::Inspect {
            object,
            body,
            otherwise,
            ..
        } => {
            layout.word(TokenKind::Inspect)?;
            expression(layout, object)?;
            layout.word(TokenKind::Do)?;
            statement(layout, body)?;
            branch(layout, TokenKind::Otherwise, otherwise)
        }
        Stmt::InspectWhen {
            object,
            arms: list,
            otherwise,
            ..
        } => {
            layout.word(TokenKind::Inspect)?;
            expression(layout, object)?;
            arms(layout, list)?;
            branch(layout, TokenKind::Otherwise, otherwise)
        }
        Stmt::Activation {
            activation,
            process,
            timing: time,
            ..
        } => {
            layout.word(activation_kind(*activation))?;
            expression(layout, process)?;
            timing(layout, time)
        }
    }
}

// The statement behind `else` or `otherwise`, where there is one.
#[cycle(statement)]
#[tactic(auto, using(crate::proofs::Statements::statement_rules))]
fn branch(layout: &mut Layout, word: TokenKind, tree: &Option<Box<Stmt>>) -> Result<(), AllocError>
    ensures { OnOk result (Prints layout.old layout.new (of_branch word tree.now)) }
{
    match tree {
        Some(tree) => {
            layout.word(word)?;
            statement(layout, tree)
        }
        None => Ok(()),
    }
}

#[cycle(statement)]
#[tactic(auto, using(crate::proofs::Statements::statement_rules))]
fn arms(layout: &mut Layout, list: &[When]) -> Result<(), AllocError>
    ensures { OnOk result (Prints layout.old layout.new (each of_arm list.now)) }
{
    for item in list {
        layout.word(TokenKind::When)?;
        layout.name(&item.class)?;
        layout.word(TokenKind::Do)?;
        statement(layout, &item.body)?;
    }
    Ok(())
}

/// A block.
#[cycle(statement)]
#[tactic(auto, using(crate::proofs::Statements::statement_rules))]
pub(crate) fn block(layout: &mut Layout, tree: &Block) -> Result<(), AllocError>
    ensures { OnOk result (Prints layout.old layout.new (of_block tree.now)) }
{
    layout.word(TokenKind::Begin)?;
    declarations(layout, &tree.declarations)?;
    statements(layout, &tree.statements)?;
    layout.word(TokenKind::End)
}

#[cycle(statement)]
#[tactic(auto, using(crate::proofs::Statements::statement_rules))]
fn statements(layout: &mut Layout, list: &[Stmt]) -> Result<(), AllocError>
    ensures { OnOk result (Prints layout.old layout.new (of_statements list.now)) }
{
    let Some((first, rest)) = list.split_first() else {
        return Ok(());
    };
    statement(layout, first)?;
    for item in rest {
        layout.word(TokenKind::Semicolon)?;
        statement(layout, item)?;
    }
    Ok(())
}

#[cycle(statement)]
#[tactic(auto, using(crate::proofs::Statements::statement_rules))]
fn declarations(layout: &mut Layout, list: &[Decl]) -> Result<(), AllocError>
    ensures { OnOk result (Prints layout.old layout.new (each before_semicolon list.now)) }
{
    for item in list {
        declaration(layout, item)?;
        layout.word(TokenKind::Semicolon)?;
    }
    Ok(())
}

#[cycle(statement)]
#[tactic(auto, using(crate::proofs::Statements::statement_rules))]
fn declaration(layout: &mut Layout, tree: &Decl) -> Result<(), AllocError>
    ensures { OnOk result (Prints layout.old layout.new (of_declaration tree.now)) }
{
    match tree {
        Decl::Variables {
            type_name: name,
            variables: list,
        } => {
            type_name(layout, name)?;
            variables(layout, list)
        }
        Decl::Arrays {
            type_name: name,
            segments: list,
            ..
        } => {
            type_name(layout, name)?;
            layout.word(TokenKind::Array)?;
            segments(layout, list)
        }
        Decl::Procedure {
            result,
            procedure,
            ..
        } => {
            result_type(layout, result)?;
            layout.word(TokenKind::Procedure)?;
            heading(
                layout,
                &procedure.name,
                &procedure.parameters,
                &procedure.modes,
                &procedure.specifications,
            )?;
            statement(layout, &procedure.body)
        }
        Decl::Class { prefix, class, .. } => {
            class_prefix(layout, prefix)?;
            layout.word(TokenKind::Class)?;
            heading(
                layout,
                &class.name,
                &class.parameters,
                &class.modes,
                &class.specifications,
            )?;
            protections(layout, &class.protections)?;
            virtuals(layout, &class.virtuals)?;
            statement(layout, &class.body)
        }
    }
}
