//! The texts of a program in their order.
ghost use Rattle.std.specs.Prelude.{◌≡◌, IfOk, OnOk};
ghost use Rattle.program_texts.specs.TextTrees.{AreTexts, Lists, of_arm, of_block, of_branch, of_class, of_class_head, of_class_statement, of_declaration, of_inside, of_prefixed, of_statement};
ghost use Rattle.sim_scope.specs.Bodies.{classes_declared};
ghost use Rattle.sim_scope.specs.Runs.{each};
ghost use Rattle.sim_meaning.specs.Texts.{prefix_texts, standard_texts};

use crate::tree::TextTree;
use sim_scope::{StandardClass, StandardPrefix, standard_prefix};
use sim_tree::{Block, BlockPrefix, Class, Decl, Identifier, Program, Stmt, When};
use std::alloc::{AllocError, Global};

/// The classes that `simset` declares.
static CLASSES_OF_SETS: [StandardClass; 3] = [
    StandardClass::Linkage,
    StandardClass::Link,
    StandardClass::Head,
];

/// The classes that `simulation` declares.
static CLASSES_OF_SIMULATION: [StandardClass; 4] = [
    StandardClass::Linkage,
    StandardClass::Link,
    StandardClass::Head,
    StandardClass::Process,
];

/// The classes that a standard prefix declares.
fn classes_declared(prefix: Option<StandardPrefix>) -> &'static [StandardClass]
    ensures { result.now ≡ classes_declared prefix }
{
    match prefix {
        Some(StandardPrefix::Simset) => &CLASSES_OF_SETS,
        Some(StandardPrefix::Simulation) => &CLASSES_OF_SIMULATION,
        None => &[],
    }
}

/// The classes that are declared behind a class or block with a class of this identifier in front of it.
#[tactic(auto, using(crate::proofs::Lists::lists))]
fn standard(list: &mut Vec<TextTree>, class: &Identifier) -> Result<(), AllocError>
    ensures { OnOk result (Lists list.old.items list.new.items (standard_texts class.now.name)) }
{
    let classes = classes_declared(standard_prefix(class.name.as_bytes()));
    for item in classes {
        list.push(TextTree::Standard(*item))?;
    }
    Ok(())
}

/// The same where there may be no class in front.
#[tactic(auto, using(crate::proofs::Lists::lists))]
fn class_prefix(list: &mut Vec<TextTree>, prefix: &Option<Identifier>) -> Result<(), AllocError>
    ensures { OnOk result (Lists list.old.items list.new.items (prefix_texts prefix.now)) }
{
    match prefix {
        Some(class) => standard(list, class),
        None => Ok(()),
    }
}

/// A class with the declarations and statements of this block, without what stands inside.
#[tactic(auto, using(crate::proofs::Lists::lists))]
fn class_of_block<'a>(
    list: &mut Vec<TextTree<'a>>,
    prefix: &'a Option<Identifier>,
    class: &'a Class,
    block: &'a Block,
) -> Result<(), AllocError>
    ensures { OnOk result (Lists list.old.items list.new.items (of_class_head prefix.now class.now block.now)) }
{
    list.push(TextTree::Class {
        prefix,
        class,
        block,
    })?;
    class_prefix(list, prefix)
}

#[cycle(list)]
#[tactic(auto, using(crate::proofs::Lists::lists))]
fn statement<'a>(list: &mut Vec<TextTree<'a>>, stmt: &'a Stmt) -> Result<(), AllocError>
    ensures { OnOk result (Lists list.old.items list.new.items (of_statement stmt.now)) }
{
    match stmt {
        Stmt::Block { block } => self::block(list, block),
        Stmt::PrefixedBlock { prefix, block } => prefixed(list, prefix, block),
        Stmt::If {
            then_branch,
            else_branch,
            ..
        } => {
            statement(list, then_branch)?;
            branch(list, else_branch)
        }
        Stmt::While { body, .. } => statement(list, body),
        Stmt::For { body, .. } => statement(list, body),
        Stmt::ForReference { body, .. } => statement(list, body),
        Stmt::Inspect {
            body,
            otherwise,
            ..
        } => {
            list.push(TextTree::Connection)?;
            statement(list, body)?;
            branch(list, otherwise)
        }
        Stmt::InspectWhen {
            arms: whens,
            otherwise,
            ..
        } => {
            arms(list, whens)?;
            branch(list, otherwise)
        }
        Stmt::Empty { .. } => Ok(()),
        Stmt::Inner { .. } => Ok(()),
        Stmt::Call { .. } => Ok(()),
        Stmt::Assignment { .. } => Ok(()),
        Stmt::Activation { .. } => Ok(()),
    }
}

#[cycle(list)]
#[tactic(auto, using(crate::proofs::Lists::lists))]
fn branch<'a>(list: &mut Vec<TextTree<'a>>, stmt: &'a Option<Box<Stmt>>) -> Result<(), AllocError>
    ensures { OnOk result (Lists list.old.items list.new.items (of_branch stmt.now)) }
{
    match stmt {
        Some(stmt) => statement(list, stmt),
        None => Ok(()),
    }
}

#[cycle(list)]
#[tactic(auto, using(crate::proofs::Lists::lists))]
fn arms<'a>(list: &mut Vec<TextTree<'a>>, whens: &'a [When]) -> Result<(), AllocError>
    ensures { OnOk result (Lists list.old.items list.new.items (each of_arm whens.now)) }
{
    for item in whens {
        list.push(TextTree::Connection)?;
        statement(list, &item.body)?;
    }
    Ok(())
}

#[cycle(list)]
#[tactic(auto, using(crate::proofs::Lists::lists))]
fn statements<'a>(list: &mut Vec<TextTree<'a>>, stmts: &'a [Stmt]) -> Result<(), AllocError>
    ensures { OnOk result (Lists list.old.items list.new.items (each of_statement stmts.now)) }
{
    for item in stmts {
        statement(list, item)?;
    }
    Ok(())
}

/// A block. Without declarations it is none.
#[cycle(list)]
#[tactic(auto, using(crate::proofs::Lists::lists))]
fn block<'a>(list: &mut Vec<TextTree<'a>>, block: &'a Block) -> Result<(), AllocError>
    ensures { OnOk result (Lists list.old.items list.new.items (of_block block.now)) }
{
    if block.declarations.len() == 0 {
        return statements(list, &block.statements);
    }
    list.push(TextTree::Block(block))?;
    inside(list, block)
}

/// A block with a prefix.
#[cycle(list)]
#[tactic(auto, using(crate::proofs::Lists::lists))]
fn prefixed<'a>(
    list: &mut Vec<TextTree<'a>>,
    prefix: &'a BlockPrefix,
    block: &'a Block,
) -> Result<(), AllocError>
    ensures { OnOk result (Lists list.old.items list.new.items (of_prefixed prefix.now block.now)) }
{
    list.push(TextTree::Prefixed { prefix, block })?;
    standard(list, &prefix.class)?;
    inside(list, block)
}

/// What stands inside a block.
#[cycle(list)]
#[tactic(auto, using(crate::proofs::Lists::lists))]
fn inside<'a>(list: &mut Vec<TextTree<'a>>, block: &'a Block) -> Result<(), AllocError>
    ensures { OnOk result (Lists list.old.items list.new.items (of_inside block.now)) }
{
    declarations(list, &block.declarations)?;
    statements(list, &block.statements)
}

#[cycle(list)]
#[tactic(auto, using(crate::proofs::Lists::lists))]
fn declarations<'a>(list: &mut Vec<TextTree<'a>>, decls: &'a [Decl]) -> Result<(), AllocError>
    ensures { OnOk result (Lists list.old.items list.new.items (each of_declaration decls.now)) }
{
    for item in decls {
        declaration(list, item)?;
    }
    Ok(())
}

#[cycle(list)]
#[tactic(auto, using(crate::proofs::Lists::lists))]
fn declaration<'a>(list: &mut Vec<TextTree<'a>>, decl: &'a Decl) -> Result<(), AllocError>
    ensures { OnOk result (Lists list.old.items list.new.items (of_declaration decl.now)) }
{
    match decl {
        Decl::Variables { .. } => Ok(()),
        Decl::Arrays { .. } => Ok(()),
        Decl::Procedure {
            result,
            procedure,
            ..
        } => {
            list.push(TextTree::Procedure { result, procedure })?;
            statement(list, &procedure.body)
        }
        Decl::Class { prefix, class, .. } => self::class(list, prefix, class),
    }
}

/// A class. The `begin .. end` that is its body is no text of its own.
#[cycle(list)]
#[tactic(auto, using(crate::proofs::Lists::lists))]
fn class<'a>(
    list: &mut Vec<TextTree<'a>>,
    prefix: &'a Option<Identifier>,
    class: &'a Class,
) -> Result<(), AllocError>
    ensures { OnOk result (Lists list.old.items list.new.items (of_class prefix.now class.now)) }
{
    match &*class.body {
        Stmt::Block { block } => {
            class_of_block(list, prefix, class, block)?;
            inside(list, block)
        }
        Stmt::PrefixedBlock { .. } => class_of_statement(list, prefix, class),
        Stmt::If { .. } => class_of_statement(list, prefix, class),
        Stmt::While { .. } => class_of_statement(list, prefix, class),
        Stmt::For { .. } => class_of_statement(list, prefix, class),
        Stmt::ForReference { .. } => class_of_statement(list, prefix, class),
        Stmt::Inspect { .. } => class_of_statement(list, prefix, class),
        Stmt::InspectWhen { .. } => class_of_statement(list, prefix, class),
        Stmt::Empty { .. } => class_of_statement(list, prefix, class),
        Stmt::Inner { .. } => class_of_statement(list, prefix, class),
        Stmt::Call { .. } => class_of_statement(list, prefix, class),
        Stmt::Assignment { .. } => class_of_statement(list, prefix, class),
        Stmt::Activation { .. } => class_of_statement(list, prefix, class),
    }
}

/// A class whose body is another statement.
#[cycle(list)]
#[tactic(auto, using(crate::proofs::Lists::lists))]
fn class_of_statement<'a>(
    list: &mut Vec<TextTree<'a>>,
    prefix: &'a Option<Identifier>,
    class: &'a Class,
) -> Result<(), AllocError>
    ensures { OnOk result (Lists list.old.items list.new.items (of_class_statement prefix.now class.now)) }
{
    list.push(TextTree::ClassOfStatement { prefix, class })?;
    class_prefix(list, prefix)?;
    statement(list, &class.body)
}

/// The texts of a program in their order: its block, and what stands inside.
#[tactic(auto, using(crate::proofs::Lists::lists))]
pub fn texts_of<'a>(alloc: Global, program: &'a Program) -> Result<Vec<TextTree<'a>>, AllocError>
    ensures { IfOk result (λ texts. AreTexts program.now texts.items) }
{
    let mut list = Vec::new(alloc);
    match &program.prefix {
        Some(prefix) => prefixed(&mut list, prefix, &program.block)?,
        None => {
            list.push(TextTree::Block(&program.block))?;
            inside(&mut list, &program.block)?;
        }
    }
    Ok(list)
}
