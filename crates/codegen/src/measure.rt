//! A first writing of texts, which tells what their frames take.
ghost use Rattle.codegen_expr.specs.Known.{Known};
ghost use Rattle.text_tables.specs.TokenTable.{AreDeclared};

use crate::arrays::emit_arrays;
use crate::levels::{emit_level, has_inner};
use crate::processes::emit_detached;
use crate::statement::{emit_statement, emit_statements};
use codegen_expr::{Cells, Draft, Spot, spot_in};
use program_texts::TextTree;
use sim_base::DeclNo;
use sim_code::BlockKind;
use sim_scope::{Bound, StandardClass};
use sim_tree::{Decl, Stmt};
use std::alloc::{AllocError, Global};

/// What the code of a text takes.
#[derive(Clone, Copy)]
pub(crate) struct Measured {
    /// How many values are on the operand stack at most.
    pub room: u32,
    /// How many temps it has.
    pub temps: u32,
}

/// Declarations and statements of a block.
fn measure_block(
    bound: &Bound,
    cells: &Cells,
    declared: &[Option<DeclNo>],
    spot: Spot,
    draft: &mut Draft,
    declarations: &[Decl],
    statements: &[Stmt],
) -> Result<(), AllocError>
    requires cells { Known bound.now cells.now }
    requires declared { AreDeclared bound.now declared.now }
{
    emit_arrays(bound, cells, declared, spot, draft, declarations)?;
    emit_statements(bound, cells, spot, draft, statements)
}

/// Declarations and statements of a class or a prefixed block.
fn measure_class(
    bound: &Bound,
    cells: &Cells,
    declared: &[Option<DeclNo>],
    spot: Spot,
    draft: &mut Draft,
    kind: BlockKind,
    declarations: &[Decl],
    statements: &[Stmt],
) -> Result<(), AllocError>
    requires cells { Known bound.now cells.now }
    requires declared { AreDeclared bound.now declared.now }
{
    emit_arrays(bound, cells, declared, spot, draft, declarations)?;
    let among = has_inner(bound, spot.text, kind);
    emit_level(bound, cells, spot, 0, among, draft, statements)?;
    Ok(())
}

/// Writes a text.
fn measure_tree(
    bound: &Bound,
    cells: &Cells,
    declared: &[Option<DeclNo>],
    spot: Spot,
    draft: &mut Draft,
    tree: TextTree,
) -> Result<(), AllocError>
    requires cells { Known bound.now cells.now }
    requires declared { AreDeclared bound.now declared.now }
{
    match tree {
        TextTree::Block(block) => {
            measure_block(
                bound,
                cells,
                declared,
                spot,
                draft,
                &block.declarations,
                &block.statements,
            )
        }
        TextTree::Procedure { procedure, .. } => {
            emit_statement(bound, cells, spot, draft, &procedure.body)
        }
        TextTree::Class { block, .. } => {
            measure_class(
                bound,
                cells,
                declared,
                spot,
                draft,
                BlockKind::Object,
                &block.declarations,
                &block.statements,
            )
        }
        TextTree::ClassOfStatement { class, .. } => {
            measure_class(
                bound,
                cells,
                declared,
                spot,
                draft,
                BlockKind::Object,
                &[],
                std::slice::from_ref(&*class.body),
            )
        }
        TextTree::Prefixed { block, .. } => {
            measure_class(
                bound,
                cells,
                declared,
                spot,
                draft,
                BlockKind::Prefixed,
                &block.declarations,
                &block.statements,
            )
        }
        TextTree::Connection => Ok(()),
        // behind `inner` of the class `process` there are two values at most
        TextTree::Standard(StandardClass::Process) => {
            emit_detached(bound, spot, draft)?;
            draft.make_room(1)
        }
        TextTree::Standard(_) => Ok(()),
    }
}

/// What the code of a text takes, as if its frames had no cells.
pub(crate) fn measure_text(
    alloc: Global,
    bound: &Bound,
    cells: &Cells,
    declared: &[Option<DeclNo>],
    text: u32,
    tree: TextTree,
) -> Result<Measured, AllocError>
    requires cells { Known bound.now cells.now }
    requires declared { AreDeclared bound.now declared.now }
{
    let mut draft = Draft::new(alloc, Vec::new(alloc));
    draft.restart(0);
    measure_tree(bound, cells, declared, spot_in(text, 0)?, &mut draft, tree)?;
    Ok(Measured {
        room: draft.room(),
        temps: draft.size(),
    })
}
