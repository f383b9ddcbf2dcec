//! The texts of a program, one after the other: each with its code, its block, and the record of its class.
ghost use Rattle.std.specs.Prelude.{[], OnOk};
ghost use Rattle.codegen_expr.specs.Known.{Known};
ghost use Rattle.program_texts.specs.TextTrees.{AreTexts};
ghost use Rattle.text_tables.specs.TokenTable.{AreDeclared};
ghost use Rattle.codegen.specs.EmitProgram.{AddsBlock, PutsClass, WritesBlockText, WritesProcedureText, WritesProgram, WritesText};

use crate::arrays::emit_arrays;
use crate::class_texts::{class_head, emit_class_text, emit_prefixed_text, emit_standard_text};
use crate::frames::{own_end, rest_of};
use crate::plan::copy_types;
use crate::records::{code_formals, is_class_free, number, type_of_name};
use crate::statement::{emit_statement, emit_statements};
use codegen_expr::{Cells, Draft, block_number, level_of, line_at, spot_in};
use program_texts::TextTree;
use sim_base::{DeclNo, Line};
use sim_code::{BlockKind, BlockRecord, CodeType, Instr};
use sim_scope::Bound;
use sim_tree::{Block, Stmt, TypeName};
use std::alloc::{AllocError, Global};

/// The class of a text, with the places of its code.
#[derive(Clone, Copy)]
pub(crate) struct ClassAt {
    /// The number of the class in front of it, or 0.
    pub prefix: u32,
    /// The block of its objects.
    pub block: u32,
    /// Where its declarations begin.
    pub declarations: u32,
    /// Where its statements begin.
    pub statements: u32,
    /// What stands behind its `inner`.
    pub after_inner: u32,
    /// Whether its objects are processes.
    pub process: bool,
}

/// What is written so far of a program.
#[derive(Drop)]
pub(crate) struct Written {
    /// The instructions, and what is planned of the blocks.
    pub draft: Draft,
    /// The records of the blocks.
    pub blocks: Vec<BlockRecord>,
    /// The classes by their numbers, from 1 on, where they are written.
    pub classes: Vec<Option<ClassAt>>,
}

/// What a text is in code.
#[derive(Clone, Copy)]
pub(crate) struct Head {
    /// The kind of its block.
    pub kind: BlockKind,
    /// The text.
    pub text: u32,
    /// Where its code begins.
    pub entry: u32,
    /// The type of its result.
    pub result_type: CodeType,
}

/// Adds the record of a text whose code is written. What was planned of it is enough for the code.
pub(crate) fn add_block(
    alloc: Global,
    bound: &Bound,
    cells: &Cells,
    written: &mut Written,
    head: Head,
) -> Result<(), AllocError>
    requires cells { Known bound.now cells.now }
    ensures { OnOk result (AddsBlock bound.now written.old written.new head) }
{
    let block = block_number(bound, cells, head.text);
    let Some(planned) = written.draft.planned().get(block as usize) else {
        return Err(AllocError);
    };
    let types = copy_types(alloc, &planned.types)?;
    let (class, count, room) = (planned.class, planned.cells, planned.room);
    let size = number(types.len())?;
    if size < written.draft.size() || room < written.draft.room() {
        return Err(AllocError);
    }
    let temps = rest_of(size, count)?;
    let formals = code_formals(alloc, bound, cells, &written.draft, head)?;
    written.blocks.push(BlockRecord {
        kind: head.kind,
        level: level_of(bound, head.text),
        cells: count,
        temps,
        room,
        entry: head.entry,
        class_free: is_class_free(bound, head.text),
        result_type: head.result_type,
        class,
        types,
        formals,
    })?;
    Ok(())
}

/// Puts a class in the place of its number, where none is yet.
pub(crate) fn put_class(written: &mut Written, class: u32, at: ClassAt) -> Result<(), AllocError>
    ensures { OnOk result (PutsClass written.old written.new class at) }
{
    if class == 0 {
        return Err(AllocError);
    }
    let place = class as usize - 1;
    match written.classes.get(place) {
        Some(None) => {}
        Some(Some(_)) => return Err(AllocError),
        None => return Err(AllocError),
    }
    written.classes[place] = Some(at);
    Ok(())
}

/// The code of the program's block, which is the first of all. It begins with a jump to the next instruction.
#[tactic(auto, using(crate::proofs::Walked::blocks))]
fn emit_program_text(
    alloc: Global,
    bound: &Bound,
    cells: &Cells,
    declared: &[Option<DeclNo>],
    written: &mut Written,
    block: &Block,
) -> Result<(), AllocError>
    requires cells { Known bound.now cells.now }
    requires declared { AreDeclared bound.now declared.now }
    ensures { OnOk result (WritesBlockText bound.now written.old written.new 0 block.now) }
{
    let used = own_end(alloc, bound, cells, &written.draft, 0)?;
    written.draft.restart(used);
    let spot = spot_in(0, used)?;
    let draft = &mut written.draft;
    draft.put(Instr::Jump(1), line_at(bound, block.token))?;
    emit_arrays(bound, cells, declared, spot, draft, &block.declarations)?;
    emit_statements(bound, cells, spot, draft, &block.statements)?;
    draft.put(Instr::EndLevel(0), Line(0))?;
    let head = Head {
        kind: BlockKind::SubBlock,
        text: 0,
        entry: 0,
        result_type: CodeType::Nothing,
    };
    add_block(alloc, bound, cells, written, head)?;
    Ok(())
}

/// The code of a block: the program's, which is the first text, or a sub-block.
#[tactic(auto, using(crate::proofs::Walked::blocks))]
fn emit_block_text(
    alloc: Global,
    bound: &Bound,
    cells: &Cells,
    declared: &[Option<DeclNo>],
    written: &mut Written,
    text: u32,
    block: &Block,
) -> Result<(), AllocError>
    requires cells { Known bound.now cells.now }
    requires declared { AreDeclared bound.now declared.now }
    ensures { OnOk result (WritesBlockText bound.now written.old written.new text block.now) }
{
    if text == 0 {
        return emit_program_text(alloc, bound, cells, declared, written, block);
    }
    let entry = number(written.draft.here())?;
    let used = own_end(alloc, bound, cells, &written.draft, text)?;
    written.draft.restart(used);
    let spot = spot_in(text, used)?;
    let draft = &mut written.draft;
    emit_arrays(bound, cells, declared, spot, draft, &block.declarations)?;
    emit_statements(bound, cells, spot, draft, &block.statements)?;
    draft.put(Instr::Leave, Line(0))?;
    let head = Head {
        kind: BlockKind::SubBlock,
        text,
        entry,
        result_type: CodeType::Nothing,
    };
    add_block(alloc, bound, cells, written, head)?;
    Ok(())
}

/// The code of a procedure.
#[tactic(auto, using(crate::proofs::Walked::blocks))]
fn emit_procedure_text(
    alloc: Global,
    bound: &Bound,
    cells: &Cells,
    written: &mut Written,
    text: u32,
    result_type: &Option<TypeName>,
    body: &Stmt,
) -> Result<(), AllocError>
    requires cells { Known bound.now cells.now }
    ensures { OnOk result (WritesProcedureText bound.now written.old written.new text result_type.now body.now) }
{
    let entry = number(written.draft.here())?;
    let used = own_end(alloc, bound, cells, &written.draft, text)?;
    written.draft.restart(used);
    let spot = spot_in(text, used)?;
    let draft = &mut written.draft;
    emit_statement(bound, cells, spot, draft, body)?;
    draft.put(Instr::Return, Line(0))?;
    let head = Head {
        kind: BlockKind::Procedure,
        text,
        entry,
        result_type: type_of_name(result_type),
    };
    add_block(alloc, bound, cells, written, head)?;
    Ok(())
}

/// The code of a text, by its number. The trees are those of all texts.
#[tactic(auto, using(crate::proofs::LevelTexts::texts))]
fn emit_text(
    alloc: Global,
    bound: &Bound,
    cells: &Cells,
    declared: &[Option<DeclNo>],
    written: &mut Written,
    trees: &[TextTree],
    text: u32,
    tree: TextTree,
) -> Result<(), AllocError>
    requires cells { Known bound.now cells.now }
    requires declared { AreDeclared bound.now declared.now }
    requires trees { AreTexts bound.now.program trees.now }
    ensures { OnOk result (WritesText bound.now written.old written.new text tree.entry) }
{
    match tree {
        TextTree::Block(block) => {
            emit_block_text(alloc, bound, cells, declared, written, text, block)
        }
        TextTree::Procedure { result, procedure } => {
            emit_procedure_text(alloc, bound, cells, written, text, result, &procedure.body)
        }
        TextTree::Class { block, .. } => {
            emit_class_text(
                alloc,
                bound,
                cells,
                declared,
                written,
                class_head(bound, text),
                &block.declarations,
                &block.statements,
            )
        }
        TextTree::ClassOfStatement { class, .. } => {
            emit_class_text(
                alloc,
                bound,
                cells,
                declared,
                written,
                class_head(bound, text),
                &[],
                std::slice::from_ref(&*class.body),
            )
        }
        TextTree::Prefixed { prefix, block } => {
            emit_prefixed_text(alloc, bound, cells, declared, written, text, prefix, block)
        }
        TextTree::Connection => Ok(()),
        TextTree::Standard(class) => {
            emit_standard_text(alloc, bound, cells, declared, written, trees, text, class)
        }
    }
}

/// The texts of a program in their order.
#[tactic(auto, using(crate::proofs::LevelTexts::texts))]
pub(crate) fn emit_texts(
    alloc: Global,
    bound: &Bound,
    cells: &Cells,
    declared: &[Option<DeclNo>],
    written: &mut Written,
    texts: &[TextTree],
) -> Result<(), AllocError>
    requires cells { Known bound.now cells.now }
    requires declared { AreDeclared bound.now declared.now }
    requires texts { AreTexts bound.now.program texts.now }
    ensures { OnOk result (WritesProgram bound.now written.old written.new texts.now) }
{
    for index in 0..texts.len() {
        let text = number(index)?;
        emit_text(
            alloc,
            bound,
            cells,
            declared,
            written,
            texts,
            text,
            texts[index],
        )?;
    }
    Ok(())
}
