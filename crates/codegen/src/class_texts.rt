//! Texts with levels, each with its code, its block and the record of its class: classes, and the program and blocks with a prefix.
ghost use Rattle.std.specs.Prelude.{◌≡◌, OnOk, false};
ghost use Rattle.sim_code.specs.declared.code.BlockKind.TheVariants as kind;
ghost use Rattle.sim_meaning.specs.Levels.{is_process_class as is_process_class_of, writes_inner};
ghost use Rattle.sim_scope.specs.Source.{source_of};
ghost use Rattle.codegen_expr.specs.Known.{Known};
ghost use Rattle.program_texts.specs.TextTrees.{AreTexts};
ghost use Rattle.text_tables.specs.TokenTable.{AreDeclared};
ghost use Rattle.codegen.specs.Compiled.{standard_mark as standard_mark_of};
ghost use Rattle.codegen.specs.EmitProgram.{WritesClassText, WritesLevelText, WritesPrefixedText, WritesStandardText};

use crate::arrays::emit_arrays;
use crate::level_records::{begin_level, end_level};
use crate::levels::{emit_level, has_inner, next_instr};
use crate::processes::emit_process_text;
use crate::records::number;
use crate::texts::Written;
use codegen_expr::{Cells, line_at, prefix_of, spot_in};
use program_texts::TextTree;
use sim_base::{DeclNo, Line};
use sim_code::{BlockKind, Instr};
use sim_scope::{Bound, StandardClass};
use sim_tree::{Block, BlockPrefix, Decl, Stmt};
use std::alloc::{AllocError, Global};

/// What a text with levels is in code.
#[derive(Clone, Copy)]
pub(crate) struct LevelHead {
    /// The kind of its block.
    pub kind: BlockKind,
    /// The text.
    pub text: u32,
    /// The entry of its block; of the objects of a class a mark.
    pub entry: u32,
    /// Whether `inner` is among its statements.
    pub inner: bool,
}

/// What a class of the program is in code.
pub(crate) fn class_head(bound: &Bound, text: u32) -> LevelHead
    ensures { result ≡ record { kind = kind.Object; text = text; entry = 0; inner = writes_inner (source_of bound.now) text } }
{
    LevelHead {
        kind: BlockKind::Object,
        text,
        entry: 0,
        inner: has_inner(bound, text, BlockKind::Object),
    }
}

/// The code of a level, with the record of the text's block and that of its class.
#[tactic(auto, using(crate::proofs::LevelTexts::texts))]
fn emit_level_text(
    alloc: Global,
    bound: &Bound,
    cells: &Cells,
    declared: &[Option<DeclNo>],
    written: &mut Written,
    head: LevelHead,
    declarations: &[Decl],
    statements: &[Stmt],
) -> Result<(), AllocError>
    requires cells { Known bound.now cells.now }
    requires declared { AreDeclared bound.now declared.now }
    ensures { OnOk result (WritesLevelText bound.now written.old written.new head declarations.now statements.now) }
{
    let begun = begin_level(alloc, bound, cells, written, head.text)?;
    let spot = spot_in(head.text, begun.used)?;
    let draft = &mut written.draft;
    emit_arrays(bound, cells, declared, spot, draft, declarations)?;
    draft.put(next_instr(begun.level), Line(0))?;
    let stated = number(draft.here())?;
    let after = emit_level(
        bound,
        cells,
        spot,
        begun.level,
        head.inner,
        draft,
        statements,
    )?;
    let after_inner = number(after)?;
    end_level(
        alloc,
        bound,
        cells,
        written,
        head,
        begun,
        stated,
        after_inner,
    )
}

/// The code of a class, or of a block with a prefix that is not the program's.
#[tactic(auto, using(crate::proofs::LevelTexts::texts))]
pub(crate) fn emit_class_text(
    alloc: Global,
    bound: &Bound,
    cells: &Cells,
    declared: &[Option<DeclNo>],
    written: &mut Written,
    head: LevelHead,
    declarations: &[Decl],
    statements: &[Stmt],
) -> Result<(), AllocError>
    requires cells { Known bound.now cells.now }
    requires declared { AreDeclared bound.now declared.now }
    ensures { OnOk result (WritesClassText bound.now written.old written.new head declarations.now statements.now) }
{
    if head.text == 0 {
        written.draft.give_up();
        return Ok(());
    }
    emit_level_text(
        alloc,
        bound,
        cells,
        declared,
        written,
        head,
        declarations,
        statements,
    )
}

/// The code of a program with a prefix, which gives no level. It begins with a jump to the next instruction.
#[tactic(auto, using(crate::proofs::LevelTexts::texts))]
fn emit_prefixed_program(
    alloc: Global,
    bound: &Bound,
    cells: &Cells,
    declared: &[Option<DeclNo>],
    written: &mut Written,
    prefix: &BlockPrefix,
    block: &Block,
) -> Result<(), AllocError>
    requires cells { Known bound.now cells.now }
    requires declared { AreDeclared bound.now declared.now }
    ensures { OnOk result (WritesPrefixedText bound.now written.old written.new 0 prefix.now block.now) }
{
    if let Some(_) = prefix_of(&bound.scopes, 0) {
        written.draft.give_up();
        return Ok(());
    }
    let draft = &mut written.draft;
    draft.put(Instr::Jump(1), line_at(bound, prefix.class.token))?;
    let head = LevelHead {
        kind: BlockKind::Prefixed,
        text: 0,
        entry: 0,
        inner: false,
    };
    emit_level_text(
        alloc,
        bound,
        cells,
        declared,
        written,
        head,
        &block.declarations,
        &block.statements,
    )
}

/// The code of a block with a prefix: the program's, which is the first text, or another one.
#[tactic(auto, using(crate::proofs::LevelTexts::first_prefixed, crate::proofs::LevelTexts::inner_prefixed))]
pub(crate) fn emit_prefixed_text(
    alloc: Global,
    bound: &Bound,
    cells: &Cells,
    declared: &[Option<DeclNo>],
    written: &mut Written,
    text: u32,
    prefix: &BlockPrefix,
    block: &Block,
) -> Result<(), AllocError>
    requires cells { Known bound.now cells.now }
    requires declared { AreDeclared bound.now declared.now }
    ensures { OnOk result (WritesPrefixedText bound.now written.old written.new text prefix.now block.now) }
{
    if text == 0 {
        return emit_prefixed_program(alloc, bound, cells, declared, written, prefix, block);
    }
    let entry = number(written.draft.here())?;
    let head = LevelHead {
        kind: BlockKind::Prefixed,
        text,
        entry,
        inner: false,
    };
    emit_class_text(
        alloc,
        bound,
        cells,
        declared,
        written,
        head,
        &block.declarations,
        &block.statements,
    )
}

/// The mark of a class that `simset` or `simulation` declares.
fn standard_mark(class: StandardClass) -> u32
    ensures { result ≡ standard_mark_of class }
{
    match class {
        StandardClass::Linkage => 1,
        StandardClass::Link => 2,
        StandardClass::Head => 3,
        StandardClass::Process => 4,
    }
}

/// Whether a class is `process`.
fn is_process_class(class: StandardClass) -> bool
    ensures { result ≡ is_process_class_of class }
{
    match class {
        StandardClass::Linkage => false,
        StandardClass::Link => false,
        StandardClass::Head => false,
        StandardClass::Process => true,
    }
}

/// The code of a class that `simset` or `simulation` declares, which has no declarations and no statements of its own.
#[tactic(auto, using(crate::proofs::LevelTexts::texts))]
pub(crate) fn emit_standard_text(
    alloc: Global,
    bound: &Bound,
    cells: &Cells,
    declared: &[Option<DeclNo>],
    written: &mut Written,
    trees: &[TextTree],
    text: u32,
    class: StandardClass,
) -> Result<(), AllocError>
    requires cells { Known bound.now cells.now }
    requires declared { AreDeclared bound.now declared.now }
    requires trees { AreTexts bound.now.program trees.now }
    ensures { OnOk result (WritesStandardText bound.now written.old written.new text class) }
{
    if is_process_class(class) {
        return emit_process_text(alloc, bound, cells, written, trees, text);
    }
    let head = LevelHead {
        kind: BlockKind::Object,
        text,
        entry: standard_mark(class),
        inner: false,
    };
    emit_class_text(alloc, bound, cells, declared, written, head, &[], &[])
}
