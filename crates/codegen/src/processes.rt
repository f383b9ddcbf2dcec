//! Processes: which objects are processes, and the level of the class `process`.
ghost use Rattle.std.specs.Prelude.{◌≡◌, IfOk, OnOk};
ghost use Rattle.program_texts.specs.TextTrees.{AreTexts, text_in};
ghost use Rattle.sim_meaning.specs.Levels.{is_process_text, last_line};
ghost use Rattle.sim_scope.specs.Source.{source_of};
ghost use Rattle.std.specs.Prelude.{Some};
ghost use Rattle.codegen_expr.specs.Known.{Known};
ghost use Rattle.codegen.specs.CodeStm.{is_class_text, is_subclass as is_subclass_of, means, origins as origins_of, subclasses as subclasses_of};
ghost use Rattle.codegen.specs.EmitProcesses.{WritesDetached, WritesEnd, WritesEnds, WritesLastEnd, WritesOriginEnd, WritesOrigins, WritesProcess};
ghost use Rattle.codegen.specs.EmitProgram.{WritesProcessText};

use crate::class_texts::LevelHead;
use crate::connections::fill_all;
use crate::level_records::{begin_level, end_level};
use crate::levels::{emit_inner, next_instr};
use crate::records::number;
use crate::texts::Written;
use codegen_expr::{
    Cells, Draft, Spot, block_number, cell_number, class_at, integer_instr, is_process, level_of,
    line_at, link_instr, load_instr, member_instr, origin_slot, spot_in, standard_instr,
    this_instr,
};
use program_texts::TextTree;
use sim_base::{Line, TokenNo};
use sim_code::{BlockKind, Instr};
use sim_scope::{Bound, base, encloser, has_level};
use sim_tree::Membership;
use std::alloc::{AllocError, Global};

/// The number of `passivate` among the standard names.
const PASSIVATE: u32 = 69;

/// The mark of the class `process`.
const PROCESS_MARK: u32 = 4;

/// Whether the class `process` is one of the levels of a text. Time is linear in their number.
pub(crate) fn has_process(bound: &Bound, cells: &Cells, text: u32) -> bool
    requires cells { Known bound.now cells.now }
    ensures { result ≡ is_process_text (source_of bound.now) text }
{
    let mut level = text;
    for step in 0..bound.scopes.block_count() {
        if is_process(bound, cells, level) {
            return true;
        }
        match base(&bound.scopes, level) {
            Some(front) => level = front,
            None => return false,
        }
    }
    false
}

/// The line of the last token of a text.
#[tactic(auto, unfolding(sim_scope::specs::Source::source_of))]
fn end_line(bound: &Bound, text: u32) -> Line
    ensures { result.0 ≡ last_line (source_of bound.now) text }
{
    match bound.scopes.blocks().get(text as usize) {
        Some(block) => line_at(bound, TokenNo(block.end().0.saturating_sub(1))),
        None => line_at(bound, TokenNo(0)),
    }
}

/// Whether a part of the tree is a class that the program declares.
#[tactic(auto, using(crate::proofs::ProcessLevels::class_trees))]
fn is_declared_class(tree: TextTree) -> bool
    ensures { result ≡ is_class_text (Some (text_in tree.entry)) }
{
    match tree {
        TextTree::Block(_) => false,
        TextTree::Procedure { .. } => false,
        TextTree::Class { .. } => true,
        TextTree::ClassOfStatement { .. } => true,
        TextTree::Prefixed { .. } => false,
        TextTree::Connection => false,
        TextTree::Standard(_) => false,
    }
}

/// Whether a text is a class that the program declares, with a class among its levels.
fn is_subclass(bound: &Bound, trees: &[TextTree], class: u32, text: u32) -> bool
    requires trees { AreTexts bound.now.program trees.now }
    ensures { result ≡ is_subclass_of (source_of bound.now) class text }
{
    match trees.get(text as usize) {
        Some(tree) => {
            if is_declared_class(*tree) {
                return has_level(&bound.scopes, text, class);
            }
            false
        }
        None => false,
    }
}

/// The classes with a class among their levels, but itself, in the order of the program.
fn subclasses(
    alloc: Global,
    bound: &Bound,
    trees: &[TextTree],
    class: u32,
) -> Result<Vec<u32>, AllocError>
    requires trees { AreTexts bound.now.program trees.now }
    ensures { IfOk result (λ found. found.items ≡ subclasses_of (source_of bound.now) class) }
{
    let mut found = Vec::new(alloc);
    for index in 0..bound.scopes.block_count() {
        let text = number(index)?;
        if is_subclass(bound, trees, class, text) {
            found.push(text)?;
        }
    }
    Ok(found)
}

/// A process detaches itself. The line of that is never told.
#[tactic(auto, using(crate::proofs::ProcessLevels::processes))]
pub(crate) fn emit_detached(bound: &Bound, spot: Spot, draft: &mut Draft) -> Result<(), AllocError>
    ensures { OnOk result (WritesDetached bound.now spot draft.old draft.new) }
{
    draft.push(0, this_instr(level_of(bound, spot.text)), Line(0))?;
    draft.put(Instr::Detach, Line(1))?;
    Ok(())
}

/// The end of a process of a class, but for the jump behind it: it passivates in the simulation block around. The answer is the place of the
/// jump.
#[tactic(auto, using(crate::proofs::ProcessLevels::processes))]
fn emit_end(
    bound: &Bound,
    cells: &Cells,
    spot: Spot,
    draft: &mut Draft,
    around: u32,
    class: u32,
) -> Result<usize, AllocError>
    requires cells { Known bound.now cells.now }
    ensures { IfOk result (λ over. WritesEnd bound.now spot around class draft.old draft.new over) }
{
    let number = draft.class_of(block_number(bound, cells, class));
    draft.push(0, this_instr(level_of(bound, spot.text)), Line(0))?;
    draft.put(member_instr(Membership::Is, number), Line(0))?;
    let jump = draft.here();
    draft.leave_hole()?;
    draft.push(0, link_instr(level_of(bound, around)), Line(0))?;
    draft.put(standard_instr(PASSIVATE), end_line(bound, class))?;
    let over = draft.here();
    draft.leave_hole()?;
    let start = draft.place()?;
    draft.fill_in(jump, Instr::JumpF(start));
    Ok(over)
}

/// Whether a token is that of an identifier that means a class.
#[tactic(auto, using(crate::proofs::OriginEnds::meanings))]
fn is_origin(bound: &Bound, cells: &Cells, class: u32, token: u32) -> bool
    requires cells { Known bound.now cells.now }
    ensures { result ≡ means (source_of bound.now) class token }
{
    match class_at(bound, cells, TokenNo(token)) {
        Some(found) => found == class,
        None => false,
    }
}

/// The tokens at which a class is meant by its identifier. Time is linear in the number of tokens.
fn origins(alloc: Global, bound: &Bound, cells: &Cells, class: u32) -> Result<Vec<u32>, AllocError>
    requires cells { Known bound.now cells.now }
    ensures { IfOk result (λ found. found.items ≡ origins_of (source_of bound.now) class) }
{
    let mut found = Vec::new(alloc);
    for index in 0..bound.uses.len() {
        let token = number(index)?;
        if is_origin(bound, cells, class, token) {
            found.push(token)?;
        }
    }
    Ok(found)
}

/// The end of an object of `process` itself that keeps this token in a cell, but for the jump behind it. The answer is the place of the jump.
#[tactic(auto, using(crate::proofs::OriginEnds::origin_ends))]
fn emit_origin_end(
    bound: &Bound,
    cells: &Cells,
    spot: Spot,
    draft: &mut Draft,
    around: u32,
    place: u32,
    token: u32,
) -> Result<usize, AllocError>
    requires cells { Known bound.now cells.now }
    ensures { IfOk result (λ over. WritesOriginEnd bound.now spot around place token draft.old draft.new over) }
{
    let slot = cell_number(bound, cells, draft, spot.text, place)?;
    draft.push(0, load_instr(level_of(bound, spot.text), slot), Line(0))?;
    draft.push(1, integer_instr(token), Line(0))?;
    draft.put(Instr::Rel(2), Line(0))?;
    let jump = draft.here();
    draft.leave_hole()?;
    draft.push(0, link_instr(level_of(bound, around)), Line(0))?;
    let line = line_at(bound, TokenNo(token.saturating_sub(1)));
    draft.put(standard_instr(PASSIVATE), line)?;
    let over = draft.here();
    draft.leave_hole()?;
    let start = draft.place()?;
    draft.fill_in(jump, Instr::JumpF(start));
    Ok(over)
}

/// The end of an object of `process` itself that keeps none of the tokens.
#[tactic(auto, using(crate::proofs::OriginEnds::origin_ends))]
fn emit_last_end(
    bound: &Bound,
    spot: Spot,
    draft: &mut Draft,
    around: u32,
) -> Result<(), AllocError>
    ensures { OnOk result (WritesLastEnd bound.now spot around draft.old draft.new) }
{
    draft.push(0, link_instr(level_of(bound, around)), Line(0))?;
    draft.put(standard_instr(PASSIVATE), line_at(bound, TokenNo(0)))
}

/// The end of an object of `process` itself, by the token that it keeps in a cell.
fn emit_origin_ends(
    bound: &Bound,
    cells: &Cells,
    spot: Spot,
    draft: &mut Draft,
    around: u32,
    place: u32,
    tokens: &[u32],
) -> Result<(), AllocError>
    requires cells { Known bound.now cells.now }
    ensures { OnOk result (WritesOrigins bound.now spot around place tokens.now draft.old draft.new) }
{
    let mut overs = Vec::new(draft.alloc());
    for token in tokens {
        let over = emit_origin_end(bound, cells, spot, draft, around, place, *token)?;
        overs.push(over)?;
    }
    emit_last_end(bound, spot, draft, around)?;
    let end = draft.place()?;
    fill_all(draft, &overs, end);
    Ok(())
}

/// The end of a process, by its class; an object of `process` itself keeps a token in a cell.
fn emit_ends(
    bound: &Bound,
    cells: &Cells,
    spot: Spot,
    draft: &mut Draft,
    around: u32,
    place: u32,
    classes: &[u32],
    tokens: &[u32],
) -> Result<(), AllocError>
    requires cells { Known bound.now cells.now }
    ensures { OnOk result (WritesEnds bound.now spot around place classes.now tokens.now draft.old draft.new) }
{
    let mut overs = Vec::new(draft.alloc());
    for class in classes {
        let over = emit_end(bound, cells, spot, draft, around, *class)?;
        overs.push(over)?;
    }
    emit_origin_ends(bound, cells, spot, draft, around, place, tokens)?;
    let end = draft.place()?;
    fill_all(draft, &overs, end);
    Ok(())
}

/// The statements of the class `process`: it detaches itself; then comes what stands for `inner`, and behind it the end. The answer is the place
/// behind `inner`.
#[tactic(auto, using(crate::proofs::ProcessLevels::processes))]
fn emit_process(
    alloc: Global,
    bound: &Bound,
    cells: &Cells,
    spot: Spot,
    draft: &mut Draft,
    trees: &[TextTree],
    level: u32,
) -> Result<usize, AllocError>
    requires cells { Known bound.now cells.now }
    requires trees { AreTexts bound.now.program trees.now }
    ensures { IfOk result (λ after. WritesProcess bound.now spot level draft.old draft.new after) }
{
    let Some(around) = encloser(&bound.scopes, spot.text) else {
        draft.give_up();
        return Ok(draft.here());
    };
    let classes = subclasses(alloc, bound, trees, spot.text)?;
    let tokens = origins(alloc, bound, cells, spot.text)?;
    let place = origin_slot(bound, cells, spot.text)?;
    emit_detached(bound, spot, draft)?;
    let after = emit_inner(draft, level)?;
    emit_ends(bound, cells, spot, draft, around, place, &classes, &tokens)?;
    Ok(after)
}

/// The code of the class `process`, with the record of its block and that of its class.
#[tactic(auto, using(crate::proofs::LevelTexts::processes))]
pub(crate) fn emit_process_text(
    alloc: Global,
    bound: &Bound,
    cells: &Cells,
    written: &mut Written,
    trees: &[TextTree],
    text: u32,
) -> Result<(), AllocError>
    requires cells { Known bound.now cells.now }
    requires trees { AreTexts bound.now.program trees.now }
    ensures { OnOk result (WritesProcessText bound.now written.old written.new text) }
{
    if text == 0 {
        written.draft.give_up();
        return Ok(());
    }
    let begun = begin_level(alloc, bound, cells, written, text)?;
    let spot = spot_in(text, begun.used)?;
    let draft = &mut written.draft;
    draft.put(next_instr(begun.level), Line(0))?;
    let stated = number(draft.here())?;
    let after = emit_process(alloc, bound, cells, spot, draft, trees, begun.level)?;
    let after_inner = number(after)?;
    let head = LevelHead {
        kind: BlockKind::Object,
        text,
        entry: PROCESS_MARK,
        inner: false,
    };
    end_level(
        alloc,
        bound,
        cells,
        written,
        head,
        begun,
        stated,
        after_inner,
    )
}
