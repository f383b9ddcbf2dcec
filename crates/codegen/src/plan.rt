//! What is planned of the blocks before the code is written: classes get their numbers, the one in front before the others, and frames get
//! their cells and temps, those of the class in front first.
ghost use Rattle.std.specs.Prelude.{◌≡◌, ◌+◌, ◌++◌, IfOk, None, OnOk};
ghost use Rattle.codegen_expr.specs.Drafts.{planned_or_none};
ghost use Rattle.codegen_expr.specs.Known.{Known};
ghost use Rattle.program_texts.specs.TextTrees.{text_in};
ghost use Rattle.text_tables.specs.TokenTable.{AreDeclared};
ghost use Rattle.codegen.specs.EmitProgram.{is_planned as is_planned_text};
ghost use Rattle.codegen.specs.Planning.{AreBlank, AreTypesBehind, ChainOf, IsFront, IsPlan, NextClass, NoMarks, OwnOf, OwnTypes, PlannedBehind, PlansChain, PlansLevel, PlansText, PutsPlanned, has_number, is_done as is_block_done};

use crate::measure::{Measured, measure_text};
use crate::records::{cell_types, hide_cells, number, pad};
use codegen_expr::{Cells, Planned, block_number, cell_count, deeper, prefix_of};
use program_texts::TextTree;
use sim_base::DeclNo;
use sim_code::CodeType;
use sim_scope::Bound;
use sim_tree::TypeName;
use std::alloc::{AllocError, Global};

/// The same types once more.
pub(crate) fn copy_types(alloc: Global, types: &[CodeType]) -> Result<Vec<CodeType>, AllocError>
    ensures { IfOk result (λ v. v.items ≡ types.now) }
{
    let mut copy = Vec::new(alloc);
    for item in types {
        copy.push(*item)?;
    }
    Ok(copy)
}

/// The blocks that are planned so far.
#[derive(Drop)]
pub(crate) struct Planning {
    /// What is planned, by block.
    plan: Vec<Planned>,
    /// Whether it is.
    done: Vec<bool>,
    /// How many classes have a number.
    last: u32,
}

/// No class, no cell.
fn blank(alloc: Global) -> Planned
    ensures { result ≡ planned_or_none None }
{
    Planned {
        class: 0,
        cells: 0,
        room: 0,
        types: Vec::new(alloc),
    }
}

/// So many blocks of which nothing is planned.
#[tactic(auto, using(crate::proofs::Planned::planned))]
fn blanks(alloc: Global, count: usize) -> Result<Vec<Planned>, AllocError>
    ensures { IfOk result (λ v. AreBlank v.items count) }
{
    let mut plan = Vec::new(alloc);
    for made in 0..count {
        plan.push(blank(alloc))?;
    }
    Ok(plan)
}

/// So many blocks that are not planned.
#[tactic(auto, using(crate::proofs::Planned::planned))]
fn no_marks(alloc: Global, count: usize) -> Result<Vec<bool>, AllocError>
    ensures { IfOk result (λ v. NoMarks v.items count) }
{
    let mut done = Vec::new(alloc);
    for made in 0..count {
        done.push(false)?;
    }
    Ok(done)
}

/// Whether a block is planned.
#[tactic(auto, unfolding(crate::specs::Planning::is_done))]
fn is_done(planning: &Planning, block: u32) -> bool
    ensures { result ≡ is_block_done planning.now block }
{
    match planning.done.get(block as usize) {
        Some(done) => *done,
        None => false,
    }
}

/// The own part of the frames of a text with a result of this type, if it has one.
#[tactic(auto, using(crate::proofs::Planned::planned))]
fn own_of(
    alloc: Global,
    bound: &Bound,
    cells: &Cells,
    text: u32,
    result_type: &Option<TypeName>,
) -> Result<Vec<CodeType>, AllocError>
    requires cells { Known bound.now cells.now }
    ensures { IfOk result (λ v. OwnOf bound.now text result_type.now v.items) }
{
    let mut types = cell_types(alloc, bound, text, result_type)?;
    hide_cells(bound, cells, text, &mut types)?;
    Ok(types)
}

/// The own part of the frames of a text.
#[tactic(auto, using(crate::proofs::Planned::planned))]
fn own_types(
    alloc: Global,
    bound: &Bound,
    cells: &Cells,
    text: u32,
    tree: TextTree,
) -> Result<Vec<CodeType>, AllocError>
    requires cells { Known bound.now cells.now }
    ensures { IfOk result (λ v. OwnTypes bound.now text tree.entry v.items) }
{
    match tree {
        TextTree::Block(_) => own_of(alloc, bound, cells, text, &None),
        TextTree::Procedure { result, .. } => own_of(alloc, bound, cells, text, result),
        TextTree::Class { .. } => own_of(alloc, bound, cells, text, &None),
        TextTree::ClassOfStatement { .. } => own_of(alloc, bound, cells, text, &None),
        TextTree::Prefixed { .. } => own_of(alloc, bound, cells, text, &None),
        TextTree::Connection => own_of(alloc, bound, cells, text, &None),
        TextTree::Standard(_) => own_of(alloc, bound, cells, text, &None),
    }
}

/// Whether a text is planned: all are but connections.
#[tactic(auto, using(crate::proofs::Planned::planned))]
fn is_planned(tree: TextTree) -> bool
    ensures { result ≡ is_planned_text (text_in tree.entry) }
{
    match tree {
        TextTree::Block(_) => true,
        TextTree::Procedure { .. } => true,
        TextTree::Class { .. } => true,
        TextTree::ClassOfStatement { .. } => true,
        TextTree::Prefixed { .. } => true,
        TextTree::Connection => false,
        TextTree::Standard(_) => true,
    }
}

/// Whether a text has a number as a class.
pub(crate) fn is_class(tree: TextTree) -> bool
    ensures { result ≡ has_number tree.entry }
{
    match tree {
        TextTree::Class { .. } => true,
        TextTree::ClassOfStatement { .. } => true,
        TextTree::Prefixed { .. } => true,
        TextTree::Standard(_) => true,
        _ => false,
    }
}

/// The number of a class that is planned next, or 0 for what is no class.
#[tactic(auto, using(crate::proofs::Planned::planned))]
fn next_class(last: u32, tree: TextTree) -> Result<u32, AllocError>
    ensures { IfOk result (λ n. NextClass last tree.entry n) }
{
    if is_class(tree) {
        let next = deeper(last)?;
        return Ok(next);
    }
    Ok(0)
}

/// What is planned of what stands in front of a text.
#[tactic(auto, using(crate::proofs::Planned::planned))]
fn front_of<'a>(
    bound: &Bound,
    cells: &Cells,
    plan: &'a [Planned],
    nothing: &'a Planned,
    text: u32,
) -> &'a Planned
    requires cells { Known bound.now cells.now }
    ensures { IsFront bound.now plan.now nothing.now text result.now }
{
    let Some(front) = prefix_of(&bound.scopes, text) else {
        return nothing;
    };
    match plan.get(block_number(bound, cells, front) as usize) {
        Some(planned) => planned,
        None => nothing,
    }
}

/// Types behind others.
fn add_types(types: &mut Vec<CodeType>, more: &[CodeType]) -> Result<(), AllocError>
    ensures { OnOk result (types.new.items ≡ types.old.items ++ more.now) }
{
    for item in more {
        types.push(*item)?;
    }
    Ok(())
}

/// What the frames of a text hold: all that those of the class in front do, then its own part, then temps.
#[tactic(auto, using(crate::proofs::Planned::planned))]
fn types_behind(
    alloc: Global,
    front: &[CodeType],
    own: &[CodeType],
    temps: u32,
) -> Result<Vec<CodeType>, AllocError>
    ensures { IfOk result (λ v. AreTypesBehind v.items front.now own.now) }
{
    let mut types = copy_types(alloc, front)?;
    add_types(&mut types, own)?;
    let size = types.len().checked_add(temps as usize).ok_or(AllocError)?;
    pad(&mut types, size)?;
    Ok(types)
}

/// A sum of two numbers.
fn sum(first: u32, second: u32) -> Result<u32, AllocError>
    ensures { IfOk result (λ n. n ≡ first + second) }
{
    first.checked_add(second).ok_or(AllocError)
}

/// What is planned of a text behind what is planned of the class in front of it.
#[tactic(auto, using(crate::proofs::Planned::planned))]
fn planned_behind(
    alloc: Global,
    front: &Planned,
    own: &[CodeType],
    count: u32,
    class: u32,
    measured: Measured,
) -> Result<Planned, AllocError>
    ensures { IfOk result (λ p. PlannedBehind p front.now count own.now class) }
{
    let types = types_behind(alloc, &front.types, own, measured.temps)?;
    let cells = sum(front.cells, count)?;
    let room = front.room.max(measured.room);
    Ok(Planned {
        class,
        cells,
        room,
        types,
    })
}

/// Puts what is planned of a block in its place.
#[tactic(auto, using(crate::proofs::PlanSteps::steps))]
fn put_planned(planning: &mut Planning, block: u32, class: u32, planned: Planned)
    ensures { PutsPlanned planning.old planning.new block class planned }
{
    let place = block as usize;
    if place >= planning.plan.len() {
        return;
    }
    if place >= planning.done.len() {
        return;
    }
    planning.plan[place] = planned;
    planning.done[place] = true;
    planning.last = planning.last.max(class);
}

/// A text is planned, behind what is in front of it.
#[tactic(auto, using(crate::proofs::PlanSteps::steps))]
fn plan_text(
    alloc: Global,
    bound: &Bound,
    cells: &Cells,
    declared: &[Option<DeclNo>],
    planning: &mut Planning,
    text: u32,
    tree: TextTree,
) -> Result<(), AllocError>
    requires cells { Known bound.now cells.now }
    requires declared { AreDeclared bound.now declared.now }
    ensures { OnOk result (PlansText bound.now planning.old planning.new text tree.entry) }
{
    let measured = measure_text(alloc, bound, cells, declared, text, tree)?;
    let own = own_types(alloc, bound, cells, text, tree)?;
    let count = cell_count(bound, cells, text);
    let class = next_class(planning.last, tree)?;
    let nothing = blank(alloc);
    let front = front_of(bound, cells, &planning.plan, &nothing, text);
    let planned = planned_behind(alloc, front, &own, count, class, measured)?;
    let block = block_number(bound, cells, text);
    put_planned(planning, block, class, planned);
    Ok(())
}

/// A text is planned, if it is not yet.
#[tactic(auto, using(crate::proofs::PlanSteps::steps))]
fn plan_level(
    alloc: Global,
    bound: &Bound,
    cells: &Cells,
    declared: &[Option<DeclNo>],
    planning: &mut Planning,
    trees: &[TextTree],
    text: u32,
) -> Result<(), AllocError>
    requires cells { Known bound.now cells.now }
    requires declared { AreDeclared bound.now declared.now }
    ensures { OnOk result (PlansLevel bound.now planning.old planning.new trees.now text) }
{
    let block = block_number(bound, cells, text);
    if is_done(planning, block) {
        return Ok(());
    }
    match trees.get(text as usize) {
        Some(tree) => plan_text(alloc, bound, cells, declared, planning, text, *tree),
        None => Ok(()),
    }
}

/// The texts from one on to the last in front of it that is not planned.
#[tactic(auto, using(crate::proofs::PlanSteps::steps))]
fn not_planned(
    alloc: Global,
    bound: &Bound,
    cells: &Cells,
    planning: &Planning,
    text: u32,
) -> Result<Vec<u32>, AllocError>
    requires cells { Known bound.now cells.now }
    ensures { IfOk result (λ chain. ChainOf bound.now planning.now text chain.items) }
{
    let mut chain = Vec::new(alloc);
    let mut next = Some(text);
    for step in 0..bound.scopes.block_count() {
        let Some(level) = next else {
            return Ok(chain);
        };
        let block = block_number(bound, cells, level);
        if is_done(planning, block) {
            return Ok(chain);
        }
        chain.push(level)?;
        next = prefix_of(&bound.scopes, level);
    }
    Ok(chain)
}

/// A text is planned, and before it what is in front of it, if that is not planned yet.
#[tactic(auto, using(crate::proofs::PlanSteps::steps))]
fn plan_chain(
    alloc: Global,
    bound: &Bound,
    cells: &Cells,
    declared: &[Option<DeclNo>],
    planning: &mut Planning,
    trees: &[TextTree],
    text: u32,
) -> Result<(), AllocError>
    requires cells { Known bound.now cells.now }
    requires declared { AreDeclared bound.now declared.now }
    ensures { OnOk result (PlansChain bound.now planning.old planning.new trees.now text) }
{
    let mut chain = not_planned(alloc, bound, cells, planning, text)?;
    while let Some(level) = chain.pop() {
        plan_level(alloc, bound, cells, declared, planning, trees, level)?;
    }
    Ok(())
}

/// What is planned of the blocks of a program. Each text is planned once, behind the class in front of it.
#[tactic(auto, using(crate::proofs::PlanSteps::steps))]
pub(crate) fn plan_texts(
    alloc: Global,
    bound: &Bound,
    cells: &Cells,
    declared: &[Option<DeclNo>],
    trees: &[TextTree],
) -> Result<Vec<Planned>, AllocError>
    requires cells { Known bound.now cells.now }
    requires declared { AreDeclared bound.now declared.now }
    ensures { IfOk result (λ v. IsPlan bound.now v.items trees.now) }
{
    let length = number(trees.len())?;
    let count = block_number(bound, cells, length) as usize;
    let mut planning = Planning {
        plan: blanks(alloc, count)?,
        done: no_marks(alloc, count)?,
        last: 0,
    };
    for index in 0..trees.len() {
        let text = number(index)?;
        let tree = trees[index];
        if is_planned(tree) {
            plan_chain(alloc, bound, cells, declared, &mut planning, trees, text)?;
        }
    }
    Ok(planning.plan)
}
