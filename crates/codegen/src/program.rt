//! The compiler.
ghost use Rattle.std.specs.Prelude.{◌≡◌, ◌≤◌, IfOk, length};
ghost use Rattle.sim_code.specs.Running.{AllRun};
ghost use Rattle.sim_scope.specs.Source.{source_of};
ghost use Rattle.codegen.specs.BuiltProgram.{ProgramBuilt};
ghost use Rattle.codegen.specs.Compiled.{Compiled};
ghost use Rattle.codegen_expr.specs.Known.{Known};
ghost use Rattle.codegen.specs.EmitMatches.{AreVirtuals};
ghost use Rattle.codegen.specs.EmitRecords.{AreClasses, AreRecords, matches_in_class, record_with};
ghost use Rattle.program_texts.specs.TextTrees.{AreTexts};

use crate::matches::{matches_of, texts_of_classes, virtuals_of};
use crate::plan::plan_texts;
use crate::texts::{ClassAt, Written, emit_texts};
use codegen_expr::{Cells, Draft, Planned};
use program_texts::{TextTree, texts_of};
use sim_base::DeclNo;
use sim_code::{ClassRecord, Code, Match};
use sim_scope::Bound;
use std::alloc::{AllocError, Global};
use text_tables::{cells_of, constant_texts, declarations_by_token};

/// The highest number of a class that is planned. Classes are numbered from 1 on.
fn last_class(plan: &[Planned]) -> u32 {
    let mut last = 0;
    for planned in plan {
        last = last.max(planned.class);
    }
    last
}

/// So many classes, none of which is written.
fn no_classes(alloc: Global, count: usize) -> Result<Vec<Option<ClassAt>>, AllocError> {
    let mut classes = Vec::new(alloc);
    for made in 0..count {
        classes.push(None)?;
    }
    Ok(classes)
}

/// The record of a class with its matches; where none is written it is blank.
fn class_record(class: Option<ClassAt>, matches: Vec<Match>) -> ClassRecord
    ensures { result ≡ record_with class matches.items }
{
    let at = match class {
        Some(at) => at,
        None => ClassAt {
            prefix: 0,
            block: 0,
            declarations: 0,
            statements: 0,
            after_inner: 0,
            process: false,
        },
    };
    ClassRecord {
        prefix: at.prefix,
        block: at.block,
        declarations: at.declarations,
        statements: at.statements,
        after_inner: at.after_inner,
        process: at.process,
        matches,
    }
}

/// The matches in the class of a text, if there is one.
#[tactic(auto, unfolding(crate::specs::EmitMatches::AreMatches))]
fn matches_in(
    alloc: Global,
    bound: &Bound,
    cells: &Cells,
    virtuals: &[DeclNo],
    text: Option<u32>,
) -> Result<Vec<Match>, AllocError>
    requires cells { Known bound.now cells.now }
    requires virtuals { AreVirtuals bound.now virtuals.now }
    ensures { IfOk result (λ v. v.items ≡ matches_in_class (source_of bound.now) text) }
{
    match text {
        Some(text) => matches_of(alloc, bound, cells, virtuals, text),
        None => Ok(Vec::new(alloc)),
    }
}

/// The records of classes, each with the matches in the class of its text.
fn class_records(
    alloc: Global,
    bound: &Bound,
    cells: &Cells,
    classes: &[Option<ClassAt>],
    texts: &[Option<u32>],
) -> Result<Vec<ClassRecord>, AllocError>
    requires cells { Known bound.now cells.now }
    requires long { length classes.now ≤ length texts.now }
    ensures { IfOk result (λ v. AreRecords (source_of bound.now) classes.now texts.now v.items) }
{
    let virtuals = virtuals_of(alloc, bound)?;
    let mut records = Vec::new(alloc);
    for index in 0..classes.len() {
        let matches = matches_in(alloc, bound, cells, &virtuals, texts[index])?;
        records.push(class_record(classes[index], matches))?;
    }
    Ok(records)
}

/// The records of the classes that are written, each with the matches in the class of its text.
#[tactic(auto, using(crate::proofs::Recorded::records))]
fn classes_of(
    alloc: Global,
    bound: &Bound,
    cells: &Cells,
    written: &Written,
    trees: &[TextTree],
) -> Result<Vec<ClassRecord>, AllocError>
    requires cells { Known bound.now cells.now }
    requires trees { AreTexts bound.now.program trees.now }
    ensures { IfOk result (λ v. AreClasses bound.now written.now v.items) }
{
    let count = written.classes.len();
    let texts = texts_of_classes(alloc, bound, cells, &written.draft, trees, count)?;
    class_records(alloc, bound, cells, &written.classes, &texts)
}

/// The code of a program that is built. There is none only for want of memory, or for more places than a number of 32 bits counts. The texts
/// are written twice: what they take is planned by the first time.
#[tactic(auto, using(crate::proofs::Whole::wholes))]
pub fn compile(alloc: Global, bound: &Bound) -> Result<Code, AllocError>
    requires { ProgramBuilt (source_of bound.now) }
    ensures stands { IfOk result (λ code. Compiled (source_of bound.now) code) }
    ensures runs { IfOk result (λ code. AllRun code.instrs) }
{
    let cells = cells_of(alloc, bound)?;
    let declared = declarations_by_token(alloc, bound)?;
    let texts = constant_texts(alloc, bound)?;
    let trees = texts_of(alloc, &bound.program)?;
    let plan = plan_texts(alloc, bound, &cells, &declared, &trees)?;
    let count = last_class(&plan) as usize;
    let mut written = Written {
        draft: Draft::new(alloc, plan),
        blocks: Vec::new(alloc),
        classes: no_classes(alloc, count)?,
    };
    emit_texts(alloc, bound, &cells, &declared, &mut written, &trees)?;
    let classes = classes_of(alloc, bound, &cells, &written, &trees)?;
    let (instrs, thunks, lists) = written.draft.into_parts();
    Ok(Code {
        texts,
        blocks: written.blocks,
        classes,
        thunks,
        actual_lists: lists,
        instrs,
    })
}
