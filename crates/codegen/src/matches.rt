//! The procedures that match the virtuals of each class, and the lists of actual parameters.
ghost use Rattle.std.specs.Prelude.{◌≡◌, ◌++◌, [], IfOk, OnOk, Some, length};
ghost use Rattle.codegen_expr.specs.Drafts.{class_of as class_of_block};
ghost use Rattle.codegen_expr.specs.Known.{Known};
ghost use Rattle.codegen_expr.specs.Sites.{block_number as block_number_of};
ghost use Rattle.program_texts.specs.TextTrees.{AreTexts};
ghost use Rattle.sim_meaning.specs.Virtuals.{match_in_text as match_in_text_of};
ghost use Rattle.sim_scope.specs.Scopes.{entry_is, is_virtual as is_virtual_of};
ghost use Rattle.sim_scope.specs.Source.{source_of};
ghost use Rattle.codegen.specs.Compiled.{match_listed};
ghost use Rattle.codegen.specs.EmitMatches.{AreMatches, AreTextsOfClasses, AreVirtuals, class_if, joined, text_put, virtual_in};
ghost use Rattle.codegen.specs.Planning.{has_number};

use crate::own_matches::{is_virtual, text_of_procedure};
use crate::plan::is_class;
use crate::records::number;
use codegen_expr::{Cells, Draft, block_number, block_of};
use program_texts::TextTree;
use sim_base::DeclNo;
use sim_code::Match;
use sim_scope::{Bound, Entry, entry_of, has_level};
use std::alloc::{AllocError, Global};
use virtual_match::{match_in, name_of};

/// A declaration behind the virtuals in front of it, if it is one.
#[tactic(auto, using(crate::proofs::Listed::listed))]
fn add_virtual(
    virtuals: &mut Vec<DeclNo>,
    declaration: DeclNo,
    entry: Option<Entry>,
) -> Result<(), AllocError>
    ensures { OnOk result (virtuals.new.items ≡ virtuals.old.items ++ virtual_in (entry_is is_virtual_of entry) declaration.0 []) }
{
    if !is_virtual(entry) {
        return Ok(());
    }
    virtuals.push(declaration)?;
    Ok(())
}

/// The virtuals of a program in the order of their declarations.
pub(crate) fn virtuals_of(alloc: Global, bound: &Bound) -> Result<Vec<DeclNo>, AllocError>
    ensures { IfOk result (λ v. AreVirtuals bound.now v.items) }
{
    let mut virtuals = Vec::new(alloc);
    for index in 0..bound.scopes.declarations().len() {
        let place = number(index)?;
        let entry = entry_of(&bound.scopes, DeclNo(place));
        add_virtual(&mut virtuals, DeclNo(place), entry)?;
    }
    Ok(virtuals)
}

/// The text of the procedure that matches a virtual in the class of a text, if the text has the level of the virtual.
#[tactic(auto, unfolding(sim_meaning::specs::Virtuals::match_of_text, sim_scope::specs::Source::source_of))]
fn match_in_text(bound: &Bound, declaration: DeclNo, text: u32) -> Option<u32>
    ensures { result ≡ joined (match_in_text_of (source_of bound.now) declaration.0 (Some text)) }
{
    let scopes = &bound.scopes;
    if has_level(scopes, text, block_of(bound, declaration)) {
        let found = match_in(scopes, name_of(scopes, declaration), Some(text));
        return text_of_procedure(bound, found);
    }
    None
}

/// The match of a virtual behind those of others, if there is one.
#[tactic(auto, using(crate::proofs::Listed::listed))]
fn add_match(
    bound: &Bound,
    cells: &Cells,
    matches: &mut Vec<Match>,
    declaration: DeclNo,
    text: u32,
) -> Result<(), AllocError>
    requires cells { Known bound.now cells.now }
    ensures { OnOk result (matches.new.items ≡ matches.old.items ++ match_listed (source_of bound.now) declaration.0 (match_in_text_of (source_of bound.now) declaration.0 (Some text)) []) }
{
    let Some(found) = match_in_text(bound, declaration, text) else {
        return Ok(());
    };
    matches.push(Match {
        virtual_number: declaration.0,
        block: block_number(bound, cells, found),
    })?;
    Ok(())
}

/// The matches in the class of a text, for the virtuals of a program.
pub(crate) fn matches_of(
    alloc: Global,
    bound: &Bound,
    cells: &Cells,
    virtuals: &[DeclNo],
    text: u32,
) -> Result<Vec<Match>, AllocError>
    requires cells { Known bound.now cells.now }
    requires virtuals { AreVirtuals bound.now virtuals.now }
    ensures { IfOk result (λ v. AreMatches bound.now text v.items) }
{
    let mut matches = Vec::new(alloc);
    for declaration in virtuals {
        add_match(bound, cells, &mut matches, *declaration, text)?;
    }
    Ok(matches)
}

/// So many classes, none of which has a text.
fn no_texts(alloc: Global, count: usize) -> Result<Vec<Option<u32>>, AllocError>
    ensures { IfOk result (λ v. length v.items ≡ count) }
{
    let mut texts = Vec::new(alloc);
    for made in 0..count {
        texts.push(None)?;
    }
    Ok(texts)
}

/// The number of the class of a text, or 0 for what is no class.
#[tactic(auto, using(crate::proofs::Listed::listed))]
fn class_of_text(bound: &Bound, cells: &Cells, draft: &Draft, tree: TextTree, text: u32) -> u32
    requires cells { Known bound.now cells.now }
    ensures { result ≡ class_if (has_number tree.entry) (class_of_block draft.now.classes (block_number_of (source_of bound.now) text)) }
{
    if is_class(tree) {
        return draft.class_of(block_number(bound, cells, text));
    }
    0
}

/// The text of a class, if it is among those that are counted.
#[tactic(auto, using(crate::proofs::Listed::listed))]
fn put_text(texts: &mut Vec<Option<u32>>, class: u32, text: u32)
    ensures { texts.new.items ≡ text_put class text texts.old.items }
{
    if class == 0 {
        return;
    }
    let place = class as usize - 1;
    if texts.len() <= place {
        return;
    }
    texts[place] = Some(text);
}

/// For so many classes, from 1 on, the text whose class each is.
pub(crate) fn texts_of_classes(
    alloc: Global,
    bound: &Bound,
    cells: &Cells,
    draft: &Draft,
    trees: &[TextTree],
    count: usize,
) -> Result<Vec<Option<u32>>, AllocError>
    requires cells { Known bound.now cells.now }
    requires trees { AreTexts bound.now.program trees.now }
    ensures { IfOk result (λ v. AreTextsOfClasses bound.now draft.now count v.items) }
{
    let mut texts = no_texts(alloc, count)?;
    for index in 0..trees.len() {
        let text = number(index)?;
        let class = class_of_text(bound, cells, draft, trees[index], text);
        put_text(&mut texts, class, text);
    }
    Ok(texts)
}
