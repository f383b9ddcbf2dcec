//! The formal parameters of blocks.
ghost use Rattle.std.specs.Prelude.{◌≡◌, ◌++◌, IfOk, OnOk, length, take};
ghost use Rattle.sim_scope.specs.Scopes.{formal_in};
ghost use Rattle.sim_scope.specs.Source.{source_of};
ghost use Rattle.sim_meaning.specs.Closing.{formals_from};
ghost use Rattle.text_tables.specs.Making.{ClassFormals, Formals, class_formals_of, one_formal};

use crate::places::number_of;
use sim_base::DeclNo;
use sim_scope::{Block, Bound, Entry, Formal, class_formal, class_formals_count, entry_of};
use std::alloc::{AllocError, Global};

/// What is declared, if it is a formal parameter.
fn formal_of(entry: Option<Entry>) -> Option<Formal>
    ensures { result ≡ formal_in entry }
{
    match entry {
        Some(Entry::Formal(formal)) => Some(formal),
        _ => None,
    }
}

/// The declarations of a block that are its formal parameters.
fn parameters<'a>(block: &'a Block) -> &'a [DeclNo]
    ensures { result.now ≡ take block.now.formals block.now.numbers }
{
    let numbers = block.numbers();
    if block.formals() < numbers.len() {
        return &numbers[..block.formals()];
    }
    numbers
}

/// One formal parameter more, if it is one.
fn add(formals: &mut Vec<Formal>, formal: Option<Formal>) -> Result<(), AllocError>
    ensures { OnOk result (formals.new.items ≡ formals.old.items ++ one_formal formal) }
{
    if let Some(formal) = formal {
        formals.push(formal)?;
    }
    Ok(())
}

/// The formal parameters among declarations.
#[tactic(auto, using(crate::proofs::Passing::passing))]
fn formals_among(alloc: Global, bound: &Bound, list: &[DeclNo]) -> Result<Vec<Formal>, AllocError>
    ensures { IfOk result (λ v. v.items ≡ formals_from (source_of bound.now) list.now) }
{
    let mut formals = Vec::new(alloc);
    for item in list {
        let formal = formal_of(entry_of(&bound.scopes, *item));
        add(&mut formals, formal)?;
    }
    Ok(formals)
}

/// The formal parameters of each block.
#[tactic(auto, using(crate::proofs::Passing::passing))]
pub(crate) fn formals_of(
    alloc: Global,
    bound: &Bound,
    blocks: &[Block],
) -> Result<Vec<Vec<Formal>>, AllocError>
    ensures { IfOk result (λ v. Formals (source_of bound.now) blocks.now v.items) }
{
    let mut table = Vec::new(alloc);
    for block in blocks {
        let formals = formals_among(alloc, bound, parameters(block))?;
        table.push(formals)?;
    }
    Ok(table)
}

/// The formal parameters of a class, of all its levels, the outermost prefix first.
#[tactic(auto, using(crate::proofs::Passing::passing))]
fn class_formals(alloc: Global, bound: &Bound, block: u32) -> Result<Vec<Formal>, AllocError>
    ensures { IfOk result (λ v. v.items ≡ class_formals_of (source_of bound.now) block) }
{
    let count = usize::try_from(class_formals_count(&bound.scopes, block)).map_err(|_| AllocError)?;
    let mut formals = Vec::new(alloc);
    for place in 0..count {
        add(&mut formals, class_formal(&bound.scopes, block, place))?;
    }
    Ok(formals)
}

/// The formal parameters of each block as those of a class.
#[tactic(auto, using(crate::proofs::Passing::passing))]
pub(crate) fn class_formals_table(
    alloc: Global,
    bound: &Bound,
) -> Result<Vec<Vec<Formal>>, AllocError>
    ensures { IfOk result (λ v. ClassFormals (source_of bound.now) v.items (length bound.now.scopes.blocks)) }
{
    let mut table = Vec::new(alloc);
    for index in 0..bound.scopes.block_count() {
        let formals = class_formals(alloc, bound, number_of(index)?)?;
        table.push(formals)?;
    }
    Ok(table)
}
