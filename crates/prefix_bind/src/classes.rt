//! The levels of each class.
ghost use Rattle.std.specs.Prelude.{◌≡◌, [], IfOk, length, reverse};
ghost use Rattle.prefix_bind.specs.Classes.{chain_of, classes_of, ends_chain, levels_in, levels_of};

use sim_base::{DeclNo, Memory};
use sim_scope::{Scopes, base, class_block, owner_of_level};
use std::alloc::{AllocError, Global};

/// Whether a chain ends before a block: the block stands in it, or there is no such block.
fn ends_chain(scopes: &Scopes, chain: &[u32], block: u32) -> bool
    ensures { result ≡ ends_chain scopes.now chain.now block }
{
    chain.contains(&block) || block as usize >= scopes.block_count()
}

/// The blocks of the levels, from one outward, up to where one of them would come again.
fn chain(alloc: Global, scopes: &Scopes, block: u32) -> Result<Vec<u32>, AllocError>
    ensures { IfOk result (λ chain. chain.items ≡ chain_of scopes.now (length scopes.now.blocks) [] block) }
{
    let mut chain = Vec::new(alloc);
    let mut level = block;
    for step in 0..scopes.block_count() {
        if ends_chain(scopes, &chain, level) {
            return Ok(chain);
        }
        chain.push(level)?;
        match base(scopes, level) {
            Some(next) => level = next,
            None => return Ok(chain),
        }
    }
    Ok(chain)
}

/// The classes to which blocks belong.
#[tactic(auto, unfolding(crate::specs::Classes::classes_of))]
fn classes_of(alloc: Global, scopes: &Scopes, blocks: &[u32]) -> Result<Vec<DeclNo>, AllocError>
    ensures { IfOk result (λ classes. classes.items ≡ classes_of scopes.now blocks.now) }
{
    let mut classes = Vec::new(alloc);
    for block in blocks {
        if let Some(class) = owner_of_level(scopes, Some(*block)) {
            classes.push(class)?;
        }
    }
    Ok(classes)
}

fn levels_in(alloc: Global, scopes: &Scopes, block: Option<u32>) -> Result<Vec<DeclNo>, AllocError>
    ensures { IfOk result (λ levels. levels.items ≡ levels_in scopes.now block) }
{
    match block {
        Some(block) => {
            let mut chain = chain(alloc, scopes, block)?;
            chain.reverse();
            classes_of(alloc, scopes, &chain)
        }
        None => Ok(Vec::new(alloc)),
    }
}

/// The levels of a class, from the outermost prefix inward: itself, and the classes of its prefix chain. Where prefixes lead into a cycle they
/// are cut at the first class that would come again. There are none where the declaration is no class.
#[tactic(auto, unfolding(crate::specs::Classes::levels_of))]
pub fn levels(alloc: Global, scopes: &Scopes, class: DeclNo) -> Result<Vec<DeclNo>, Memory>
    ensures { IfOk result (λ levels. levels.items ≡ levels_of scopes.now class) }
{
    Ok(levels_in(alloc, scopes, class_block(scopes, class))?)
}
