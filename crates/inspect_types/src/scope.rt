//! What is seen through a connection.
ghost use Rattle.std.specs.Prelude.{◌≡◌, ◌∷◌, [], slice_get, OnOk, IfOk};
ghost use Rattle.inspect_types.specs.Visible.{Adds, AreVisible, ConnectsTo, is_it, is_visible, numbers_in};

use sim_base::{DeclNo, Rule, TokenNo};
use sim_scope::{Scopes, StaticRefusal, base, class_block, has_classes, represented, shown};
use std::alloc::{AllocError, Global};

/// What is seen of a connected object without a dot.
#[derive(Drop)]
pub struct Scope {
    /// Its attributes, from the innermost level of the class outward, and in text order within a level.
    pub visible: Vec<DeclNo>,
}

/// Whether what is found stands for a declaration.
fn is_it(scopes: &Scopes, found: Option<DeclNo>, declaration: DeclNo) -> bool
    ensures { result ≡ is_it scopes.now found declaration }
{
    match found {
        Some(found) => represented(scopes, found) == declaration,
        None => false,
    }
}

/// Whether an attribute of a class is what its identifier denotes in a connection of the class, at a token.
#[tactic(auto, unfolding(crate::specs::Visible::is_visible))]
fn is_visible(scopes: &Scopes, at: TokenNo, block: u32, declaration: DeclNo) -> bool
    ensures { result ≡ is_visible scopes.now at.0 block declaration }
{
    match scopes.declarations().get(declaration.0 as usize) {
        Some(row) => is_it(
            scopes,
            shown(scopes, Some(at.0), block, row.name.as_bytes()),
            declaration,
        ),
        None => false,
    }
}

/// An attribute, if it is visible.
#[tactic(auto, unfolding(crate::specs::Visible::Adds))]
fn add_attribute(
    scopes: &Scopes,
    at: TokenNo,
    block: u32,
    attribute: &DeclNo,
    visible: &mut Vec<DeclNo>,
) -> Result<(), AllocError>
    ensures { OnOk result (Adds (is_visible scopes.now at.0 block) visible.old.items visible.new.items (attribute.now ∷ [])) }
{
    if is_visible(scopes, at, block, *attribute) {
        visible.push(*attribute)?;
    }
    Ok(())
}

/// The visible ones of some attributes.
#[tactic(auto, using(crate::proofs::Attributes::attributes))]
fn add_visible(
    scopes: &Scopes,
    at: TokenNo,
    block: u32,
    attributes: &[DeclNo],
    visible: &mut Vec<DeclNo>,
) -> Result<(), AllocError>
    ensures { OnOk result (Adds (is_visible scopes.now at.0 block) visible.old.items visible.new.items attributes.now) }
{
    for attribute in attributes {
        add_attribute(scopes, at, block, attribute, visible)?;
    }
    Ok(())
}

/// What a level declares.
fn numbers_at(scopes: &Scopes, level: u32) -> &[DeclNo]
    ensures { result.now ≡ numbers_in (slice_get scopes.now.blocks level) }
{
    match scopes.blocks().get(level as usize) {
        Some(row) => row.numbers(),
        None => &[],
    }
}

/// The attributes of a class that are visible in a connection of it, at a token.
#[tactic(auto, using(crate::proofs::Attributes::levels))]
fn visible(
    alloc: Global,
    scopes: &Scopes,
    at: TokenNo,
    block: u32,
) -> Result<Vec<DeclNo>, AllocError>
    ensures { IfOk result (λ list. AreVisible scopes.now at.0 block list.items) }
{
    let mut list = Vec::new(alloc);
    let mut level = block;
    for step in 0..scopes.block_count() {
        add_visible(scopes, at, block, numbers_at(scopes, level), &mut list)?;
        match base(scopes, level) {
            Some(outer) => level = outer,
            None => return Ok(list),
        }
    }
    Ok(list)
}

/// What is seen through a connection of a class, where it stands at a token. `S17` is broken there where a level of the class declares a
/// class.
#[tactic(auto, unfolding(crate::specs::Visible::AreVisible))]
pub fn connect(
    alloc: Global,
    scopes: &Scopes,
    class: DeclNo,
    at: TokenNo,
) -> Result<Scope, StaticRefusal>
    ensures { ConnectsTo scopes.now class at result }
{
    let Some(block) = class_block(scopes, class) else {
        return Ok(Scope {
            visible: Vec::new(alloc),
        });
    };
    if has_classes(scopes, block) {
        return Err(StaticRefusal::Broken {
            rule: Rule::ClassWithClasses,
            token: at,
        });
    }
    Ok(Scope {
        visible: visible(alloc, scopes, at, block)?,
    })
}
