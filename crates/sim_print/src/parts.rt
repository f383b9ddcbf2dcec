// The tokens of the parts of declarations.
ghost use Rattle.std.specs.Prelude.{◌≡◌, OnOk};
ghost use Rattle.sim_tree.specs.ProgramDerivation.{mode_kind};
ghost use Rattle.sim_print.specs.Laid.{Prints};
ghost use Rattle.sim_print.specs.Spelling.{each};
ghost use Rattle.sim_print.specs.Trees.{of_bounds, of_class_prefix, of_constant, of_dimensions, of_formals, of_heading, of_mark, of_mode, of_names, of_protection, of_result, of_segment, of_segments, of_specification, of_specifier, of_type, of_variable, of_variables, of_virtual, of_virtuals};

use crate::expression::{expression, leading_sign};
use crate::layout::Layout;
use sim_base::{TokenKind, TokenNo};
use sim_tree::{
    ArraySegment, Bounds, Constant, Identifier, Mode, ModePart, Protection, Specification,
    Specifier, TypeName, Variable, VirtualSpecification,
};
use std::alloc::AllocError;

#[tactic(auto, using(crate::proofs::DeclarationParts::part_rules))]
pub(crate) fn names(layout: &mut Layout, list: &[Identifier]) -> Result<(), AllocError>
    ensures { OnOk result (Prints layout.old layout.new (of_names list.now)) }
{
    let Some((first, rest)) = list.split_first() else {
        return Ok(());
    };
    layout.name(first)?;
    for item in rest {
        layout.word(TokenKind::Comma)?;
        layout.name(item)?;
    }
    Ok(())
}

#[tactic(auto, using(crate::proofs::DeclarationParts::part_rules))]
pub(crate) fn type_name(layout: &mut Layout, name: &TypeName) -> Result<(), AllocError>
    ensures { OnOk result (Prints layout.old layout.new (of_type name.now)) }
{
    match name {
        TypeName::Integer(_) => layout.word(TokenKind::IntegerWord),
        TypeName::Boolean(_) => layout.word(TokenKind::Boolean),
        TypeName::Character(_) => layout.word(TokenKind::CharacterWord),
        TypeName::Text(_) => layout.word(TokenKind::TextWord),
        TypeName::Reference { class, .. } => {
            layout.word(TokenKind::Ref)?;
            layout.word(TokenKind::Open)?;
            layout.name(class)?;
            layout.word(TokenKind::Close)
        }
    }
}

/// The type of a result, where one is written.
#[tactic(auto, using(crate::proofs::DeclarationParts::part_rules))]
pub(crate) fn result_type(layout: &mut Layout, name: &Option<TypeName>) -> Result<(), AllocError>
    ensures { OnOk result (Prints layout.old layout.new (of_result name.now)) }
{
    match name {
        Some(name) => type_name(layout, name),
        None => Ok(()),
    }
}

// ---- variables and arrays

#[tactic(auto, using(crate::proofs::DeclarationParts::part_rules))]
fn constant(layout: &mut Layout, constant: &Constant) -> Result<(), AllocError>
    ensures { OnOk result (Prints layout.old layout.new (of_constant constant.now)) }
{
    match constant {
        Constant::Integer { sign, value, .. } => {
            leading_sign(layout, sign)?;
            layout.integer(*value)
        }
        Constant::Character { value, .. } => layout.character(*value),
        Constant::Text { value, .. } => layout.text(value),
        Constant::True { .. } => layout.word(TokenKind::True),
        Constant::False { .. } => layout.word(TokenKind::False),
    }
}

#[tactic(auto, using(crate::proofs::DeclarationParts::part_rules))]
fn variable(layout: &mut Layout, variable: &Variable) -> Result<(), AllocError>
    ensures { OnOk result (Prints layout.old layout.new (of_variable variable.now)) }
{
    layout.name(&variable.name)?;
    match &variable.value {
        Some(value) => {
            layout.word(TokenKind::Equal)?;
            constant(layout, value)
        }
        None => Ok(()),
    }
}

#[tactic(auto, using(crate::proofs::DeclarationParts::part_rules))]
pub(crate) fn variables(layout: &mut Layout, list: &[Variable]) -> Result<(), AllocError>
    ensures { OnOk result (Prints layout.old layout.new (of_variables list.now)) }
{
    let Some((first, rest)) = list.split_first() else {
        return Ok(());
    };
    variable(layout, first)?;
    for item in rest {
        layout.word(TokenKind::Comma)?;
        variable(layout, item)?;
    }
    Ok(())
}

#[tactic(auto, using(crate::proofs::DeclarationParts::part_rules))]
fn bounds(layout: &mut Layout, bounds: &Bounds) -> Result<(), AllocError>
    ensures { OnOk result (Prints layout.old layout.new (of_bounds bounds.now)) }
{
    expression(layout, &bounds.lower)?;
    layout.word(TokenKind::Colon)?;
    expression(layout, &bounds.upper)
}

#[tactic(auto, using(crate::proofs::DeclarationParts::part_rules))]
fn dimensions(layout: &mut Layout, list: &[Bounds]) -> Result<(), AllocError>
    ensures { OnOk result (Prints layout.old layout.new (of_dimensions list.now)) }
{
    let Some((first, rest)) = list.split_first() else {
        return Ok(());
    };
    bounds(layout, first)?;
    for item in rest {
        layout.word(TokenKind::Comma)?;
        bounds(layout, item)?;
    }
    Ok(())
}

#[tactic(auto, using(crate::proofs::DeclarationParts::part_rules))]
fn segment(layout: &mut Layout, segment: &ArraySegment) -> Result<(), AllocError>
    ensures { OnOk result (Prints layout.old layout.new (of_segment segment.now)) }
{
    names(layout, &segment.names)?;
    layout.word(TokenKind::Open)?;
    dimensions(layout, &segment.bounds)?;
    layout.word(TokenKind::Close)
}

#[tactic(auto, using(crate::proofs::DeclarationParts::part_rules))]
pub(crate) fn segments(layout: &mut Layout, list: &[ArraySegment]) -> Result<(), AllocError>
    ensures { OnOk result (Prints layout.old layout.new (of_segments list.now)) }
{
    let Some((first, rest)) = list.split_first() else {
        return Ok(());
    };
    segment(layout, first)?;
    for item in rest {
        layout.word(TokenKind::Comma)?;
        segment(layout, item)?;
    }
    Ok(())
}

// ---- headings

fn mode_kind(mode: Mode) -> TokenKind
    ensures { result ≡ mode_kind mode }
{
    match mode {
        Mode::Value => TokenKind::Value,
        Mode::Name => TokenKind::Name,
    }
}

#[tactic(auto, using(crate::proofs::DeclarationParts::part_rules))]
fn mode_part(layout: &mut Layout, part: &ModePart) -> Result<(), AllocError>
    ensures { OnOk result (Prints layout.old layout.new (of_mode part.now)) }
{
    layout.word(mode_kind(part.mode))?;
    names(layout, &part.names)?;
    layout.word(TokenKind::Semicolon)
}

#[tactic(auto, using(crate::proofs::DeclarationParts::part_rules))]
fn mode_parts(layout: &mut Layout, list: &[ModePart]) -> Result<(), AllocError>
    ensures { OnOk result (Prints layout.old layout.new (each of_mode list.now)) }
{
    for item in list {
        mode_part(layout, item)?;
    }
    Ok(())
}

#[tactic(auto, using(crate::proofs::DeclarationParts::part_rules))]
fn specifier(layout: &mut Layout, specifier: &Specifier) -> Result<(), AllocError>
    ensures { OnOk result (Prints layout.old layout.new (of_specifier specifier.now)) }
{
    match specifier {
        Specifier::Simple(name) => type_name(layout, name),
        Specifier::Array { element, .. } => {
            type_name(layout, element)?;
            layout.word(TokenKind::Array)
        }
        Specifier::Procedure { result, .. } => {
            result_type(layout, result)?;
            layout.word(TokenKind::Procedure)
        }
    }
}

#[tactic(auto, using(crate::proofs::DeclarationParts::part_rules))]
fn specification(layout: &mut Layout, part: &Specification) -> Result<(), AllocError>
    ensures { OnOk result (Prints layout.old layout.new (of_specification part.now)) }
{
    specifier(layout, &part.specifier)?;
    names(layout, &part.names)?;
    layout.word(TokenKind::Semicolon)
}

#[tactic(auto, using(crate::proofs::DeclarationParts::part_rules))]
fn specifications(layout: &mut Layout, list: &[Specification]) -> Result<(), AllocError>
    ensures { OnOk result (Prints layout.old layout.new (each of_specification list.now)) }
{
    for item in list {
        specification(layout, item)?;
    }
    Ok(())
}

// Formal parameters in their parentheses, where there are some.
#[tactic(auto, using(crate::proofs::DeclarationParts::part_rules))]
fn formals(layout: &mut Layout, list: &[Identifier]) -> Result<(), AllocError>
    ensures { OnOk result (Prints layout.old layout.new (of_formals list.now)) }
{
    if list.is_empty() {
        return Ok(());
    }
    layout.word(TokenKind::Open)?;
    names(layout, list)?;
    layout.word(TokenKind::Close)
}

#[tactic(auto, using(crate::proofs::DeclarationParts::part_rules))]
pub(crate) fn heading(
    layout: &mut Layout,
    name: &Identifier,
    parameters: &[Identifier],
    modes: &[ModePart],
    list: &[Specification],
) -> Result<(), AllocError>
    ensures { OnOk result (Prints layout.old layout.new (of_heading name.now parameters.now modes.now list.now)) }
{
    layout.name(name)?;
    formals(layout, parameters)?;
    layout.word(TokenKind::Semicolon)?;
    mode_parts(layout, modes)?;
    specifications(layout, list)
}

// ---- classes

/// A word, where it is written.
#[tactic(auto, using(crate::proofs::DeclarationParts::part_rules))]
pub(crate) fn mark(
    layout: &mut Layout,
    kind: TokenKind,
    written: &Option<TokenNo>,
) -> Result<(), AllocError>
    ensures { OnOk result (Prints layout.old layout.new (of_mark kind written.now)) }
{
    match written {
        Some(_) => layout.word(kind),
        None => Ok(()),
    }
}

#[tactic(auto, using(crate::proofs::DeclarationParts::part_rules))]
fn protection(layout: &mut Layout, part: &Protection) -> Result<(), AllocError>
    ensures { OnOk result (Prints layout.old layout.new (of_protection part.now)) }
{
    mark(layout, TokenKind::Hidden, &part.hidden)?;
    mark(layout, TokenKind::Protected, &part.protected)?;
    names(layout, &part.names)?;
    layout.word(TokenKind::Semicolon)
}

#[tactic(auto, using(crate::proofs::DeclarationParts::part_rules))]
pub(crate) fn protections(layout: &mut Layout, list: &[Protection]) -> Result<(), AllocError>
    ensures { OnOk result (Prints layout.old layout.new (each of_protection list.now)) }
{
    for item in list {
        protection(layout, item)?;
    }
    Ok(())
}

#[tactic(auto, using(crate::proofs::DeclarationParts::part_rules))]
fn virtual_specification(layout: &mut Layout, part: &VirtualSpecification) -> Result<(), AllocError>
    ensures { OnOk result (Prints layout.old layout.new (of_virtual part.now)) }
{
    result_type(layout, &part.result)?;
    layout.word(TokenKind::Procedure)?;
    names(layout, &part.names)?;
    layout.word(TokenKind::Semicolon)
}

/// The part of the virtual procedures, where there are some.
#[tactic(auto, using(crate::proofs::DeclarationParts::part_rules))]
pub(crate) fn virtuals(layout: &mut Layout, list: &[VirtualSpecification]) -> Result<(), AllocError>
    ensures { OnOk result (Prints layout.old layout.new (of_virtuals list.now)) }
{
    if list.is_empty() {
        return Ok(());
    }
    layout.word(TokenKind::Virtual)?;
    layout.word(TokenKind::Colon)?;
    for item in list {
        virtual_specification(layout, item)?;
    }
    Ok(())
}

/// The prefix of a class, where one is written.
#[tactic(auto, using(crate::proofs::DeclarationParts::part_rules))]
pub(crate) fn class_prefix(
    layout: &mut Layout,
    prefix: &Option<Identifier>,
) -> Result<(), AllocError>
    ensures { OnOk result (Prints layout.old layout.new (of_class_prefix prefix.now)) }
{
    match prefix {
        Some(prefix) => layout.name(prefix),
        None => Ok(()),
    }
}
