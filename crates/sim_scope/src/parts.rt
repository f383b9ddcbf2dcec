//! The parts of declarations: what is declared, headings, interfaces of classes, and prefixes.
ghost use Rattle.std.specs.Prelude.{◌≡◌, OnOk, Some, option_map};
ghost use Rattle.sim_tree.specs.SyntaxOfProgram.{number_of};
ghost use Rattle.sim_scope.specs.Building.{marked};
ghost use Rattle.sim_scope.specs.Declare.{array_marks, brings_class, brought_marks, class_marks, class_prefix_marks, first_of_class, first_of_procedure, headed_marks, is_written, marks_of_standard, mode_named, moded_marks, of_heading, of_mode_part, of_protection, of_segment, of_specification, of_specifier, of_virtual, parameter_marks, prefix_marks, prefixed_marks, procedure_marks, protected_marks, provides_attribute, qualified_marks, qualified_result, result_named, standard_marks, type_named, variable_marks, virtual_name_marks};
ghost use Rattle.sim_scope.specs.Runs.{Runs, each};

use crate::building::Building;
use crate::provided::{CLASSES_OF_SETS, CLASSES_OF_SIMULATION, class_owning, is_provided};
use crate::standard::standard_prefix;
use crate::types::{BlockKind, Entry, FormalKind, Mode, SimType, StandardClass, StandardPrefix};
use sim_base::TokenNo;
use sim_tree::{
    ArraySegment, Identifier, ModePart, Protection, Specification, Specifier, TypeName, Variable,
    VirtualSpecification,
};
use sim_values::{STANDARD_NAMES, Standard};
use std::alloc::{AllocError, Global};

/// The type that is written. The class of a `ref` is not looked for yet.
#[tactic(auto, unfolding(crate::specs::Declare::type_named))]
fn type_named(name: &TypeName) -> SimType
    ensures { result ≡ type_named name.now }
{
    match name {
        TypeName::Integer(_) => SimType::Integer,
        TypeName::Boolean(_) => SimType::Boolean,
        TypeName::Character(_) => SimType::Character,
        TypeName::Text(_) => SimType::Text,
        TypeName::Reference { .. } => SimType::NoneType,
    }
}

#[tactic(auto, unfolding(crate::specs::Declare::result_named))]
fn result_named(name: &Option<TypeName>) -> Option<SimType>
    ensures { result ≡ result_named name.now }
{
    match name {
        Some(name) => Some(type_named(name)),
        None => None,
    }
}

#[tactic(auto, unfolding(crate::specs::Declare::mode_named))]
fn mode_named(mode: sim_tree::Mode) -> Mode
    ensures { result ≡ mode_named mode }
{
    match mode {
        sim_tree::Mode::Value => Mode::ByValue,
        sim_tree::Mode::Name => Mode::ByName,
    }
}

/// The first token of a procedure: its type, where it has one.
#[tactic(auto, unfolding(crate::specs::Declare::first_of_procedure))]
fn first_of_procedure(result_type: &Option<TypeName>, token: TokenNo) -> TokenNo
    ensures { result.0 ≡ first_of_procedure result_type.now token.0 }
{
    match result_type {
        Some(TypeName::Integer(first)) => *first,
        Some(TypeName::Boolean(first)) => *first,
        Some(TypeName::Character(first)) => *first,
        Some(TypeName::Text(first)) => *first,
        Some(TypeName::Reference { token: first, .. }) => *first,
        None => token,
    }
}

/// The first token of a class: its prefix, where it has one.
#[tactic(auto, unfolding(crate::specs::Declare::first_of_class))]
fn first_of_class(prefix: &Option<Identifier>, token: TokenNo) -> TokenNo
    ensures { result.0 ≡ first_of_class prefix.now token.0 }
{
    match prefix {
        Some(prefix) => prefix.token,
        None => token,
    }
}

/// The class of a `ref` that is written for what is declared.
#[tactic(auto, using(crate::proofs::Declarations::declares))]
fn qualify(alloc: Global, tables: &mut Building, type_name: &TypeName) -> Result<(), AllocError>
    ensures { OnOk result (Runs marked tables.old tables.new (qualified_marks type_name.now)) }
{
    match type_name {
        TypeName::Reference { class, .. } => tables.qualify(alloc, class),
        TypeName::Integer(_) => Ok(()),
        TypeName::Boolean(_) => Ok(()),
        TypeName::Character(_) => Ok(()),
        TypeName::Text(_) => Ok(()),
    }
}

/// The same of the result of a procedure.
#[tactic(auto, using(crate::proofs::Declarations::declares))]
fn qualify_result(
    alloc: Global,
    tables: &mut Building,
    type_name: &Option<TypeName>,
) -> Result<(), AllocError>
    ensures { OnOk result (Runs marked tables.old tables.new (qualified_result type_name.now)) }
{
    match type_name {
        Some(type_name) => qualify(alloc, tables, type_name),
        None => Ok(()),
    }
}

/// A variable or a constant.
#[tactic(auto, using(crate::proofs::Declarations::declares))]
fn variable(
    alloc: Global,
    tables: &mut Building,
    type_name: &TypeName,
    variable: &Variable,
) -> Result<(), AllocError>
    ensures { OnOk result (Runs marked tables.old tables.new (variable_marks type_name.now variable.now)) }
{
    let ty = type_named(type_name);
    match &variable.value {
        Some(_) => {
            tables.declare(alloc, &variable.name, Entry::Constant(ty))?;
            qualify(alloc, tables, type_name)
        }
        None => {
            tables.declare(alloc, &variable.name, Entry::Variable(ty))?;
            qualify(alloc, tables, type_name)
        }
    }
}

#[tactic(auto, using(crate::proofs::Declarations::declares))]
pub(crate) fn variables(
    alloc: Global,
    tables: &mut Building,
    type_name: &TypeName,
    list: &[Variable],
) -> Result<(), AllocError>
    ensures { OnOk result (Runs marked tables.old tables.new (each (variable_marks type_name.now) list.now)) }
{
    for item in list {
        variable(alloc, tables, type_name, item)?;
    }
    Ok(())
}

/// An array.
#[tactic(auto, using(crate::proofs::Declarations::declares))]
fn array(
    alloc: Global,
    tables: &mut Building,
    type_name: &TypeName,
    dimensions: u32,
    name: &Identifier,
) -> Result<(), AllocError>
    ensures { OnOk result (Runs marked tables.old tables.new (array_marks type_name.now dimensions name.now)) }
{
    let element = type_named(type_name);
    let entry = Entry::Array {
        element,
        dimensions,
    };
    tables.declare(alloc, name, entry)?;
    qualify(alloc, tables, type_name)
}

/// The arrays of a segment.
#[tactic(auto, using(crate::proofs::Declarations::declares))]
fn arrays(
    alloc: Global,
    tables: &mut Building,
    type_name: &TypeName,
    dimensions: u32,
    list: &[Identifier],
) -> Result<(), AllocError>
    ensures { OnOk result (Runs marked tables.old tables.new (each (array_marks type_name.now dimensions) list.now)) }
{
    for item in list {
        array(alloc, tables, type_name, dimensions, item)?;
    }
    Ok(())
}

#[tactic(auto, using(crate::proofs::Declarations::declares))]
pub(crate) fn segments(
    alloc: Global,
    tables: &mut Building,
    type_name: &TypeName,
    list: &[ArraySegment],
) -> Result<(), AllocError>
    ensures { OnOk result (Runs marked tables.old tables.new (each (of_segment type_name.now) list.now)) }
{
    for item in list {
        let Ok(dimensions) = u32::try_from(item.bounds.len()) else {
            return Err(AllocError);
        };
        arrays(alloc, tables, type_name, dimensions, &item.names)?;
    }
    Ok(())
}

#[tactic(auto, using(crate::proofs::Declarations::declares))]
fn parameters(alloc: Global, tables: &mut Building, list: &[Identifier]) -> Result<(), AllocError>
    ensures { OnOk result (Runs marked tables.old tables.new (each parameter_marks list.now)) }
{
    for item in list {
        tables.parameter(alloc, item)?;
    }
    Ok(())
}

/// The parameters of a mode part.
#[tactic(auto, using(crate::proofs::Declarations::declares))]
fn moded(tables: &mut Building, mode: sim_tree::Mode, list: &[Identifier])
    ensures { Runs marked tables.old tables.new (each (moded_marks mode) list.now) }
{
    for item in list {
        tables.moded(item, mode_named(mode));
    }
}

#[tactic(auto, using(crate::proofs::Declarations::declares))]
fn mode_parts(tables: &mut Building, list: &[ModePart])
    ensures { Runs marked tables.old tables.new (each of_mode_part list.now) }
{
    for item in list {
        moded(tables, item.mode, &item.names);
    }
}

/// A parameter that is specified.
#[tactic(auto, using(crate::proofs::Declarations::declares))]
fn specified(
    alloc: Global,
    tables: &mut Building,
    specifier: &Specifier,
    name: &Identifier,
) -> Result<(), AllocError>
    ensures { OnOk result (Runs marked tables.old tables.new (of_specifier specifier.now name.now)) }
{
    match specifier {
        Specifier::Simple(type_name) => {
            let ty = type_named(type_name);
            tables.specified(name, FormalKind::Simple, Some(ty));
            qualify(alloc, tables, type_name)
        }
        Specifier::Array { element, .. } => {
            let ty = type_named(element);
            tables.specified(name, FormalKind::Array, Some(ty));
            qualify(alloc, tables, element)
        }
        Specifier::Procedure {
            result: type_name,
            ..
        } => {
            let ty = result_named(type_name);
            tables.specified(name, FormalKind::Procedure, ty);
            qualify_result(alloc, tables, type_name)
        }
    }
}

/// The parameters of a specification.
#[tactic(auto, using(crate::proofs::Declarations::declares))]
fn specified_names(
    alloc: Global,
    tables: &mut Building,
    specifier: &Specifier,
    list: &[Identifier],
) -> Result<(), AllocError>
    ensures { OnOk result (Runs marked tables.old tables.new (each (of_specifier specifier.now) list.now)) }
{
    for item in list {
        specified(alloc, tables, specifier, item)?;
    }
    Ok(())
}

#[tactic(auto, using(crate::proofs::Declarations::declares))]
fn specifications(
    alloc: Global,
    tables: &mut Building,
    list: &[Specification],
) -> Result<(), AllocError>
    ensures { OnOk result (Runs marked tables.old tables.new (each of_specification list.now)) }
{
    for item in list {
        specified_names(alloc, tables, &item.specifier, &item.names)?;
    }
    Ok(())
}

/// At the end of the heading each parameter has been specified.
#[tactic(auto, using(crate::proofs::Declarations::declares))]
fn headed(tables: &mut Building, list: &[Identifier])
    ensures { Runs marked tables.old tables.new (each headed_marks list.now) }
{
    for item in list {
        tables.headed(item);
    }
}

/// A heading, inside the block of its procedure or class.
#[tactic(auto, using(crate::proofs::Declarations::declares))]
pub(crate) fn heading(
    alloc: Global,
    tables: &mut Building,
    names: &[Identifier],
    modes: &[ModePart],
    list: &[Specification],
) -> Result<(), AllocError>
    ensures { OnOk result (Runs marked tables.old tables.new (of_heading names.now modes.now list.now)) }
{
    parameters(alloc, tables, names)?;
    mode_parts(tables, modes);
    specifications(alloc, tables, list)?;
    headed(tables, names);
    Ok(())
}

/// Whether a word is written.
fn is_written(word: Option<TokenNo>) -> bool
    ensures { result ≡ is_written (option_map number_of word) }
{
    match word {
        Some(_) => true,
        None => false,
    }
}

/// The attributes of one protection part.
#[tactic(auto, using(crate::proofs::Declarations::declares))]
fn protected(
    alloc: Global,
    tables: &mut Building,
    hides: bool,
    keeps: bool,
    list: &[Identifier],
) -> Result<(), AllocError>
    ensures { OnOk result (Runs marked tables.old tables.new (each (protected_marks hides keeps) list.now)) }
{
    for item in list {
        tables.protect(alloc, hides, keeps, item)?;
    }
    Ok(())
}

#[tactic(auto, using(crate::proofs::Declarations::declares))]
pub(crate) fn protections(
    alloc: Global,
    tables: &mut Building,
    list: &[Protection],
) -> Result<(), AllocError>
    ensures { OnOk result (Runs marked tables.old tables.new (each of_protection list.now)) }
{
    for item in list {
        let hides = is_written(item.hidden);
        let keeps = is_written(item.protected);
        protected(alloc, tables, hides, keeps, &item.names)?;
    }
    Ok(())
}

/// A virtual procedure.
#[tactic(auto, using(crate::proofs::Declarations::declares))]
fn virtual_name(
    alloc: Global,
    tables: &mut Building,
    result_type: &Option<TypeName>,
    name: &Identifier,
) -> Result<(), AllocError>
    ensures { OnOk result (Runs marked tables.old tables.new (virtual_name_marks result_type.now name.now)) }
{
    let ty = result_named(result_type);
    let entry = Entry::Virtual {
        result: ty,
        own: None,
    };
    tables.declare(alloc, name, entry)?;
    qualify_result(alloc, tables, result_type)
}

/// The virtual procedures of one specification.
#[tactic(auto, using(crate::proofs::Declarations::declares))]
fn virtual_names(
    alloc: Global,
    tables: &mut Building,
    result_type: &Option<TypeName>,
    list: &[Identifier],
) -> Result<(), AllocError>
    ensures { OnOk result (Runs marked tables.old tables.new (each (virtual_name_marks result_type.now) list.now)) }
{
    for item in list {
        virtual_name(alloc, tables, result_type, item)?;
    }
    Ok(())
}

#[tactic(auto, using(crate::proofs::Declarations::declares))]
pub(crate) fn virtuals(
    alloc: Global,
    tables: &mut Building,
    list: &[VirtualSpecification],
) -> Result<(), AllocError>
    ensures { OnOk result (Runs marked tables.old tables.new (each of_virtual list.now)) }
{
    for item in list {
        virtual_names(alloc, tables, &item.result, &item.names)?;
    }
    Ok(())
}

/// The identifier of a procedure, and the beginning of its block.
#[tactic(auto, using(crate::proofs::Declarations::declares))]
pub(crate) fn procedure(
    alloc: Global,
    tables: &mut Building,
    result_type: &Option<TypeName>,
    token: TokenNo,
    name: &Identifier,
) -> Result<(), AllocError>
    ensures { OnOk result (Runs marked tables.old tables.new (procedure_marks result_type.now token.0 name.now)) }
{
    let ty = result_named(result_type);
    let first = first_of_procedure(result_type, token);
    tables.declare_procedure(alloc, name, ty)?;
    qualify_result(alloc, tables, result_type)?;
    tables.open(alloc, BlockKind::Procedure, first, name.token)
}

/// A class that a standard prefix declares.
#[tactic(auto, using(crate::proofs::Declarations::declares))]
fn brought_class(
    alloc: Global,
    tables: &mut Building,
    token: TokenNo,
    class: &StandardClass,
) -> Result<(), AllocError>
    ensures { OnOk result (Runs marked tables.old tables.new (brings_class token.0 class.now)) }
{
    tables.bring(alloc, *class, token)
}

/// The classes that a standard prefix declares.
#[tactic(auto, using(crate::proofs::Declarations::declares))]
fn brought_classes(
    alloc: Global,
    tables: &mut Building,
    token: TokenNo,
    list: &[StandardClass],
) -> Result<(), AllocError>
    ensures { OnOk result (Runs marked tables.old tables.new (each (brings_class token.0) list.now)) }
{
    for item in list {
        brought_class(alloc, tables, token, item)?;
    }
    Ok(())
}

/// A name of the table, where a standard prefix declares it.
fn provided_attribute(
    alloc: Global,
    tables: &mut Building,
    token: TokenNo,
    prefix: StandardPrefix,
    name: Standard,
) -> Result<(), AllocError>
    ensures { OnOk result (Runs marked tables.old tables.new (provides_attribute prefix token.0 name)) }
{
    let owner = name.owner();
    if is_provided(prefix, owner) {
        return tables.provide(alloc, class_owning(owner), name, token);
    }
    Ok(())
}

/// Those of some names of the table that a standard prefix declares.
#[tactic(auto, using(crate::proofs::Declarations::declares))]
fn provided_attributes(
    alloc: Global,
    tables: &mut Building,
    token: TokenNo,
    prefix: StandardPrefix,
    list: &[Standard],
) -> Result<(), AllocError>
    ensures { OnOk result (Runs marked tables.old tables.new (each (provides_attribute prefix token.0) list.now)) }
{
    for item in list {
        provided_attribute(alloc, tables, token, prefix, *item)?;
    }
    Ok(())
}

/// What a standard prefix declares.
#[tactic(auto, using(crate::proofs::Declarations::declare_brought))]
fn brought(
    alloc: Global,
    tables: &mut Building,
    token: TokenNo,
    prefix: StandardPrefix,
    classes: &[StandardClass],
) -> Result<(), AllocError>
    ensures { OnOk result (Runs marked tables.old tables.new (brought_marks token.0 prefix classes.now)) }
{
    brought_classes(alloc, tables, token, classes)?;
    provided_attributes(alloc, tables, token, prefix, &STANDARD_NAMES)
}

/// What a standard prefix declares in its block.
#[tactic(auto, using(crate::proofs::Declarations::declares))]
fn standard(
    alloc: Global,
    tables: &mut Building,
    token: TokenNo,
    prefix: StandardPrefix,
) -> Result<(), AllocError>
    ensures { OnOk result (Runs marked tables.old tables.new (marks_of_standard token.0 (Some prefix))) }
{
    match prefix {
        StandardPrefix::Simset => {
            brought(
                alloc,
                tables,
                token,
                StandardPrefix::Simset,
                &CLASSES_OF_SETS,
            )
        }
        StandardPrefix::Simulation => {
            brought(
                alloc,
                tables,
                token,
                StandardPrefix::Simulation,
                &CLASSES_OF_SIMULATION,
            )
        }
    }
}

/// What a prefix of this name declares, where it turns out to be the standard one.
#[tactic(auto, using(crate::proofs::Declarations::declares))]
fn named_standard(
    alloc: Global,
    tables: &mut Building,
    token: TokenNo,
    name: &[u8],
) -> Result<(), AllocError>
    ensures { OnOk result (Runs marked tables.old tables.new (standard_marks token.0 name.now)) }
{
    match standard_prefix(name) {
        Some(prefix) => standard(alloc, tables, token, prefix),
        None => Ok(()),
    }
}

/// A prefix in front of the block that has begun at a token.
#[tactic(auto, using(crate::proofs::Declarations::declares))]
fn prefix(
    alloc: Global,
    tables: &mut Building,
    first: TokenNo,
    class: &Identifier,
) -> Result<(), AllocError>
    ensures { OnOk result (Runs marked tables.old tables.new (prefix_marks first.0 class.now)) }
{
    tables.prefix(alloc, class)?;
    named_standard(alloc, tables, first, class.name.as_bytes())
}

/// The prefix of a class, if it has one.
#[tactic(auto, using(crate::proofs::Declarations::declares))]
fn class_prefix(
    alloc: Global,
    tables: &mut Building,
    first: TokenNo,
    class: &Option<Identifier>,
) -> Result<(), AllocError>
    ensures { OnOk result (Runs marked tables.old tables.new (class_prefix_marks first.0 class.now)) }
{
    match class {
        Some(class) => prefix(alloc, tables, first, class),
        None => Ok(()),
    }
}

/// The beginning of a prefixed block.
#[tactic(auto, using(crate::proofs::Declarations::declares))]
pub(crate) fn prefixed(
    alloc: Global,
    tables: &mut Building,
    class: &Identifier,
    begin: TokenNo,
) -> Result<(), AllocError>
    ensures { OnOk result (Runs marked tables.old tables.new (prefixed_marks class.now begin.0)) }
{
    tables.open(alloc, BlockKind::Prefixed, class.token, begin)?;
    prefix(alloc, tables, begin, class)
}

/// The identifier of a class, and the beginning of its block.
#[tactic(auto, using(crate::proofs::Declarations::declares))]
pub(crate) fn class(
    alloc: Global,
    tables: &mut Building,
    prefix: &Option<Identifier>,
    token: TokenNo,
    name: &Identifier,
) -> Result<(), AllocError>
    ensures { OnOk result (Runs marked tables.old tables.new (class_marks prefix.now token.0 name.now)) }
{
    let first = first_of_class(prefix, token);
    tables.declare_class(alloc, name)?;
    tables.open(alloc, BlockKind::Class, first, name.token)?;
    class_prefix(alloc, tables, name.token, prefix)
}
