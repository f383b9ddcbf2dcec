//! What is chosen from a list, as a number of the list.
ghost use Rattle.std.specs.Prelude.{◌≡◌, ◌∷◌, [], OnOk};
ghost use Rattle.code_file.specs.Fields.{Listed};
ghost use Rattle.code_file.specs.Reading.{Gives, truth_at, kind_at, type_at, mode_at, shape_at, truth_of, kind_of, type_of, mode_of, shape_of};
ghost use Rattle.code_file.specs.Spelling.{truth_field, type_field, kind_number, mode_number, shape_number};
ghost use Rattle.code_file.specs.Writing.{Appends};

use crate::fault::Fault;
use crate::fields::{put_number, read_listed};
use sim_code::{BlockKind, CodeMode, CodeType, FormalShape};
use std::alloc::AllocError;

/// A truth value.
#[tactic(auto, unfolding(crate::specs::Reading::truth_at))]
pub fn read_truth(bytes: &[u8]) -> Result<(bool, &[u8]), Fault>
    ensures { Gives (λ x. (x.0, x.1.now)) result (truth_at bytes.now) }
{
    let (number, rest) = read_listed(bytes, 1)?;
    Ok((number != 0, rest))
}

/// Writes a truth value.
pub fn put_truth(out: &mut Vec<u8>, truth: bool) -> Result<(), AllocError>
    ensures { OnOk result (Appends out.old.items out.new.items (truth_field truth ∷ [])) }
{
    put_number(out, u32::from(truth))?;
    Ok(())
}

fn kind_of(number: u32) -> BlockKind
    ensures { result ≡ kind_of number }
{
    match number {
        0 => BlockKind::SubBlock,
        1 => BlockKind::Procedure,
        2 => BlockKind::Object,
        _ => BlockKind::Prefixed,
    }
}

/// What a block is.
#[tactic(auto, unfolding(crate::specs::Reading::kind_at))]
pub fn read_kind(bytes: &[u8]) -> Result<(BlockKind, &[u8]), Fault>
    ensures { Gives (λ x. (x.0, x.1.now)) result (kind_at bytes.now) }
{
    let (number, rest) = read_listed(bytes, 3)?;
    Ok((kind_of(number), rest))
}

/// Writes what a block is.
pub fn put_kind(out: &mut Vec<u8>, kind: BlockKind) -> Result<(), AllocError>
    ensures { OnOk result (Appends out.old.items out.new.items (Listed 3 (kind_number kind) ∷ [])) }
{
    let number = match kind {
        BlockKind::SubBlock => 0,
        BlockKind::Procedure => 1,
        BlockKind::Object => 2,
        BlockKind::Prefixed => 3,
    };
    put_number(out, number)?;
    Ok(())
}

fn type_of(number: u32) -> CodeType
    ensures { result ≡ type_of number }
{
    match number {
        0 => CodeType::Nothing,
        1 => CodeType::Integer,
        2 => CodeType::Boolean,
        3 => CodeType::Character,
        4 => CodeType::Text,
        _ => CodeType::Reference,
    }
}

/// A type.
#[tactic(auto, unfolding(crate::specs::Reading::type_at))]
pub fn read_type(bytes: &[u8]) -> Result<(CodeType, &[u8]), Fault>
    ensures { Gives (λ x. (x.0, x.1.now)) result (type_at bytes.now) }
{
    let (number, rest) = read_listed(bytes, 5)?;
    Ok((type_of(number), rest))
}

/// Writes a type.
pub fn put_type(out: &mut Vec<u8>, code_type: CodeType) -> Result<(), AllocError>
    ensures { OnOk result (Appends out.old.items out.new.items (type_field code_type ∷ [])) }
{
    let number = match code_type {
        CodeType::Nothing => 0,
        CodeType::Integer => 1,
        CodeType::Boolean => 2,
        CodeType::Character => 3,
        CodeType::Text => 4,
        CodeType::Reference => 5,
    };
    put_number(out, number)?;
    Ok(())
}

fn mode_of(number: u32) -> CodeMode
    ensures { result ≡ mode_of number }
{
    match number {
        0 => CodeMode::Value,
        1 => CodeMode::Reference,
        _ => CodeMode::Name,
    }
}

/// How a parameter is passed.
#[tactic(auto, unfolding(crate::specs::Reading::mode_at))]
pub fn read_mode(bytes: &[u8]) -> Result<(CodeMode, &[u8]), Fault>
    ensures { Gives (λ x. (x.0, x.1.now)) result (mode_at bytes.now) }
{
    let (number, rest) = read_listed(bytes, 2)?;
    Ok((mode_of(number), rest))
}

/// Writes how a parameter is passed.
pub fn put_mode(out: &mut Vec<u8>, mode: CodeMode) -> Result<(), AllocError>
    ensures { OnOk result (Appends out.old.items out.new.items (Listed 2 (mode_number mode) ∷ [])) }
{
    let number = match mode {
        CodeMode::Value => 0,
        CodeMode::Reference => 1,
        CodeMode::Name => 2,
    };
    put_number(out, number)?;
    Ok(())
}

fn shape_of(number: u32) -> FormalShape
    ensures { result ≡ shape_of number }
{
    match number {
        0 => FormalShape::Simple,
        1 => FormalShape::Array,
        _ => FormalShape::Procedure,
    }
}

/// What a formal parameter is.
#[tactic(auto, unfolding(crate::specs::Reading::shape_at))]
pub fn read_shape(bytes: &[u8]) -> Result<(FormalShape, &[u8]), Fault>
    ensures { Gives (λ x. (x.0, x.1.now)) result (shape_at bytes.now) }
{
    let (number, rest) = read_listed(bytes, 2)?;
    Ok((shape_of(number), rest))
}

/// Writes what a formal parameter is.
pub fn put_shape(out: &mut Vec<u8>, shape: FormalShape) -> Result<(), AllocError>
    ensures { OnOk result (Appends out.old.items out.new.items (Listed 2 (shape_number shape) ∷ [])) }
{
    let number = match shape {
        FormalShape::Simple => 0,
        FormalShape::Array => 1,
        FormalShape::Procedure => 2,
    };
    put_number(out, number)?;
    Ok(())
}
