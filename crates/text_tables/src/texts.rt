//! The characters of text constants.
ghost use Rattle.std.specs.Prelude.{◌≡◌, IfOk, map};
ghost use Rattle.sim_meaning.specs.Constants.{constants_of};
ghost use Rattle.sim_scope.specs.Source.{source_of};
ghost use Rattle.text_tables.specs.TokenTable.{bytes_in};

use program_texts::{ConstantTree, text_constants};
use sim_base::ByteString;
use sim_scope::Bound;
use std::alloc::{AllocError, Global};

/// The characters of all these constants, in memory of their own.
#[tactic(auto, using(crate::proofs::Copies::copies))]
fn copy_all(alloc: Global, constants: &[ConstantTree]) -> Result<Vec<ByteString>, AllocError>
    ensures { IfOk result (λ texts. texts.items ≡ map bytes_in constants.now) }
{
    let mut texts = Vec::new(alloc);
    for item in constants {
        texts.push(item.value.copy(alloc)?)?;
    }
    Ok(texts)
}

/// The characters of the text constants of a program, in their order. Time and memory are linear in the program.
#[tactic(auto, using(crate::proofs::Copies::copies))]
pub fn constant_texts(alloc: Global, bound: &Bound) -> Result<Vec<ByteString>, AllocError>
    ensures { IfOk result (λ texts. texts.items ≡ constants_of (source_of bound.now)) }
{
    let constants = text_constants(alloc, &bound.program)?;
    copy_all(alloc, &constants)
}
