//! The machine before its first step.
ghost use Rattle.std.specs.Prelude.{◌≡◌, ◌++◌, ◌∷◌, [], ℕ, List, Option, IfOk, OnOk, length, replicate};
ghost use Rattle.sim_code.specs.Outcome.{first_world};
ghost use Rattle.sim_values.specs.Store.{constant_frames};
ghost use Rattle.frame_arena.specs.Frames.{empty_memory};
ghost use Rattle.object_machine.specs.Standing.{HasImages, Stores, outside};

use crate::machine::{Images, Members, Storage};
use basic_io::{InImage, OutImage};
use frame_arena::Arrays;
use sim_base::{ByteString, Limits, Memory};
use simset::Rings;
use std::alloc::Global;
use text_objects::Texts;

// The text constants, each a frame of its own.
fn add_constants(texts: &mut Texts, constants: &[ByteString]) -> Result<(), Memory>
    ensures { OnOk result (texts.new ≡ texts.old ++ constant_frames constants.now) }
{
    for at in 0..constants.len() {
        let Some(constant) = constants.get(at) else {
            return Err(Memory);
        };
        let bytes = constant.as_bytes();
        if bytes.len() >= u32::MAX as usize {
            return Err(Memory);
        }
        texts.constant(bytes)?;
    }
    Ok(())
}

// No region has this number.
const NO_REGION: u32 = u32::MAX;

/// The machine before its first step, for so many blocks: the text constants, and then the two images. It answers want of memory
/// also for a constant of 2^32-1 characters or more, and where sysin or sysout has no character in a line.
pub fn start(
    alloc: Global,
    constants: &[ByteString],
    blocks: usize,
    limits: &Limits,
) -> Result<Storage, Memory>
    ensures blocks { IfOk result (λ p. length p.heads.items ≡ blocks) }
    ensures valid { IfOk result (λ p. HasImages p.texts p.image) }
    ensures row { IfOk result (λ p. (before : Option (List ℕ)) (input : List ℕ) → Stores limits.now p before (outside before input) (first_world constants.now limits.now input) empty_memory) }
{
    if limits.in_length == 0 || limits.out_length == 0 {
        return Err(Memory);
    }
    let mut texts = Texts::new(alloc);
    add_constants(&mut texts, constants)?;
    let input = InImage::new(alloc, &mut texts, limits.in_length)?;
    let output = OutImage::new(&mut texts, limits.out_length)?;
    let Ok(heads) = vec![in alloc; NO_REGION; blocks] else {
        return Err(Memory);
    };
    Ok(Storage {
        frames: Vec::new(alloc),
        cells: Vec::new(alloc),
        spares: Vec::new(alloc),
        idle: Vec::new(alloc),
        parks: Vec::new(alloc),
        heads,
        entered: 0,
        arrays: Arrays::new(alloc),
        texts,
        image: Images { input, output },
        members: Members {
            rings: Rings::new(alloc),
            objects: Vec::new(alloc),
        },
        simulations: Vec::new(alloc),
        ticks: 0,
        words: 0,
        wanted: 0,
    })
}
