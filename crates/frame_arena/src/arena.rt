//! The storage as a whole.
ghost use Rattle.std.specs.Prelude.{◌≡◌, length};
ghost use Rattle.sim_code.specs.Machine.{Frames};
ghost use Rattle.frame_arena.specs.Frames.{Holds, Laid, empty_memory, rooms};
ghost use Rattle.frame_arena.specs.Free.{live_instances};

use crate::frames::{self, Frame};
use crate::slot::Slot;
use std::alloc::Global;

/// The storage of the machine: the regions with their frames, all cells, and all operand stacks.
#[derive(Drop)]
pub struct Arena {
    /// The regions.
    pub frames: Vec<Frame>,
    /// The cells of all regions.
    pub cells: Vec<Slot>,
    /// The operand stacks of all regions.
    pub stacks: Vec<Slot>,
}

impl Arena {
    /// Storage with no region, which takes no memory.
    pub fn new(alloc: Global) -> Arena
        ensures stacks { Laid 0 (rooms result.frames.items) (length result.stacks.items) }
        ensures holds { Holds result.frames.items result.cells.items empty_memory }
    {
        Arena {
            frames: Vec::new(alloc),
            cells: Vec::new(alloc),
            stacks: Vec::new(alloc),
        }
    }

    /// How many frames there are, which is how many instances are not given back.
    pub fn live(&self) -> usize
        ensures { (m : Frames) → Holds self.now.frames.items self.now.cells.items m → result ≡ live_instances m }
    {
        frames::live(&self.frames)
    }
}
