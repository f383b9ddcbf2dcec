//! What the machine works on.

use crate::simulated::Simulated;
use basic_io::{InImage, OutImage};
use frame_arena::frames::Frame;
use frame_arena::{Arrays, Slot};
use sim_base::{Line, RunError};
use sim_code::Stage;
use sim_values::FrameRef;
use simset::Rings;
use text_objects::Texts;

/// Where a frame at work goes on.
#[derive(Clone, Copy)]
pub struct Registers {
    /// The index of its next instruction.
    pub pc: usize,
    /// The frame, or that for which the thunk is run.
    pub home: FrameRef,
    /// The thunk that is at work.
    pub thunk: Option<u32>,
    /// How many values are in its operand stack.
    pub depth: usize,
    /// Which of its levels is under way.
    pub stage: Stage,
}

/// A frame at work.
#[derive(Drop)]
pub struct Activation {
    /// Where it goes on.
    pub registers: Registers,
    /// Its operand stack, as long as its room.
    pub stack: Vec<Slot>,
}

/// The images of the input and of the output.
#[derive(Drop)]
pub struct Images {
    /// That of sysin.
    pub input: InImage,
    /// That of sysout.
    pub output: OutImage,
}

/// The objects that are linkages, with their sets.
#[derive(Drop)]
pub struct Members {
    /// The links and heads.
    pub rings: Rings,
    /// The object of each of them. Those that were made later have higher numbers.
    pub objects: Vec<FrameRef>,
}

/// What all frames share.
#[derive(Drop)]
pub struct Storage {
    /// The regions with their frames.
    pub frames: Vec<Frame>,
    /// The cells of all regions.
    pub cells: Vec<Slot>,
    /// For each region the operand stack of the frame that was there last. The next one takes it, where it has the room.
    pub spares: Vec<Vec<Slot>>,
    /// The operand stacks of thunks that came to their end. The next thunk takes the last of them.
    pub idle: Vec<Vec<Slot>>,
    /// For each region the chain that the detached object or the system head there keeps, the innermost activation first.
    pub parks: Vec<Vec<Activation>>,
    /// For each block the region that was given back last.
    pub heads: Vec<u32>,
    /// How many frames were entered.
    pub entered: u64,
    /// The arrays.
    pub arrays: Arrays,
    /// The texts.
    pub texts: Texts,
    /// The images of sysin and sysout.
    pub image: Images,
    /// The links and heads with their sets.
    pub members: Members,
    /// The simulation blocks that were entered, in the order of their entry.
    pub simulations: Vec<Simulated>,
    /// The ticks taken.
    pub ticks: u64,
    /// The words in use.
    pub words: u64,
    /// The words that were wanted last.
    pub wanted: u64,
}

/// How a step ends.
#[derive(Clone, Copy)]
pub enum Flow {
    /// The run goes on behind the instruction.
    On,
    /// The run goes on where a jump leads.
    Jumped,
    /// The program came to its end.
    Normal,
    /// There is no rule.
    NoRule,
    /// All ticks are taken.
    TickLimit,
    /// The words that are wanted are not left.
    Exhausted,
    /// The words that another instruction wants are not left, with the line of that.
    ExhaustedAt(Line),
    /// A run-time error.
    Fault(RunError),
    /// A run-time error of another instruction, with the line of that.
    FaultAt(RunError, Line),
    /// Want of memory.
    Memory,
    /// The output failed.
    WriteFault,
    /// The input failed.
    InputFault,
}
