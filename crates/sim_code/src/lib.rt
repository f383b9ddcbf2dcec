//! Code: its instructions and tables, what the machine does with them, and the events that the machine and the meaning of programs
//! have in common.
#![tactic(auto)]

mod code;
mod ending;
mod instr;
pub mod laws;
mod stage;

pub use code::{
    ActualList, BlockKind, BlockRecord, ClassRecord, Code, CodeActual, CodeFormal, CodeMode,
    CodeType, FormalShape, Match, ThunkRecord,
};
pub use ending::Ending;
pub use instr::{Instr, Lined};
pub use stage::Stage;
