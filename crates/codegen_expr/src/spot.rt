//! Where code is written.
ghost use Rattle.std.specs.Prelude.{◌≡◌, ◌+◌, IfOk};
ghost use Rattle.codegen_expr.specs.Sites.{expression_temps};

use std::alloc::AllocError;

/// The text in which code is written, and how much of its frames is in use there.
#[derive(Clone, Copy, Debug, PartialEq, Eq)]
pub struct Spot {
    /// The text, by its number among the blocks.
    pub text: u32,
    /// Where the temps of expressions begin: behind the own part of the frames.
    pub temps: u32,
    /// How many cells and temps are in use. A temp that a statement here takes lies behind them.
    pub used: u32,
}

/// How many temps expressions have.
const EXPRESSION_TEMPS: u32 = 3;

/// Where the code of a text begins, the own part of whose frames ends there.
pub fn spot_in(text: u32, own_end: u32) -> Result<Spot, AllocError>
    ensures { IfOk result (λ w. w ≡ record { text = text; temps = own_end; used = own_end + expression_temps }) }
{
    let used = own_end.checked_add(EXPRESSION_TEMPS).ok_or(AllocError)?;
    Ok(Spot {
        text,
        temps: own_end,
        used,
    })
}
