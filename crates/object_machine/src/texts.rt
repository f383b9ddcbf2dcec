//! Rows on texts and images.
ghost use Rattle.std.specs.Prelude.{◌≡◌, ℕ, ◌+◌, ◌<◌, ◌≤◌, ◌^◌, List, length, slice_get};
ghost use Rattle.sim_base.specs.declared.limits.Limits.{Limits};
ghost use Rattle.sim_code.specs.Code.{CodeOf};
ghost use Rattle.sim_code.specs.Events.{having};
ghost use Rattle.sim_code.specs.Machine.{Address, Of, index as index_of};
ghost use Rattle.sim_code.specs.Instances.{ImagePlace};
ghost use Rattle.sim_values.specs.Plain.{Text};
ghost use Rattle.sim_values.specs.Store.{image_at};
ghost use Rattle.sim_values.specs.Texts.{notext as notext_of};
ghost use Rattle.sim_code.specs.Rows.{pushed, row, text_value};
ghost use Rattle.sim_code.specs.declared.instr.Instr.{Instr};
ghost use Rattle.object_machine.specs.Standing.{Obeys, Outside};

use crate::constants::index;
use crate::machine::{Activation, Flow, Registers, Storage};
use crate::operands::push;
use frame_arena::Slot;
use sim_base::ByteString;
use sim_values::TextVal;

/// Pushes a text constant.
pub fn constant(
    constants: &[ByteString],
    stack: &mut [Slot],
    regs: &mut Registers,
    operand: i64,
) -> Flow
    requires fits { regs.old.depth ≤ length stack.old }
    requires short { regs.old.pc + 1 < 2 ^ 64 }
    ensures fits { regs.new.depth ≤ length stack.new }
    ensures row { (code : CodeOf) (l : Limits) (line : ℕ) (p : Storage) (below : List Activation) (now : Outside) → code.texts ≡ constants.now →
        Obeys result l line (λ o m a b. row code l o m a b line (Instr.TextK operand)) p p regs.old regs.new stack.old stack.new below below now now }
{
    let Some(number) = index(operand) else {
        return Flow::NoRule;
    };
    let Some(text) = constants.get(number) else {
        return Flow::NoRule;
    };
    let bytes = text.as_bytes();
    let Ok(text_frame) = u32::try_from(number) else {
        return Flow::Memory;
    };
    let Ok(length) = u32::try_from(bytes.len()) else {
        return Flow::Memory;
    };
    let slot = Slot::text(TextVal {
        text_frame,
        start: 1,
        length,
        pos: 1,
    });
    push(stack, regs, slot)
}

/// Pushes `notext`.
#[inline(always)]
pub fn notext(stack: &mut [Slot], regs: &mut Registers) -> Flow
    requires fits { regs.old.depth ≤ length stack.old }
    requires short { regs.old.pc + 1 < 2 ^ 64 }
    ensures fits { regs.new.depth ≤ length stack.new }
    ensures row { (l : Limits) (line : ℕ) (p : Storage) (below : List Activation) (now : Outside) →
        Obeys result l line (λ o m a b. pushed o m a b (Of (Text notext_of))) p p regs.old regs.new stack.old stack.new below below now now }
{
    let slot = Slot::text(TextVal {
        text_frame: 0,
        start: 1,
        length: 0,
        pos: 1,
    });
    push(stack, regs, slot)
}

/// Pushes the address of an image.
#[inline(always)]
pub fn image_address(stack: &mut [Slot], regs: &mut Registers, operand: i64) -> Flow
    requires fits { regs.old.depth ≤ length stack.old }
    requires short { regs.old.pc + 1 < 2 ^ 64 }
    ensures fits { regs.new.depth ≤ length stack.new }
    ensures row { (l : Limits) (line : ℕ) (p : Storage) (below : List Activation) (now : Outside) →
        Obeys result l line (λ o m a b. index_of operand o (λ n. having (image_at o.store n) o (λ _. pushed o m a b (Address (ImagePlace n))))) p p regs.old regs.new stack.old stack.new below below now now }
{
    let Some(number) = index(operand) else {
        return Flow::NoRule;
    };
    if number == 0 {
        return push(stack, regs, Slot::image(0));
    }
    if number == 1 {
        return push(stack, regs, Slot::image(1));
    }
    Flow::NoRule
}
