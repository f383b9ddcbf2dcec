//! The table: what each instruction does.
ghost use Rattle.std.specs.Prelude.{◌≡◌, ℕ, ◌+◌, ◌<◌, ◌≤◌, ◌^◌, List, Option, IfSome, length};
ghost use Rattle.sim_base.specs.declared.limits.Limits.{Limits as LimitsOf};
ghost use Rattle.sim_code.specs.Code.{CodeOf};
ghost use Rattle.sim_code.specs.Events.{stopping};
ghost use Rattle.sim_code.specs.Outcome.{Normal};
ghost use Rattle.sim_code.specs.Rows.{row};
ghost use Rattle.frame_arena.specs.declared.slot.Slot.{Slot as SlotOf};
ghost use Rattle.frame_arena.specs.Frames.{IsSpan};
ghost use Rattle.object_machine.specs.Standing.{Advances, HasImages, Obeys, Outside, Row, Untouched};

use crate::arrays::{array, copy_array, elem, fetch, keep, put};
use crate::cells::{address, link, load, store};
use crate::control::{jump, jump_if_false, tick};
use crate::machine::{Activation, Flow, Registers, Storage};
use crate::names::quiet_standard;
use crate::objects::{
    attribute_address, not_none, qua, qualified_address, qualified_element, qualified_put,
    test_class, this,
};
use crate::operands::{
    drop_top, dup, one, push_character, push_integer, push_none, push_truth, relation, step_test,
    swap, two,
};
use crate::pairs::{relate, relation_of_texts};
use crate::texts::{image_address, notext};
use crate::virtuals::procedure_value;
use frame_arena::Slot;
use frame_arena::frames::Span;
use sim_base::Limits;
use sim_code::{BlockRecord, ClassRecord, Instr, Lined};
use sim_values::{Calculation, Connective, Dyadic, Monadic};

// The end of the program.
#[inline(always)]
fn halt() -> Flow
    ensures next { (r : Registers) → Advances result r r }
    ensures row { (l : LimitsOf) (line : ℕ) (p : Storage) (r : Registers) (stack : List SlotOf) (below : List Activation) (now : Outside) →
        Obeys result l line (λ o m a b. stopping Normal o) p p r r stack stack below below now now }
{
    Flow::Normal
}

// What is not built: the machine stops as for want of memory.
#[inline(always)]
fn not_built() -> Flow
    ensures { (l : LimitsOf) (line : ℕ) (does : Row) (p : Storage) (r : Registers) (stack : List SlotOf) (below : List Activation) (now : Outside) →
        Obeys result l line does p p r r stack stack below below now now }
{
    Flow::Memory
}

/// Does an instruction that works on the frame at work, on its textual enclosers, on elements of arrays and on texts, and leaves all
/// frames where they are. At any other one it does nothing. `own` is the span of some frame.
#[inline(always)]
pub fn obey(
    instrs: &[Lined],
    limits: &Limits,
    storage: &mut Storage,
    own: Span,
    stack: &mut [Slot],
    regs: &mut Registers,
    instr: Instr,
) -> Option<Flow>
    requires own { IsSpan storage.old.frames.items own }
    requires fits { regs.old.depth ≤ length stack.old }
    requires short { regs.old.pc + 1 < 2 ^ 64 }
    requires images { HasImages storage.old.texts storage.old.image }
    ensures fits { regs.new.depth ≤ length stack.new }
    ensures valid { HasImages storage.new.texts storage.new.image }
    ensures frames { storage.new.frames ≡ storage.old.frames }
    ensures other { Untouched result storage.old storage.new regs.old regs.new stack.old stack.new }
    ensures next { IfSome result (λ f. Advances f regs.old regs.new) }
    ensures row { IfSome result (λ f. (code : CodeOf) (line : ℕ) (below : List Activation) (now : Outside) → code.instrs ≡ instrs.now →
        Obeys f limits.now line (λ o m a b. row code limits.now o m a b line instr) storage.old storage.new regs.old regs.new stack.old stack.new below below now now) }
{
    match instr {
        Instr::Halt => Some(halt()),
        Instr::Int(value) => Some(push_integer(stack, regs, value)),
        Instr::Bool(value) => Some(push_truth(stack, regs, value)),
        Instr::Char(value) => Some(push_character(stack, regs, value)),
        Instr::None => Some(push_none(stack, regs)),
        Instr::Load { level, cell } => Some(load(
            &storage.frames,
            &storage.cells,
            own,
            stack,
            regs,
            level,
            cell,
        )),
        Instr::Store { level, cell } => Some(store(
            &storage.frames,
            &mut storage.cells,
            own,
            stack,
            regs,
            level,
            cell,
        )),
        Instr::Link(level) => Some(link(&storage.frames, stack, regs, level)),
        Instr::Addr { level, cell, class } => {
            address(&storage.frames, own, stack, regs, level, cell, class)
        }
        Instr::Elem { subscripts, class } => elem(&storage.arrays, stack, regs, subscripts, class),
        Instr::Fetch => Some(fetch(
            &storage.frames,
            &storage.cells,
            &storage.arrays,
            &storage.image,
            stack,
            regs,
        )),
        Instr::Put => put(storage, stack, regs),
        Instr::Dup => Some(dup(stack, regs)),
        Instr::Pop => Some(drop_top(stack, regs)),
        Instr::Swap => Some(swap(stack, regs)),
        Instr::Neg => Some(one(stack, regs, Monadic::Negate)),
        Instr::Add => Some(two(stack, regs, Dyadic::Calculate(Calculation::Add))),
        Instr::Sub => Some(two(stack, regs, Dyadic::Calculate(Calculation::Subtract))),
        Instr::Mul => Some(two(stack, regs, Dyadic::Calculate(Calculation::Multiply))),
        Instr::Div => Some(two(stack, regs, Dyadic::Calculate(Calculation::Divide))),
        Instr::Pow => Some(two(stack, regs, Dyadic::Calculate(Calculation::Power))),
        Instr::Rel(operand) => Some(relation(stack, regs, operand)),
        Instr::Same => Some(two(stack, regs, Dyadic::SameObject)),
        Instr::Not => Some(one(stack, regs, Monadic::Not)),
        Instr::And => Some(two(stack, regs, Dyadic::Connect(Connective::And))),
        Instr::Or => Some(two(stack, regs, Dyadic::Connect(Connective::Or))),
        Instr::Imp => Some(two(stack, regs, Dyadic::Connect(Connective::Implies))),
        Instr::Eqv => Some(two(stack, regs, Dyadic::Connect(Connective::Equivalent))),
        Instr::Jump(to) => Some(jump(instrs, regs, to)),
        Instr::JumpF(to) => Some(jump_if_false(instrs, stack, regs, to)),
        Instr::Tick => Some(tick(limits, storage, regs)),
        Instr::StepTest => Some(step_test(stack, regs)),
        Instr::Std(operand) => quiet_standard(limits, storage, stack, regs, operand),
        _ => None,
    }
}

/// Does an instruction that leaves the frame on top where it is, of those that `obey` does not do; at one that it does the machine
/// stops as for want of memory.
pub fn obey_other(
    blocks: &[BlockRecord],
    classes: &[ClassRecord],
    limits: &Limits,
    storage: &mut Storage,
    stack: &mut [Slot],
    regs: &mut Registers,
    instr: Instr,
) -> Flow
    requires fits { regs.old.depth ≤ length stack.old }
    requires short { regs.old.pc + 1 < 2 ^ 64 }
    requires images { HasImages storage.old.texts storage.old.image }
    ensures fits { regs.new.depth ≤ length stack.new }
    ensures valid { HasImages storage.new.texts storage.new.image }
    ensures row { (code : CodeOf) (line : ℕ) (below : List Activation) (now : Outside) → code.blocks ≡ blocks.now → code.classes ≡ classes.now →
        Obeys result limits.now line (λ o m a b. row code limits.now o m a b line instr) storage.old storage.new regs.old regs.new stack.old stack.new below below now now }
{
    match instr {
        Instr::Array {
            element,
            dimensions,
        } => array(limits, storage, stack, regs, element, dimensions),
        Instr::CopyArr => copy_array(limits, storage, stack, regs),
        Instr::Keep => keep(&mut storage.arrays, stack, regs),
        Instr::RelT(operand) => relation_of_texts(&storage.texts, stack, regs, operand),
        Instr::SameT => relate(&storage.texts, stack, regs, None),
        Instr::This(level) => this(&storage.frames, stack, regs, level),
        Instr::Addr { level, cell, class } => {
            qualified_address(&storage.frames, classes, stack, regs, level, cell, class)
        }
        Instr::AddrR { cell, class } => {
            attribute_address(&storage.frames, classes, stack, regs, cell, class)
        }
        Instr::Elem { subscripts, class } => {
            qualified_element(&storage.arrays, classes, stack, regs, subscripts, class)
        }
        Instr::Put => qualified_put(blocks, classes, storage, stack, regs),
        Instr::AddrImg(number) => image_address(stack, regs, number),
        Instr::NoText => notext(stack, regs),
        Instr::Is(class) => test_class(&storage.frames, blocks, classes, true, stack, regs, class),
        Instr::In(class) => test_class(&storage.frames, blocks, classes, false, stack, regs, class),
        Instr::Qua(class) => qua(&storage.frames, blocks, classes, stack, regs, class),
        Instr::ProcVal(block) => procedure_value(blocks, stack, regs, block),
        Instr::NotNone => not_none(stack, regs),
        _ => not_built(),
    }
}
