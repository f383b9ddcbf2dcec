//! One step, of an instruction that may change the frame at work or use the ports.
ghost use Rattle.std.specs.Prelude.{◌≡◌, ◌+◌, ◌<◌, ◌≤◌, ◌^◌, ℕ, List, Option, Some, length, true};
ghost use Rattle.sim_code.specs.Code.{CodeOf};
ghost use Rattle.sim_code.specs.Rows.{row};
ghost use Rattle.object_machine.specs.Running.{Onward};
ghost use Rattle.object_machine.specs.Named.{FlowEnds, InputEnds, Still};
ghost use Rattle.object_machine.specs.Standing.{AllFit, HasImages, Obeys, Outside, Row, outside};
ghost use Rattle.sim_base.specs.declared.limits.Limits.{Limits as LimitsOf};
ghost use Rattle.object_machine.specs.Taking.{StepTakes};
ghost use Rattle.frame_arena.specs.declared.slot.Slot.{Slot};

use crate::activations::activate;
use crate::actuals::pass_parameter;
use crate::calling::call;
use crate::checking::check_actuals;
use crate::entering::enter;
use crate::generating::generate;
use crate::leaving::{end_level, give_result, leave};
use crate::machine::{Activation, Flow, Registers, Storage};
use crate::names::{simulation_name, standard};
use crate::pairs::assign;
use crate::prefixing::enter_prefixed;
use crate::rows::obey_other;
use crate::scheduling::schedule;
use crate::stages::{inner, next_declarations};
use crate::texts::constant;
use crate::thunks::{end_thunk, push_thunk, use_place, use_value};
use crate::transfers::{attach, detach, resume};
use crate::virtuals::{call_value, find_match};
use sim_base::{ByteString, Limits};
use sim_code::{ActualList, BlockRecord, ClassRecord, Instr, Lined, ThunkRecord};
use sim_ports::{Sink, Source};
use std::alloc::Global;

/// The same of a row that writes and reads nothing, which has no fault of the outside.
#[inline(always)]
pub fn without_ports(flow: Flow) -> Flow
    ensures other { result ≡ Flow.WriteFault → ⊥ }
    ensures read { result ≡ Flow.InputFault → ⊥ }
    ensures row { (l : LimitsOf) (line : ℕ) (does : Row) (p p2 : Storage) (r r2 : Registers) (stack stack2 : List Slot) (below below2 : List Activation) (now now2 : Outside) →
        Obeys flow l line does p p2 r r2 stack stack2 below below2 now now2 → Obeys result l line does p p2 r r2 stack stack2 below below2 now now2 }
{
    match flow {
        Flow::WriteFault => Flow::Memory,
        Flow::InputFault => Flow::Memory,
        _ => flow,
    }
}

/// Does one instruction, of those that `advance` does not do; at one that it does the machine stops as for want of memory.
#[tactic(auto, using(crate::proofs::Taking::takes_none))]
pub fn step<I: Source, O: Sink>(
    alloc: Global,
    blocks: &[BlockRecord],
    instrs: &[Lined],
    constants: &[ByteString],
    classes: &[ClassRecord],
    lists: &[ActualList],
    thunks: &[ThunkRecord],
    limits: &Limits,
    storage: &mut Storage,
    input: &mut I,
    out: &mut O,
    top: &mut Activation,
    below: &mut Vec<Activation>,
    instr: Instr,
) -> Flow
    requires fits { top.old.registers.depth ≤ length top.old.stack.items }
    requires others { AllFit below.old.items }
    requires short { top.old.registers.pc + 1 < 2 ^ 64 }
    requires images { HasImages storage.old.texts storage.old.image }
    ensures fits { top.new.registers.depth ≤ length top.new.stack.items }
    ensures others { AllFit below.new.items }
    ensures valid { HasImages storage.new.texts storage.new.image }
    ensures ends { FlowEnds O.written O.faults out.old out.new result }
    ensures read { InputEnds (I.faults input.old) (I.faults input.new) result }
    ensures takes { (s : List ℕ) → I.left input.old ≡ Some s → (code : CodeOf) (line : ℕ) →
        StepTakes limits.now (λ o m a b. row code limits.now o m a b line instr) storage.old top.old.registers top.old.stack.items below.old.items (outside (O.written out.old) s) input.old input.new }
    ensures row { Onward (I.left input.old) (I.left input.new) (λ s t. Still result (O.written out.old) (O.written out.new) × ((code : CodeOf) (line : ℕ) → code.blocks ≡ blocks.now → code.instrs ≡ instrs.now → code.texts ≡ constants.now → code.classes ≡ classes.now → code.actual_lists ≡ lists.now → code.thunks ≡ thunks.now →
        Obeys result limits.now line (λ o m a b. row code limits.now o m a b line instr) storage.old storage.new top.old.registers top.new.registers top.old.stack.items top.new.stack.items below.old.items below.new.items (outside (O.written out.old) s) (outside (O.written out.new) t))) }
{
    match instr {
        Instr::Std(operand) => match simulation_name(operand) {
            Some(name) => {
                let flow = schedule(blocks, classes, storage, top, below, name);
                without_ports(flow)
            }
            None => standard(
                limits,
                storage,
                input,
                out,
                &mut top.stack,
                &mut top.registers,
                operand,
            ),
        },
        Instr::Act(operand) => {
            let flow = activate(blocks, classes, storage, top, below, operand);
            without_ports(flow)
        }
        Instr::AssignT => {
            let flow = assign(&mut storage.texts, &top.stack, &mut top.registers);
            without_ports(flow)
        }
        Instr::TextK(number) => {
            let flow = constant(constants, &mut top.stack, &mut top.registers, number);
            without_ports(flow)
        }
        Instr::Enter(block) => {
            let flow = enter(alloc, blocks, instrs, limits, storage, top, below, block);
            without_ports(flow)
        }
        Instr::Call { block, values } => {
            let flow = call(
                alloc, blocks, instrs, limits, storage, top, below, block, values,
            );
            without_ports(flow)
        }
        Instr::Check(list) => {
            let flow = check_actuals(
                &storage.frames,
                blocks,
                classes,
                lists,
                &top.stack,
                &mut top.registers,
                list,
            );
            without_ports(flow)
        }
        Instr::Param {
            formal,
            thunk,
            procedure,
        } => {
            let flow = pass_parameter(
                alloc, blocks, instrs, thunks, storage, top, below, formal, thunk, procedure,
            );
            without_ports(flow)
        }
        Instr::Virt(number) => {
            let flow = find_match(
                &storage.frames,
                blocks,
                classes,
                &mut top.stack,
                &mut top.registers,
                number,
            );
            without_ports(flow)
        }
        Instr::CallV(values) => {
            let flow = call_value(alloc, blocks, instrs, limits, storage, top, below, values);
            without_ports(flow)
        }
        Instr::Thunk(number) => {
            let flow = push_thunk(thunks, &mut top.stack, &mut top.registers, number);
            without_ports(flow)
        }
        Instr::NameVal { level, cell, class } => {
            let flow = use_value(
                alloc, instrs, classes, thunks, limits, storage, top, below, level, cell, class,
            );
            without_ports(flow)
        }
        Instr::NameAddr { level, cell, value } => {
            let flow = use_place(
                alloc, instrs, thunks, limits, storage, top, below, level, cell, value,
            );
            without_ports(flow)
        }
        Instr::EndThunk => {
            let flow = end_thunk(blocks, instrs, classes, limits, storage, top, below);
            without_ports(flow)
        }
        Instr::Leave => {
            let flow = leave(blocks, storage, top, below);
            without_ports(flow)
        }
        Instr::Return => {
            let flow = give_result(blocks, storage, top, below);
            without_ports(flow)
        }
        Instr::New { class, values } => {
            let flow = generate(
                alloc, blocks, instrs, classes, limits, storage, top, below, class, values,
            );
            without_ports(flow)
        }
        Instr::Pref { block, values } => {
            let flow = enter_prefixed(
                alloc, blocks, instrs, classes, limits, storage, top, below, block, values,
            );
            without_ports(flow)
        }
        Instr::NextDecl(level) => {
            let flow = next_declarations(
                &storage.frames,
                blocks,
                instrs,
                classes,
                &mut top.registers,
                level,
            );
            without_ports(flow)
        }
        Instr::Inner(level) => {
            let flow = inner(
                &storage.frames,
                blocks,
                instrs,
                classes,
                &mut top.registers,
                level,
            );
            without_ports(flow)
        }
        Instr::EndLevel(level) => {
            let flow = end_level(blocks, instrs, classes, limits, storage, top, below, level);
            without_ports(flow)
        }
        Instr::Detach => {
            let flow = detach(storage, top, below);
            without_ports(flow)
        }
        Instr::Attach => {
            let flow = attach(storage, top, below);
            without_ports(flow)
        }
        Instr::Resume => {
            let flow = resume(storage, top, below);
            without_ports(flow)
        }
        _ => {
            let flow = obey_other(
                blocks,
                classes,
                limits,
                storage,
                &mut top.stack,
                &mut top.registers,
                instr,
            );
            without_ports(flow)
        }
    }
}
