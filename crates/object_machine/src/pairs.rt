//! Two texts on an operand stack: relations and assignments.
ghost use Rattle.std.specs.Prelude.{◌≡◌, ℕ, ◌+◌, ◌<◌, ◌≤◌, ◌^◌, List, length, true};
ghost use Rattle.sim_base.specs.declared.limits.Limits.{Limits};
ghost use Rattle.sim_values.specs.Operators.{two_of};
ghost use Rattle.sim_values.specs.declared.operators.Dyadic.{Dyadic};
ghost use Rattle.sim_values.specs.Plain.{Text};
ghost use Rattle.sim_values.specs.Texts.{IsText, same_text};
ghost use Rattle.sim_values.specs.declared.value.TextVal.{TextVal as TextOf};
ghost use Rattle.sim_code.specs.Events.{assigning, having};
ghost use Rattle.sim_code.specs.Machine.{on, plain};
ghost use Rattle.sim_code.specs.Rows.{comparison_of, two_row};
ghost use Rattle.basic_io.specs.Image.{IsImage};
ghost use Rattle.frame_arena.specs.Stacks.{slot_at};
ghost use Rattle.object_machine.specs.Pairs.{ReadsText, ReadsTexts, an_answer, relating_by};
ghost use Rattle.object_machine.specs.Standing.{Obeys, Outside};

use crate::constants::comparison;
use crate::machine::{Activation, Flow, Registers, Storage};
use frame_arena::{Slot, SlotKind};
use sim_values::{Comparison, TextVal};
use text_objects::Texts;

/// What is in a slot that is to have a text.
#[derive(Clone, Copy)]
pub enum ReadText {
    /// A text.
    Text(TextVal),
    /// Another value.
    Other,
    /// A text of other frames, which no run has: the machine stops as for want of memory.
    Stale,
}

/// What is in two slots that are to have texts.
#[derive(Clone, Copy)]
pub enum ReadTexts {
    /// Two texts.
    Texts {
        /// The lower one.
        left: TextVal,
        /// The upper one.
        right: TextVal,
    },
    /// Another value.
    Other,
    /// A text of other frames.
    Stale,
}

/// Whether two texts are the same, whatever their positions.
pub fn is_same(a: TextVal, b: TextVal) -> bool
    ensures { result ≡ same_text a b }
{
    (a.length == 0 && b.length == 0)
        || (a.text_frame == b.text_frame && a.start == b.start && a.length == b.length)
}

// The text in a slot.
fn text_in(texts: &Texts, slot: Slot) -> ReadText
    ensures read { ReadsText result texts.now slot }
{
    match slot.kind {
        SlotKind::Text => {}
        _ => return ReadText::Other,
    }
    let Ok(pos) = u32::try_from(slot.data) else {
        return ReadText::Stale;
    };
    let text = TextVal {
        text_frame: slot.name,
        start: slot.more,
        length: slot.class,
        pos,
    };
    if texts.is_text(text) {
        return ReadText::Text(text);
    }
    ReadText::Stale
}

// The two texts on top.
fn two_texts(texts: &Texts, stack: &[Slot], depth: usize) -> ReadTexts
    requires fits { depth ≤ length stack.now }
    ensures read { ReadsTexts result texts.now depth stack.now }
{
    if depth < 2 {
        return ReadTexts::Other;
    }
    let upper = stack[depth - 1];
    let lower = stack[depth - 2];
    match text_in(texts, upper) {
        ReadText::Text(right) => match text_in(texts, lower) {
            ReadText::Text(left) => ReadTexts::Texts { left, right },
            ReadText::Other => ReadTexts::Other,
            ReadText::Stale => ReadTexts::Stale,
        },
        ReadText::Other => ReadTexts::Other,
        ReadText::Stale => ReadTexts::Stale,
    }
}

// Whether a relation holds of two texts, or where none is named whether they are the same.
fn related(texts: &Texts, relation: Option<Comparison>, left: TextVal, right: TextVal) -> bool
    requires left { IsText texts.now left }
    requires right { IsText texts.now right }
    ensures says { two_of (relating_by relation) texts.now (Text left) (Text right) ≡ an_answer result }
{
    match relation {
        Some(relation) => relation.holds(texts.compare(left, right)),
        None => is_same(left, right),
    }
}

/// A relation of the two texts on top, or where none is named whether they are the same.
pub fn relate(
    texts: &Texts,
    stack: &mut [Slot],
    regs: &mut Registers,
    relation: Option<Comparison>,
) -> Flow
    requires fits { regs.old.depth ≤ length stack.old }
    requires short { regs.old.pc + 1 < 2 ^ 64 }
    ensures fits { regs.new.depth ≤ length stack.new }
    ensures row { (l : Limits) (line : ℕ) (p : Storage) (below : List Activation) (now : Outside) → p.texts ≡ texts.now →
        Obeys result l line (λ o m a b. two_row o m a b line (relating_by relation)) p p regs.old regs.new stack.old stack.new below below now now }
{
    match two_texts(texts, stack, regs.depth) {
        ReadTexts::Texts { left, right } => {
            let at = regs.depth - 2;
            let slot = Slot::truth(related(texts, relation, left, right));
            stack[at] = slot;
            regs.depth = at + 1;
            regs.pc += 1;
            Flow::On
        }
        ReadTexts::Other => Flow::NoRule,
        ReadTexts::Stale => Flow::Memory,
    }
}

/// A relation of two texts.
pub fn relation_of_texts(
    texts: &Texts,
    stack: &mut [Slot],
    regs: &mut Registers,
    operand: i64,
) -> Flow
    requires fits { regs.old.depth ≤ length stack.old }
    requires short { regs.old.pc + 1 < 2 ^ 64 }
    ensures fits { regs.new.depth ≤ length stack.new }
    ensures row { (l : Limits) (line : ℕ) (p : Storage) (below : List Activation) (now : Outside) → p.texts ≡ texts.now →
        Obeys result l line (λ o m a b. having (comparison_of operand) o (λ r. two_row o m a b line (Dyadic.CompareTexts r))) p p regs.old regs.new stack.old stack.new below below now now }
{
    let Some(relation) = comparison(operand) else {
        return Flow::NoRule;
    };
    relate(texts, stack, regs, Some(relation))
}

/// Assigns the text on top to the one below it.
pub fn assign(texts: &mut Texts, stack: &[Slot], regs: &mut Registers) -> Flow
    requires fits { regs.old.depth ≤ length stack.now }
    requires short { regs.old.pc + 1 < 2 ^ 64 }
    ensures fits { regs.new.depth ≤ length stack.now }
    ensures images { (image : TextOf) → IsImage texts.old image → IsImage texts.new image }
    ensures row { (l : Limits) (line : ℕ) (p p2 : Storage) (below : List Activation) (now : Outside) → p.texts ≡ texts.old → p2 ≡ record p { texts = texts.new } →
        Obeys result l line (λ o m a b. assigning plain line a.stack o (λ w st. on w m a st b)) p p2 regs.old regs.new stack.now stack.now below below now now }
{
    match two_texts(texts, stack, regs.depth) {
        ReadTexts::Texts { left, right } => match texts.assign(left, right) {
            Ok(()) => {
                regs.depth -= 2;
                regs.pc += 1;
                Flow::On
            }
            Err(error) => Flow::Fault(error),
        },
        ReadTexts::Other => Flow::NoRule,
        ReadTexts::Stale => Flow::Memory,
    }
}
