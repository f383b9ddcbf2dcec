//! The standard names in code.
ghost use Rattle.std.specs.Prelude.{◌≡◌, Some};
ghost use Rattle.sim_meaning.specs.Names.{procedure_named};
ghost use Rattle.sim_meaning.specs.Statements.{has_value, standard_leaves as standard_leaves_of};
ghost use Rattle.codegen_expr.specs.Emit.{Numbered, OnImageIs, moves_named};
ghost use Rattle.codegen_expr.specs.EmitSets.{NumberOfSet};
ghost use Rattle.codegen_expr.specs.EmitSimulations.{NumberOfSimulation};

use sim_scope::StandardName;
use sim_values::{Standard, StandardType};

/// A standard name that is done by itself, in code.
#[derive(Clone, Copy, Debug, PartialEq, Eq)]
pub struct StandardCode {
    /// Its number.
    pub number: u32,
    /// How many operands it takes.
    pub operands: usize,
}

/// A standard name with its number and its operands.
fn built(number: u32, operands: usize) -> Option<StandardCode>
    ensures { result ≡ Some (record { number = number; operands = operands }) }
{
    Some(StandardCode { number, operands })
}

/// What code has of a name of the table that is done by itself: not of those of both images.
#[tactic(auto, unfolding(sim_values::specs::Standard::row_of))]
fn procedure_code(name: Standard) -> Option<StandardCode>
    ensures { Numbered result (Some name) }
{
    match name {
        Standard::Abs => built(0, 1),
        Standard::Sign => built(1, 1),
        Standard::Min => built(2, 2),
        Standard::Max => built(3, 2),
        Standard::Mod => built(4, 2),
        Standard::Rem => built(5, 2),
        Standard::Maxint => built(6, 0),
        Standard::Minint => built(7, 0),
        Standard::Char => built(8, 1),
        Standard::Rank => built(9, 1),
        Standard::Isochar => built(10, 1),
        Standard::Isorank => built(11, 1),
        Standard::Digit => built(12, 1),
        Standard::Letter => built(13, 1),
        Standard::Blanks => built(14, 1),
        Standard::Copy => built(15, 1),
        Standard::Upcase => built(16, 1),
        Standard::Lowcase => built(17, 1),
        Standard::TextConstant => built(18, 1),
        Standard::TextStart => built(19, 1),
        Standard::TextLength => built(20, 1),
        Standard::TextPos => built(21, 1),
        Standard::TextMore => built(22, 1),
        Standard::TextMain => built(23, 1),
        Standard::TextSetpos => built(24, 2),
        Standard::TextGetchar => built(25, 1),
        Standard::TextPutchar => built(26, 2),
        Standard::TextSub => built(27, 3),
        Standard::TextStrip => built(28, 1),
        Standard::TextGetint => built(29, 1),
        Standard::TextPutint => built(30, 2),
        Standard::Inimage => built(31, 0),
        Standard::Inchar => built(32, 0),
        Standard::Inint => built(33, 0),
        Standard::Intext => built(34, 1),
        Standard::Lastitem => built(35, 0),
        Standard::Endfile => built(36, 0),
        Standard::Outimage => built(37, 0),
        Standard::Outchar => built(38, 1),
        Standard::Outtext => built(39, 1),
        Standard::Outint => built(40, 2),
        // by itself, without an object or a block, a name of SIMSET or SIMULATION takes nothing
        _ => match attribute_number(name) {
            Some(number) => built(number, 0),
            None => match simulation_number(name) {
                Some(number) => built(number, 0),
                None => None,
            },
        },
    }
}

/// The number of a name that objects have: of SIMSET, and those of processes.
pub(crate) fn attribute_number(name: Standard) -> Option<u32>
    ensures { NumberOfSet name result }
{
    match name {
        Standard::Suc => Some(49),
        Standard::Pred => Some(50),
        Standard::Prev => Some(51),
        Standard::Out => Some(52),
        Standard::Follow => Some(53),
        Standard::Precede => Some(54),
        Standard::Into => Some(55),
        Standard::First => Some(56),
        Standard::Last => Some(57),
        Standard::Empty => Some(58),
        Standard::Cardinal => Some(59),
        Standard::Clear => Some(60),
        Standard::Idle => Some(61),
        Standard::Terminated => Some(62),
        Standard::Evtime => Some(63),
        Standard::Nextev => Some(64),
        _ => None,
    }
}

/// The number of a name that simulation blocks have.
pub(crate) fn simulation_number(name: Standard) -> Option<u32>
    ensures { NumberOfSimulation name result }
{
    match name {
        Standard::Time => Some(65),
        Standard::Current => Some(66),
        Standard::Main => Some(67),
        Standard::Hold => Some(68),
        Standard::Passivate => Some(69),
        Standard::Wait => Some(70),
        Standard::Cancel => Some(71),
        _ => None,
    }
}

/// What code has of a standard name that is done by itself.
pub(crate) fn standard_code(name: StandardName) -> Option<StandardCode>
    ensures { Numbered result (procedure_named name) }
{
    match name {
        StandardName::Procedure(procedure) => procedure_code(procedure),
        _ => None,
    }
}

/// What a name of both images is on one of them.
#[derive(Clone, Copy)]
pub(crate) enum OnImage {
    /// The image itself.
    Itself,
    /// A name of texts.
    OfText(StandardName),
    /// It is none of those names.
    Nothing,
}

/// What a standard name is on an image.
pub(crate) fn on_image(name: StandardName) -> OnImage
    ensures { OnImageIs result (procedure_named name) }
{
    match name {
        StandardName::Procedure(Standard::Image) => OnImage::Itself,
        StandardName::Procedure(Standard::Pos) => OnImage::OfText(StandardName::Procedure(
            Standard::TextPos,
        )),
        StandardName::Procedure(Standard::Setpos) => OnImage::OfText(StandardName::Procedure(
            Standard::TextSetpos,
        )),
        StandardName::Procedure(Standard::More) => OnImage::OfText(StandardName::Procedure(
            Standard::TextMore,
        )),
        StandardName::Procedure(Standard::Length) => OnImage::OfText(StandardName::Procedure(
            Standard::TextLength,
        )),
        _ => OnImage::Nothing,
    }
}

/// Whether a standard name moves the position of its text.
pub(crate) fn moves_position(name: StandardName) -> bool
    ensures { result ≡ moves_named (procedure_named name) }
{
    match name {
        StandardName::Procedure(Standard::TextSetpos) => true,
        StandardName::Procedure(Standard::TextGetchar) => true,
        StandardName::Procedure(Standard::TextPutchar) => true,
        StandardName::Procedure(Standard::TextGetint) => true,
        StandardName::Procedure(Standard::TextPutint) => true,
        _ => false,
    }
}

/// Whether a standard name leaves a value.
pub fn standard_leaves(name: StandardName) -> bool
    ensures { result ≡ standard_leaves_of (procedure_named name) }
{
    match name {
        StandardName::Procedure(procedure) => has_value(procedure.result()),
        _ => false,
    }
}

/// Whether there is a result.
fn has_value(result_type: Option<StandardType>) -> bool
    ensures { result ≡ has_value result_type }
{
    match result_type {
        Some(_) => true,
        None => false,
    }
}
