//! What operands of instructions stand for.
ghost use Rattle.std.specs.Prelude.{◌≡◌, IfSome};
ghost use Rattle.sim_code.specs.Machine.{number};
ghost use Rattle.sim_code.specs.Rows.{code_of, comparison_of, element_kind, truth_of};

use sim_values::{Comparison, Kind};

/// An index.
#[inline(always)]
pub fn index(operand: i64) -> Option<usize>
    ensures { result ≡ number operand }
{
    if operand < 0 {
        return None;
    }
    Some(operand as usize)
}

/// A truth value.
#[inline(always)]
pub fn truth(operand: i64) -> Option<bool>
    ensures { result ≡ truth_of operand }
{
    match operand {
        0 => Some(false),
        1 => Some(true),
        _ => None,
    }
}

/// A character, by its code.
#[inline(always)]
pub fn character(operand: i64) -> Option<u8>
    ensures { result ≡ code_of operand }
{
    if operand < 0 || operand > 255 {
        return None;
    }
    Some(operand as u8)
}

/// A relation.
#[inline(always)]
pub fn comparison(operand: i64) -> Option<Comparison>
    ensures { result ≡ comparison_of operand }
{
    match operand {
        0 => Some(Comparison::Less),
        1 => Some(Comparison::LessOrEqual),
        2 => Some(Comparison::Equal),
        3 => Some(Comparison::GreaterOrEqual),
        4 => Some(Comparison::Greater),
        5 => Some(Comparison::NotEqual),
        _ => None,
    }
}

/// A kind of elements.
#[inline(always)]
pub fn element(operand: i64) -> Option<Kind>
    ensures { result ≡ element_kind operand }
{
    match operand {
        1 => Some(Kind::Integer),
        2 => Some(Kind::Boolean),
        3 => Some(Kind::Character),
        4 => Some(Kind::Text),
        5 => Some(Kind::Reference),
        _ => None,
    }
}
