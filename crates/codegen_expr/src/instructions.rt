//! Instructions with operands.
ghost use Rattle.std.specs.Prelude.{◌≡◌, ◌<◌, IfOk, pos};
ghost use Rattle.sim_code.specs.declared.instr.Instr.TheVariants as i;
ghost use Rattle.codegen_expr.specs.CodeExpr.{member_instr as member_instr_of, truth_number};

use sim_code::Instr;
use sim_tree::Membership;
use std::alloc::AllocError;

/// The instruction that pushes the value of a cell.
pub fn load_instr(level: u32, cell: u32) -> Instr
    ensures { result ≡ i.Load (pos level) (pos cell) }
{
    Instr::Load {
        level: i64::from(level),
        cell: i64::from(cell),
    }
}

/// The instruction that finds an element by so many subscripts. The class is that of references in the array, or 0.
pub fn element_instr(subscripts: usize, class: u32) -> Result<Instr, AllocError>
    ensures { IfOk result (λ x. x ≡ i.Elem (pos subscripts) (pos class)) }
{
    let subscripts = i64::try_from(subscripts).map_err(|_| AllocError)?;
    Ok(Instr::Elem {
        subscripts,
        class: i64::from(class),
    })
}

/// The instruction of a standard name.
pub fn standard_instr(number: u32) -> Instr
    ensures { result ≡ i.Std (pos number) }
{
    Instr::Std(i64::from(number))
}

/// The instruction that pushes the link to a frame.
pub fn link_instr(level: u32) -> Instr
    ensures { result ≡ i.Link (pos level) }
{
    Instr::Link(i64::from(level))
}

/// The instruction that calls a block of code with so many actual parameters.
pub fn call_instr(block: u32, actuals: usize) -> Result<Instr, AllocError>
    ensures { IfOk result (λ x. x ≡ i.Call (pos block) (pos actuals)) }
{
    let values = i64::try_from(actuals).map_err(|_| AllocError)?;
    Ok(Instr::Call {
        block: i64::from(block),
        values,
    })
}

/// The instruction that finds what matches a virtual in the object in hand.
pub fn virtual_instr(declaration: u32) -> Instr
    ensures { result ≡ i.Virt (pos declaration) }
{
    Instr::Virt(i64::from(declaration))
}

/// The instruction that makes a procedure of a block of code a value, with the link or the object on top.
pub fn procedure_instr(block: u32) -> Instr
    ensures { result ≡ i.ProcVal (pos block) }
{
    Instr::ProcVal(i64::from(block))
}

/// The instruction that passes what one of two thunks gives for the formal parameter of this number.
pub fn parameter_instr(number: usize, value: u32, procedure: u32) -> Result<Instr, AllocError>
    ensures { IfOk result (λ x. x ≡ i.Param (pos number) (pos value) (pos procedure)) }
{
    let formal = i64::try_from(number).map_err(|_| AllocError)?;
    Ok(Instr::Param {
        formal,
        thunk: i64::from(value),
        procedure: i64::from(procedure),
    })
}

/// The instruction that holds a procedure against the actual parameters of a list.
pub fn check_instr(list: i64) -> Instr
    ensures { result ≡ i.Check list }
{
    Instr::Check(list)
}

/// The instruction that pushes a number.
pub fn integer_instr(value: u32) -> Instr
    ensures { result ≡ i.Int (pos value) }
{
    Instr::Int(i64::from(value))
}

/// The instruction that calls a procedure that is a value, with so many actual parameters.
pub fn value_call_instr(actuals: usize) -> Result<Instr, AllocError>
    ensures { IfOk result (λ x. x ≡ i.CallV (pos actuals)) }
{
    let values = i64::try_from(actuals).map_err(|_| AllocError)?;
    Ok(Instr::CallV(values))
}

/// The instruction that pushes a character.
pub fn character_instr(value: u8) -> Instr
    ensures is { result ≡ i.Char (pos value) }
    ensures small { value < 256 }
{
    Instr::Char(i64::from(value))
}

/// The instruction that pushes a text constant, by its number.
pub fn constant_text_instr(number: u32) -> Instr
    ensures { result ≡ i.TextK (pos number) }
{
    Instr::TextK(i64::from(number))
}

/// The instruction that pushes the address of a cell. The class is that of a reference in it, or 0.
pub fn address_instr(level: u32, cell: u32, class: u32) -> Instr
    ensures { result ≡ i.Addr (pos level) (pos cell) (pos class) }
{
    Instr::Addr {
        level: i64::from(level),
        cell: i64::from(cell),
        class: i64::from(class),
    }
}

/// The instruction that finds a cell of an object. The class is that of a reference in it, or 0.
pub fn attribute_instr(cell: u32, class: u32) -> Instr
    ensures { result ≡ i.AddrR (pos cell) (pos class) }
{
    Instr::AddrR {
        cell: i64::from(cell),
        class: i64::from(class),
    }
}

/// The instruction that pushes the object of a level.
pub fn this_instr(level: u32) -> Instr
    ensures { result ≡ i.This (pos level) }
{
    Instr::This(i64::from(level))
}

/// The instruction that generates an object of a class with so many actual parameters.
pub fn new_instr(class: u32, actuals: usize) -> Result<Instr, AllocError>
    ensures { IfOk result (λ x. x ≡ i.New (pos class) (pos actuals)) }
{
    let values = i64::try_from(actuals).map_err(|_| AllocError)?;
    Ok(Instr::New {
        class: i64::from(class),
        values,
    })
}

/// The instruction of `is` or `in`.
pub fn member_instr(member: Membership, class: u32) -> Instr
    ensures { result ≡ member_instr_of member class }
{
    match member {
        Membership::Is => Instr::Is(i64::from(class)),
        Membership::In => Instr::In(i64::from(class)),
    }
}

/// The instruction of `qua`.
pub fn qua_instr(class: u32) -> Instr
    ensures { result ≡ i.Qua (pos class) }
{
    Instr::Qua(i64::from(class))
}

/// The instruction that pushes the address of an image: 0 of sysin, 1 of sysout.
pub fn image_instr(image: u32) -> Instr
    ensures { result ≡ i.AddrImg (pos image) }
{
    Instr::AddrImg(i64::from(image))
}

/// The instruction that pushes the value of a parameter by name, held against a class, or 0.
pub fn name_value_instr(level: u32, cell: u32, class: u32) -> Instr
    ensures { result ≡ i.NameVal (pos level) (pos cell) (pos class) }
{
    Instr::NameVal {
        level: i64::from(level),
        cell: i64::from(cell),
        class: i64::from(class),
    }
}

/// The instruction that pushes where a parameter by name lies; or else its value, where that is enough.
pub fn name_address_instr(level: u32, cell: u32, value_too: bool) -> Instr
    ensures { result ≡ i.NameAddr (pos level) (pos cell) (pos (truth_number value_too)) }
{
    let value = match value_too {
        true => 1,
        false => 0,
    };
    Instr::NameAddr {
        level: i64::from(level),
        cell: i64::from(cell),
        value,
    }
}

/// The instruction that takes a value into a cell.
pub fn store_instr(level: u32, cell: u32) -> Instr
    ensures { result ≡ i.Store (pos level) (pos cell) }
{
    Instr::Store {
        level: i64::from(level),
        cell: i64::from(cell),
    }
}
