//! The values of declared constants.
ghost use Rattle.std.specs.Prelude.{◌≡◌, IfOk, None, OnOk, [], length};
ghost use Rattle.sim_meaning.specs.Texts.{with_sign};
ghost use Rattle.sim_scope.specs.Source.{Source};
ghost use Rattle.codegen_expr.specs.Known.{plain_in};
ghost use Rattle.text_tables.specs.Constants.{ConstantsOf, Enters, Gathers, GatheredTo, IsValue, IsValueIn, Reaches, TextGathers, among_decls, among_declaration, among_variable, among_variable_list, found_at, found_in};
ghost use Rattle.sim_tree.specs.SyntaxOfProgram.{declaration_syntax};

use crate::places::number_of;
use codegen_expr::ConstantValue;
use program_texts::TextTree;
use sim_scope::Declaration;
use sim_tree::{Constant, Decl, LeadingSign, Sign, Variable};
use std::alloc::{AllocError, Global};

/// What is declared at a token of a text: the value of a constant, or none.
#[derive(Clone, Copy)]
pub(crate) struct Entered {
    /// The text.
    pub text: u32,
    /// The value.
    pub value: Option<ConstantValue>,
}

/// A number with its sign. The one whose negation is too large is none of a program.
fn signed(sign: &Option<LeadingSign>, value: i64) -> Result<i64, AllocError>
    ensures { IfOk result (λ z. z ≡ with_sign sign.now value) }
{
    match sign {
        Some(sign) => match sign.sign {
            Sign::Plus => Ok(value),
            Sign::Minus => value.checked_neg().ok_or(AllocError),
        },
        None => Ok(value),
    }
}

/// The value of a constant.
#[tactic(auto, using(crate::proofs::Gathering::gathering))]
fn value_of(constant: &Constant) -> Result<Option<ConstantValue>, AllocError>
    ensures { IfOk result (λ v. IsValue v constant.now) }
{
    match constant {
        Constant::Integer { sign, value, .. } => {
            let number = signed(sign, *value)?;
            Ok(Some(ConstantValue::Integer(number)))
        }
        Constant::Character { value, .. } => Ok(Some(ConstantValue::Character(*value))),
        Constant::Text { token, .. } => Ok(Some(ConstantValue::Text(*token))),
        Constant::True { .. } => Ok(Some(ConstantValue::Truth(true))),
        Constant::False { .. } => Ok(Some(ConstantValue::Truth(false))),
    }
}

/// The value of a variable that is a constant.
#[tactic(auto, using(crate::proofs::Gathering::gathering))]
fn value_in(constant: &Option<Constant>) -> Result<Option<ConstantValue>, AllocError>
    ensures { IfOk result (λ v. IsValueIn v constant.now) }
{
    match constant {
        Some(constant) => value_of(constant),
        None => Ok(None),
    }
}

/// The table has a row for a token.
#[tactic(auto, using(crate::proofs::Gathering::gathering))]
fn reach(alloc: Global, table: &mut Vec<Vec<Entered>>, token: u32) -> Result<(), AllocError>
    ensures { OnOk result (Reaches table.old.items table.new.items token) }
{
    let start = table.len();
    let end = token as usize + 1;
    for made in start..end {
        table.push(Vec::new(alloc))?;
    }
    Ok(())
}

/// One entry more at a token.
#[tactic(auto, using(crate::proofs::Gathering::gathering))]
fn enter(
    alloc: Global,
    table: &mut Vec<Vec<Entered>>,
    token: u32,
    entry: Entered,
) -> Result<(), AllocError>
    ensures { OnOk result (Enters table.old.items table.new.items token entry) }
{
    reach(alloc, table, token)?;
    table[token as usize].push(entry)?;
    Ok(())
}

/// The constant of a text at a token, if one is entered.
#[tactic(auto, unfolding(crate::specs::Constants::found_at))]
fn lookup(table: &[Vec<Entered>], text: u32, token: u32) -> Option<ConstantValue>
    ensures { (s : Source) → plain_in s result ≡ found_at s table.now text token None }
{
    match table.get(token as usize) {
        Some(row) => first_of(row, text),
        None => None,
    }
}

/// What was entered first for a text.
#[tactic(auto, using(crate::proofs::Gathering::gathering))]
fn first_of(row: &[Entered], text: u32) -> Option<ConstantValue>
    ensures { (s : Source) → plain_in s result ≡ found_in s row.now text }
{
    for entry in row {
        if entry.text == text {
            return entry.value;
        }
    }
    None
}

/// One variable or constant of a text.
#[tactic(auto, using(crate::proofs::Gathering::gathering))]
fn gather_variable(
    alloc: Global,
    table: &mut Vec<Vec<Entered>>,
    text: u32,
    variable: &Variable,
) -> Result<(), AllocError>
    ensures { OnOk result (Gathers text table.old.items table.new.items (among_variable variable.now)) }
{
    let value = value_in(&variable.value)?;
    enter(alloc, table, variable.name.token.0, Entered { text, value })?;
    Ok(())
}

/// Variables and constants of a text.
#[tactic(auto, using(crate::proofs::Gathering::gathering))]
fn gather_variables(
    alloc: Global,
    table: &mut Vec<Vec<Entered>>,
    text: u32,
    list: &[Variable],
) -> Result<(), AllocError>
    ensures { OnOk result (Gathers text table.old.items table.new.items (among_variable_list list.now)) }
{
    for item in list {
        gather_variable(alloc, table, text, item)?;
    }
    Ok(())
}

/// A declaration of a text.
#[tactic(auto, using(crate::proofs::Gathering::gathering))]
fn gather_declaration(
    alloc: Global,
    table: &mut Vec<Vec<Entered>>,
    text: u32,
    decl: &Decl,
) -> Result<(), AllocError>
    ensures { OnOk result (Gathers text table.old.items table.new.items (among_declaration (declaration_syntax decl.now))) }
{
    match decl {
        Decl::Variables { variables, .. } => gather_variables(alloc, table, text, variables),
        Decl::Arrays { .. } => Ok(()),
        Decl::Procedure { .. } => Ok(()),
        Decl::Class { .. } => Ok(()),
    }
}

/// The declarations of a text.
#[tactic(auto, using(crate::proofs::Gathering::gathering))]
fn gather_declarations(
    alloc: Global,
    table: &mut Vec<Vec<Entered>>,
    text: u32,
    list: &[Decl],
) -> Result<(), AllocError>
    ensures { OnOk result (Gathers text table.old.items table.new.items (among_decls list.now)) }
{
    for item in list {
        gather_declaration(alloc, table, text, item)?;
    }
    Ok(())
}

/// The constants of a text.
#[tactic(auto, using(crate::proofs::Gathering::gathering))]
fn gather_text(
    alloc: Global,
    table: &mut Vec<Vec<Entered>>,
    number: u32,
    text: TextTree,
) -> Result<(), AllocError>
    ensures { OnOk result (TextGathers number table.old.items table.new.items text.entry) }
{
    match text {
        TextTree::Block(block) => gather_declarations(alloc, table, number, &block.declarations),
        TextTree::Prefixed { block, .. } => {
            gather_declarations(alloc, table, number, &block.declarations)
        }
        TextTree::Class { block, .. } => {
            gather_declarations(alloc, table, number, &block.declarations)
        }
        TextTree::ClassOfStatement { .. } => Ok(()),
        TextTree::Procedure { .. } => Ok(()),
        TextTree::Connection => Ok(()),
        TextTree::Standard(_) => Ok(()),
    }
}

/// The constants of all texts.
#[tactic(auto, using(crate::proofs::Gathering::gathering))]
fn gather(
    alloc: Global,
    table: &mut Vec<Vec<Entered>>,
    texts: &[TextTree],
) -> Result<(), AllocError>
    requires empty { table.old.items ≡ [] }
    ensures { OnOk result (GatheredTo texts.now table.new.items (length texts.now)) }
{
    for index in 0..texts.len() {
        gather_text(alloc, table, number_of(index)?, texts[index])?;
    }
    Ok(())
}

/// The values of constants by declaration.
#[tactic(auto, using(crate::proofs::Gathering::gathering))]
pub(crate) fn constants_of(
    alloc: Global,
    texts: &[TextTree],
    rows: &[Declaration],
) -> Result<Vec<Option<ConstantValue>>, AllocError>
    ensures { IfOk result (λ v. ConstantsOf texts.now rows.now v.items) }
{
    let mut table = Vec::new(alloc);
    gather(alloc, &mut table, texts)?;
    let mut values = Vec::new(alloc);
    for row in rows {
        let value = lookup(&table, row.block, row.token.0);
        values.push(value)?;
    }
    Ok(values)
}
