//! The text constants of a program in their order.
ghost use Rattle.std.specs.Prelude.{◌≡◌, IfOk, OnOk};
ghost use Rattle.program_texts.specs.ConstantTrees.{Adds, AreConstants, of_arm, of_assigned, of_block, of_bounds, of_branch, of_declaration, of_element, of_expr, of_factor, of_operand, of_reference_element, of_segment, of_selector, of_statement, of_term, of_timing, of_variable};
ghost use Rattle.sim_scope.specs.Runs.{each};

use sim_base::{ByteString, TokenNo};
use sim_tree::{
    ArraySegment, Assigned, Block, Bounds, Constant, Decl, Expr, Factor, ForElement, Operand,
    Program, ReferenceElement, Selector, Stmt, Term, Timing, Variable, When,
};
use std::alloc::{AllocError, Global};

/// A text constant of a program, as a part of its tree.
#[derive(Clone, Copy)]
pub struct ConstantTree<'a> {
    /// Its token.
    pub token: TokenNo,
    /// Its characters.
    pub value: &'a ByteString,
}

/// Those in an expression.
#[cycle(expr)]
#[tactic(auto, using(crate::proofs::Gathered::expression_rules))]
fn expr<'a>(list: &mut Vec<ConstantTree<'a>>, tree: &'a Expr) -> Result<(), AllocError>
    ensures { OnOk result (Adds list.old.items list.new.items (of_expr tree.now)) }
{
    match tree {
        Expr::If {
            condition,
            first,
            second,
            ..
        } => {
            expr(list, condition)?;
            expr(list, first)?;
            expr(list, second)
        }
        Expr::OrElse { first, rest } => {
            expr(list, first)?;
            operands(list, rest)
        }
        Expr::AndThen { first, rest } => {
            expr(list, first)?;
            operands(list, rest)
        }
        Expr::Eqv { first, rest } => {
            expr(list, first)?;
            operands(list, rest)
        }
        Expr::Imp { first, rest } => {
            expr(list, first)?;
            operands(list, rest)
        }
        Expr::Or { first, rest } => {
            expr(list, first)?;
            operands(list, rest)
        }
        Expr::And { first, rest } => {
            expr(list, first)?;
            operands(list, rest)
        }
        Expr::Not { operand, .. } => expr(list, operand),
        Expr::Related { left, right, .. } => {
            expr(list, left)?;
            expr(list, right)
        }
        Expr::Member { object, .. } => expr(list, object),
        Expr::Concatenation { first, rest } => {
            expr(list, first)?;
            operands(list, rest)
        }
        Expr::Sum { first, rest, .. } => {
            expr(list, first)?;
            terms(list, rest)
        }
        Expr::Product { first, rest } => {
            expr(list, first)?;
            factors(list, rest)
        }
        Expr::Power { first, rest } => {
            expr(list, first)?;
            operands(list, rest)
        }
        Expr::Postfix { primary, rest } => {
            expr(list, primary)?;
            selectors(list, rest)
        }
        Expr::Text { token, value } => {
            list.push(ConstantTree {
                token: *token,
                value,
            })?;
            Ok(())
        }
        Expr::Named { arguments, .. } => exprs(list, arguments),
        Expr::New { arguments, .. } => exprs(list, arguments),
        Expr::Parentheses { inner, .. } => expr(list, inner),
        Expr::Integer { .. } => Ok(()),
        Expr::Character { .. } => Ok(()),
        Expr::True { .. } => Ok(()),
        Expr::False { .. } => Ok(()),
        Expr::NoObject { .. } => Ok(()),
        Expr::Notext { .. } => Ok(()),
        Expr::This { .. } => Ok(()),
    }
}

#[cycle(expr)]
#[tactic(auto, using(crate::proofs::Gathered::expression_rules))]
fn exprs<'a>(list: &mut Vec<ConstantTree<'a>>, trees: &'a [Expr]) -> Result<(), AllocError>
    ensures { OnOk result (Adds list.old.items list.new.items (each of_expr trees.now)) }
{
    for item in trees {
        expr(list, item)?;
    }
    Ok(())
}

#[cycle(expr)]
#[tactic(auto, using(crate::proofs::Gathered::expression_rules))]
fn operands<'a>(list: &mut Vec<ConstantTree<'a>>, trees: &'a [Operand]) -> Result<(), AllocError>
    ensures { OnOk result (Adds list.old.items list.new.items (each of_operand trees.now)) }
{
    for item in trees {
        expr(list, &item.operand)?;
    }
    Ok(())
}

#[cycle(expr)]
#[tactic(auto, using(crate::proofs::Gathered::expression_rules))]
fn terms<'a>(list: &mut Vec<ConstantTree<'a>>, trees: &'a [Term]) -> Result<(), AllocError>
    ensures { OnOk result (Adds list.old.items list.new.items (each of_term trees.now)) }
{
    for item in trees {
        expr(list, &item.term)?;
    }
    Ok(())
}

#[cycle(expr)]
#[tactic(auto, using(crate::proofs::Gathered::expression_rules))]
fn factors<'a>(list: &mut Vec<ConstantTree<'a>>, trees: &'a [Factor]) -> Result<(), AllocError>
    ensures { OnOk result (Adds list.old.items list.new.items (each of_factor trees.now)) }
{
    for item in trees {
        expr(list, &item.factor)?;
    }
    Ok(())
}

/// Those in what is taken of an object.
#[cycle(expr)]
#[tactic(auto, using(crate::proofs::Gathered::expression_rules))]
fn selector<'a>(list: &mut Vec<ConstantTree<'a>>, tree: &'a Selector) -> Result<(), AllocError>
    ensures { OnOk result (Adds list.old.items list.new.items (of_selector tree.now)) }
{
    match tree {
        Selector::Dot { arguments, .. } => exprs(list, arguments),
        Selector::Qua { .. } => Ok(()),
    }
}

#[cycle(expr)]
#[tactic(auto, using(crate::proofs::Gathered::expression_rules))]
fn selectors<'a>(list: &mut Vec<ConstantTree<'a>>, trees: &'a [Selector]) -> Result<(), AllocError>
    ensures { OnOk result (Adds list.old.items list.new.items (each of_selector trees.now)) }
{
    for item in trees {
        selector(list, item)?;
    }
    Ok(())
}

#[tactic(auto, using(crate::proofs::Gathered::part_rules))]
fn right_sides<'a>(
    list: &mut Vec<ConstantTree<'a>>,
    trees: &'a [Assigned],
) -> Result<(), AllocError>
    ensures { OnOk result (Adds list.old.items list.new.items (each of_assigned trees.now)) }
{
    for item in trees {
        expr(list, &item.value)?;
    }
    Ok(())
}

/// Those in an element of a `for` list.
#[tactic(auto, using(crate::proofs::Gathered::part_rules))]
fn element<'a>(list: &mut Vec<ConstantTree<'a>>, tree: &'a ForElement) -> Result<(), AllocError>
    ensures { OnOk result (Adds list.old.items list.new.items (of_element tree.now)) }
{
    match tree {
        ForElement::Value { value } => expr(list, value),
        ForElement::Step {
            start,
            step,
            limit,
            ..
        } => {
            expr(list, start)?;
            expr(list, step)?;
            expr(list, limit)
        }
        ForElement::While {
            value,
            condition,
            ..
        } => {
            expr(list, value)?;
            expr(list, condition)
        }
    }
}

#[tactic(auto, using(crate::proofs::Gathered::part_rules))]
fn elements<'a>(list: &mut Vec<ConstantTree<'a>>, trees: &'a [ForElement]) -> Result<(), AllocError>
    ensures { OnOk result (Adds list.old.items list.new.items (each of_element trees.now)) }
{
    for item in trees {
        element(list, item)?;
    }
    Ok(())
}

/// The same of a list over references.
#[tactic(auto, using(crate::proofs::Gathered::part_rules))]
fn reference_element<'a>(
    list: &mut Vec<ConstantTree<'a>>,
    tree: &'a ReferenceElement,
) -> Result<(), AllocError>
    ensures { OnOk result (Adds list.old.items list.new.items (of_reference_element tree.now)) }
{
    match tree {
        ReferenceElement::Value { value } => expr(list, value),
        ReferenceElement::While {
            value,
            condition,
            ..
        } => {
            expr(list, value)?;
            expr(list, condition)
        }
    }
}

#[tactic(auto, using(crate::proofs::Gathered::part_rules))]
fn reference_elements<'a>(
    list: &mut Vec<ConstantTree<'a>>,
    trees: &'a [ReferenceElement],
) -> Result<(), AllocError>
    ensures { OnOk result (Adds list.old.items list.new.items (each of_reference_element trees.now)) }
{
    for item in trees {
        reference_element(list, item)?;
    }
    Ok(())
}

/// Those in the time of an activation.
#[tactic(auto, using(crate::proofs::Gathered::part_rules))]
fn timing<'a>(list: &mut Vec<ConstantTree<'a>>, tree: &'a Option<Timing>) -> Result<(), AllocError>
    ensures { OnOk result (Adds list.old.items list.new.items (of_timing tree.now)) }
{
    match tree {
        None => Ok(()),
        Some(Timing::At { time, .. }) => expr(list, time),
        Some(Timing::Delay { time, .. }) => expr(list, time),
        Some(Timing::Before { process, .. }) => expr(list, process),
        Some(Timing::After { process, .. }) => expr(list, process),
    }
}

/// The text that a declared constant is.
#[tactic(auto, using(crate::proofs::Gathered::part_rules))]
fn variable<'a>(list: &mut Vec<ConstantTree<'a>>, tree: &'a Variable) -> Result<(), AllocError>
    ensures { OnOk result (Adds list.old.items list.new.items (of_variable tree.now)) }
{
    match &tree.value {
        Some(Constant::Text { token, value }) => {
            list.push(ConstantTree {
                token: *token,
                value,
            })?;
            Ok(())
        }
        Some(Constant::Integer { .. }) => Ok(()),
        Some(Constant::Character { .. }) => Ok(()),
        Some(Constant::True { .. }) => Ok(()),
        Some(Constant::False { .. }) => Ok(()),
        None => Ok(()),
    }
}

#[tactic(auto, using(crate::proofs::Gathered::part_rules))]
fn variables<'a>(list: &mut Vec<ConstantTree<'a>>, trees: &'a [Variable]) -> Result<(), AllocError>
    ensures { OnOk result (Adds list.old.items list.new.items (each of_variable trees.now)) }
{
    for item in trees {
        variable(list, item)?;
    }
    Ok(())
}

#[tactic(auto, using(crate::proofs::Gathered::part_rules))]
fn bounds<'a>(list: &mut Vec<ConstantTree<'a>>, trees: &'a [Bounds]) -> Result<(), AllocError>
    ensures { OnOk result (Adds list.old.items list.new.items (each of_bounds trees.now)) }
{
    for item in trees {
        expr(list, &item.lower)?;
        expr(list, &item.upper)?;
    }
    Ok(())
}

#[tactic(auto, using(crate::proofs::Gathered::part_rules))]
fn segments<'a>(
    list: &mut Vec<ConstantTree<'a>>,
    trees: &'a [ArraySegment],
) -> Result<(), AllocError>
    ensures { OnOk result (Adds list.old.items list.new.items (each of_segment trees.now)) }
{
    for item in trees {
        bounds(list, &item.bounds)?;
    }
    Ok(())
}

/// Those in a statement.
#[cycle(stmt)]
#[tactic(auto, using(crate::proofs::Gathered::statement_rules))]
fn statement<'a>(list: &mut Vec<ConstantTree<'a>>, stmt: &'a Stmt) -> Result<(), AllocError>
    ensures { OnOk result (Adds list.old.items list.new.items (of_statement stmt.now)) }
{
    match stmt {
        Stmt::Empty { .. } => Ok(()),
        Stmt::Block { block } => self::block(list, block),
        Stmt::PrefixedBlock { prefix, block } => {
            exprs(list, &prefix.arguments)?;
            self::block(list, block)
        }
        Stmt::Inner { .. } => Ok(()),
        Stmt::Call { call } => expr(list, call),
        Stmt::Assignment { left, rest } => {
            expr(list, left)?;
            right_sides(list, rest)
        }
        Stmt::If {
            condition,
            then_branch,
            else_branch,
            ..
        } => {
            expr(list, condition)?;
            statement(list, then_branch)?;
            branch(list, else_branch)
        }
        Stmt::While {
            condition,
            body,
            ..
        } => {
            expr(list, condition)?;
            statement(list, body)
        }
        Stmt::For {
            elements: items,
            body,
            ..
        } => {
            elements(list, items)?;
            statement(list, body)
        }
        Stmt::ForReference {
            elements: items,
            body,
            ..
        } => {
            reference_elements(list, items)?;
            statement(list, body)
        }
        Stmt::Inspect {
            object,
            body,
            otherwise,
            ..
        } => {
            expr(list, object)?;
            statement(list, body)?;
            branch(list, otherwise)
        }
        Stmt::InspectWhen {
            object,
            arms: whens,
            otherwise,
            ..
        } => {
            expr(list, object)?;
            arms(list, whens)?;
            branch(list, otherwise)
        }
        Stmt::Activation {
            process,
            timing: time,
            ..
        } => {
            expr(list, process)?;
            timing(list, time)
        }
    }
}

#[cycle(stmt)]
#[tactic(auto, using(crate::proofs::Gathered::statement_rules))]
fn branch<'a>(
    list: &mut Vec<ConstantTree<'a>>,
    stmt: &'a Option<Box<Stmt>>,
) -> Result<(), AllocError>
    ensures { OnOk result (Adds list.old.items list.new.items (of_branch stmt.now)) }
{
    match stmt {
        Some(stmt) => statement(list, stmt),
        None => Ok(()),
    }
}

#[cycle(stmt)]
#[tactic(auto, using(crate::proofs::Gathered::statement_rules))]
fn arms<'a>(list: &mut Vec<ConstantTree<'a>>, whens: &'a [When]) -> Result<(), AllocError>
    ensures { OnOk result (Adds list.old.items list.new.items (each of_arm whens.now)) }
{
    for item in whens {
        statement(list, &item.body)?;
    }
    Ok(())
}

#[cycle(stmt)]
#[tactic(auto, using(crate::proofs::Gathered::statement_rules))]
fn statements<'a>(list: &mut Vec<ConstantTree<'a>>, stmts: &'a [Stmt]) -> Result<(), AllocError>
    ensures { OnOk result (Adds list.old.items list.new.items (each of_statement stmts.now)) }
{
    for item in stmts {
        statement(list, item)?;
    }
    Ok(())
}

#[cycle(stmt)]
#[tactic(auto, using(crate::proofs::Gathered::statement_rules))]
fn block<'a>(list: &mut Vec<ConstantTree<'a>>, block: &'a Block) -> Result<(), AllocError>
    ensures { OnOk result (Adds list.old.items list.new.items (of_block block.now)) }
{
    declarations(list, &block.declarations)?;
    statements(list, &block.statements)
}

#[cycle(stmt)]
#[tactic(auto, using(crate::proofs::Gathered::statement_rules))]
fn declarations<'a>(list: &mut Vec<ConstantTree<'a>>, decls: &'a [Decl]) -> Result<(), AllocError>
    ensures { OnOk result (Adds list.old.items list.new.items (each of_declaration decls.now)) }
{
    for item in decls {
        declaration(list, item)?;
    }
    Ok(())
}

#[cycle(stmt)]
#[tactic(auto, using(crate::proofs::Gathered::statement_rules))]
fn declaration<'a>(list: &mut Vec<ConstantTree<'a>>, decl: &'a Decl) -> Result<(), AllocError>
    ensures { OnOk result (Adds list.old.items list.new.items (of_declaration decl.now)) }
{
    match decl {
        Decl::Variables {
            variables: items,
            ..
        } => variables(list, items),
        Decl::Arrays {
            segments: items,
            ..
        } => segments(list, items),
        Decl::Procedure { procedure, .. } => statement(list, &procedure.body),
        Decl::Class { class, .. } => statement(list, &class.body),
    }
}

/// The text constants of a program in their order. Time and memory are linear in the program.
#[tactic(auto, using(crate::proofs::Gathered::program_rules))]
pub fn text_constants<'a>(
    alloc: Global,
    program: &'a Program,
) -> Result<Vec<ConstantTree<'a>>, AllocError>
    ensures { IfOk result (λ list. AreConstants program.now list.items) }
{
    let mut list = Vec::new(alloc);
    match &program.prefix {
        Some(prefix) => {
            exprs(&mut list, &prefix.arguments)?;
            block(&mut list, &program.block)?;
            Ok(list)
        }
        None => {
            block(&mut list, &program.block)?;
            Ok(list)
        }
    }
}
