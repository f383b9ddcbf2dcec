//! How deep a program nests.

ghost use Rattle.std.specs.Prelude.{List, ◌+◌, ◌≡◌};
ghost use Rattle.sim_base.specs.declared.token.Token.{Token};
ghost use Rattle.sim_tree.specs.Nesting.{apart, branch_derivation, capped, Largest, Nests, NestsInside};
ghost use Rattle.sim_tree.specs.Derivation.{argument, factor_derivation, operand_derivation, selector_derivation, derivation_of, term_derivation};
ghost use Rattle.sim_tree.specs.ProgramDerivation.{assigned_derivation, block_derivation, bounds_derivation, declaration_derivation, for_element_derivation, next_statement, reference_element_derivation, segment_derivation, statement_derivation, timing_inside, timing_derivation, when_derivation};
ghost use Rattle.sim_tree.specs.Tree.{IsTree, depth_of};

use crate::expr::{Expr, Factor, Operand, Selector, Term};
use crate::program::{BlockPrefix, Program};
use crate::stmt::{
    ArraySegment, Assigned, Block, Bounds, Decl, ForElement, ReferenceElement, Stmt, Timing, When,
};

/// How many statements and expressions stand around a token of a program, at most. An empty statement does not count.
pub fn depth(program: &Program) -> u32
    ensures { (tokens : List Token) → IsTree tokens program.now → result ≡ depth_of program.now }
{
    let block = block_depth(&program.block);
    match &program.prefix {
        Some(prefix) => block_prefix(prefix).max(block),
        None => block,
    }
}

// One more statement or expression around it.
fn deeper(depth: u32) -> u32
    ensures { result ≡ capped (depth + 1) }
{
    depth.saturating_add(1)
}

// The actual parameters of a prefix.
fn block_prefix(prefix: &BlockPrefix) -> u32
    ensures { Largest (λ x. Nests (argument (derivation_of x))) prefix.now.arguments.items result }
{
    arguments(&prefix.arguments)
}

// An expression, which counts itself.
#[cycle(expression)]
fn expression(expr: &Expr) -> u32
    ensures { Nests (argument (derivation_of expr.now)) result }
{
    deeper(inside(expr))
}

// What is inside an expression.
#[cycle(expression)]
fn inside(expr: &Expr) -> u32
    ensures { NestsInside (derivation_of expr.now) result }
{
    match expr {
        Expr::If {
            condition,
            first,
            second,
            ..
        } => expression(condition)
            .max(inside(first))
            .max(expression(second)),
        Expr::OrElse { first, rest } => inside(first).max(operands(rest)),
        Expr::AndThen { first, rest } => inside(first).max(operands(rest)),
        Expr::Eqv { first, rest } => inside(first).max(operands(rest)),
        Expr::Imp { first, rest } => inside(first).max(operands(rest)),
        Expr::Or { first, rest } => inside(first).max(operands(rest)),
        Expr::And { first, rest } => inside(first).max(operands(rest)),
        Expr::Not { operand, .. } => inside(operand),
        Expr::Related { left, right, .. } => inside(left).max(inside(right)),
        Expr::Member { object, .. } => inside(object),
        Expr::Concatenation { first, rest } => inside(first).max(operands(rest)),
        Expr::Sum { first, rest, .. } => inside(first).max(terms(rest)),
        Expr::Product { first, rest } => inside(first).max(factors(rest)),
        Expr::Power { first, rest } => inside(first).max(operands(rest)),
        Expr::Postfix { primary, rest } => inside(primary).max(selectors(rest)),
        Expr::Named {
            arguments: list,
            ..
        } => arguments(list),
        Expr::New {
            arguments: list,
            ..
        } => arguments(list),
        Expr::Parentheses { inner, .. } => expression(inner),
        Expr::Integer { .. } => 0,
        Expr::Character { .. } => 0,
        Expr::Text { .. } => 0,
        Expr::True { .. } => 0,
        Expr::False { .. } => 0,
        Expr::NoObject { .. } => 0,
        Expr::Notext { .. } => 0,
        Expr::This { .. } => 0,
    }
}

#[cycle(expression)]
fn operands(list: &[Operand]) -> u32
    ensures { Largest (λ x. NestsInside (operand_derivation x).operand) list.now result }
{
    let mut deepest = 0;
    for item in list {
        deepest = inside(&item.operand).max(deepest);
    }
    deepest
}

#[cycle(expression)]
fn terms(list: &[Term]) -> u32
    ensures { Largest (λ x. Nests (term_derivation x)) list.now result }
{
    let mut deepest = 0;
    for item in list {
        deepest = inside(&item.term).max(deepest);
    }
    deepest
}

#[cycle(expression)]
fn factors(list: &[Factor]) -> u32
    ensures { Largest (λ x. Nests (factor_derivation x)) list.now result }
{
    let mut deepest = 0;
    for item in list {
        deepest = inside(&item.factor).max(deepest);
    }
    deepest
}

#[cycle(expression)]
fn selectors(list: &[Selector]) -> u32
    ensures { Largest (λ x. Nests (selector_derivation x)) list.now result }
{
    let mut deepest = 0;
    for item in list {
        deepest = selector(item).max(deepest);
    }
    deepest
}

#[cycle(expression)]
fn selector(selector: &Selector) -> u32
    ensures { Nests (selector_derivation selector.now) result }
{
    match selector {
        Selector::Dot {
            arguments: list,
            ..
        } => arguments(list),
        Selector::Qua { .. } => 0,
    }
}

#[cycle(expression)]
fn arguments(list: &[Expr]) -> u32
    ensures { Largest (λ x. Nests (argument (derivation_of x))) list.now result }
{
    let mut deepest = 0;
    for item in list {
        deepest = expression(item).max(deepest);
    }
    deepest
}

fn bounds(list: &[Bounds]) -> u32
    ensures { Largest (λ x. Nests (bounds_derivation x)) list.now result }
{
    let mut deepest = 0;
    for item in list {
        deepest = bound_pair(item).max(deepest);
    }
    deepest
}

fn bound_pair(bounds: &Bounds) -> u32
    ensures { Nests (bounds_derivation bounds.now) result }
{
    expression(&bounds.lower).max(expression(&bounds.upper))
}

fn segments(list: &[ArraySegment]) -> u32
    ensures { Largest (λ x. Nests (segment_derivation x)) list.now result }
{
    let mut deepest = 0;
    for item in list {
        deepest = bounds(&item.bounds).max(deepest);
    }
    deepest
}

fn assigned(list: &[Assigned]) -> u32
    ensures { Largest (λ x. Nests (assigned_derivation x)) list.now result }
{
    let mut deepest = 0;
    for item in list {
        deepest = expression(&item.value).max(deepest);
    }
    deepest
}

fn for_elements(list: &[ForElement]) -> u32
    ensures { Largest (λ x. Nests (for_element_derivation x)) list.now result }
{
    let mut deepest = 0;
    for item in list {
        deepest = for_element(item).max(deepest);
    }
    deepest
}

fn for_element(element: &ForElement) -> u32
    ensures { Nests (for_element_derivation element.now) result }
{
    match element {
        ForElement::Value { value } => expression(value),
        ForElement::Step {
            start,
            step,
            limit,
            ..
        } => expression(start)
            .max(expression(step))
            .max(expression(limit)),
        ForElement::While {
            value,
            condition,
            ..
        } => expression(value).max(expression(condition)),
    }
}

fn reference_elements(list: &[ReferenceElement]) -> u32
    ensures { Largest (λ x. Nests (reference_element_derivation x)) list.now result }
{
    let mut deepest = 0;
    for item in list {
        deepest = reference_element(item).max(deepest);
    }
    deepest
}

fn reference_element(element: &ReferenceElement) -> u32
    ensures { Nests (reference_element_derivation element.now) result }
{
    match element {
        ReferenceElement::Value { value } => expression(value),
        ReferenceElement::While {
            value,
            condition,
            ..
        } => expression(value).max(expression(condition)),
    }
}

fn timing_depth(timing: &Option<Timing>) -> u32
    ensures { Nests (timing_derivation timing.now) result }
{
    match timing {
        Some(timing) => time_depth(timing),
        None => 0,
    }
}

fn time_depth(timing: &Timing) -> u32
    ensures { Nests (timing_inside timing.now) result }
{
    match timing {
        Timing::At { time, .. } => expression(time),
        Timing::Delay { time, .. } => expression(time),
        Timing::Before { process, .. } => expression(process),
        Timing::After { process, .. } => expression(process),
    }
}

// A statement, which counts itself unless it is empty.
#[cycle(statement)]
fn statement(stmt: &Stmt) -> u32
    ensures { Nests (next_statement (statement_derivation stmt.now)) result }
{
    match stmt {
        Stmt::Empty { .. } => 0,
        Stmt::Block { block } => deeper(block_depth(block)),
        Stmt::PrefixedBlock { prefix, block } => {
            deeper(block_prefix(prefix).max(block_depth(block)))
        }
        Stmt::Inner { .. } => 1,
        Stmt::Call { call } => deeper(inside(call)),
        Stmt::Assignment { left, rest } => deeper(inside(left).max(assigned(rest))),
        Stmt::If {
            condition,
            then_branch,
            else_branch,
            ..
        } => deeper(
            expression(condition)
                .max(statement(then_branch))
                .max(branch(else_branch)),
        ),
        Stmt::While {
            condition,
            body,
            ..
        } => deeper(expression(condition).max(statement(body))),
        Stmt::For { elements, body, .. } => deeper(for_elements(elements).max(statement(body))),
        Stmt::ForReference { elements, body, .. } => {
            deeper(reference_elements(elements).max(statement(body)))
        }
        Stmt::Inspect {
            object,
            body,
            otherwise,
            ..
        } => deeper(
            expression(object)
                .max(statement(body))
                .max(branch(otherwise)),
        ),
        Stmt::InspectWhen {
            object,
            arms: list,
            otherwise,
            ..
        } => deeper(expression(object).max(arms(list)).max(branch(otherwise))),
        Stmt::Activation {
            process,
            timing,
            ..
        } => deeper(expression(process).max(timing_depth(timing))),
    }
}

// The statement behind `else` or `otherwise`.
#[cycle(statement)]
fn branch(stmt: &Option<Box<Stmt>>) -> u32
    ensures { Nests (branch_derivation stmt.now) result }
{
    match stmt {
        Some(stmt) => statement(stmt),
        None => 0,
    }
}

#[cycle(statement)]
fn arms(list: &[When]) -> u32
    ensures { Largest (λ x. Nests (when_derivation x)) list.now result }
{
    let mut deepest = 0;
    for item in list {
        deepest = statement(&item.body).max(deepest);
    }
    deepest
}

#[cycle(statement)]
fn block_depth(block: &Block) -> u32
    ensures { Nests (block_derivation block.now) result }
{
    declarations(&block.declarations).max(statements(&block.statements))
}

#[cycle(statement)]
fn statements(list: &[Stmt]) -> u32
    ensures { Largest (λ x. Nests (next_statement (statement_derivation x))) list.now result }
{
    let mut deepest = 0;
    for item in list {
        deepest = statement(item).max(deepest);
    }
    deepest
}

#[cycle(statement)]
fn declarations(list: &[Decl]) -> u32
    ensures { Largest (λ x. Nests (apart (declaration_derivation x))) list.now result }
{
    let mut deepest = 0;
    for item in list {
        deepest = declaration(item).max(deepest);
    }
    deepest
}

#[cycle(statement)]
fn declaration(decl: &Decl) -> u32
    ensures { Nests (apart (declaration_derivation decl.now)) result }
{
    match decl {
        Decl::Variables { .. } => 0,
        Decl::Arrays { segments: list, .. } => segments(list),
        Decl::Procedure { procedure, .. } => statement(&procedure.body),
        Decl::Class { class, .. } => statement(&class.body),
    }
}
