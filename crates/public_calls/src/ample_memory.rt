// Calls that take memory, with ample of it, beside those that every source makes. The declarations of the program are numbered from 0.

ghost use Rattle.std.specs.Prelude.{◌≡◌, true};
ghost use Rattle.sim_expr_parser.specs.Parsing.{IsSource};

use command_line::Command;
use inspect_types::connect;
use param_modes::{fits, heading_of};
use prefix_bind::levels;
use sim_base::{ByteString, DeclNo, Token, TokenKind, TokenNo};
use sim_driver::bind;
use sim_expr_parser::{kind_at_token, parse_expr};
use sim_lexer::lex;
use sim_scope::{Scopes, SimType};
use sim_tree::Expr;
use sim_types::type_of;
use std::alloc::Global;

// Classes 0 and 1, and procedure 2.
const PROGRAM: &[u8] = b"begin class a;; a class b;; procedure p(x); integer x;; end";

// Whether tokens are those of an expression alone.
fn is_source(tokens: &[Token]) -> bool
    ensures { result ≡ true → IsSource tokens.now }
{
    let count = tokens.len();
    if count < 1 {
        return false;
    }
    if count > 1000 {
        return false;
    }
    kind_at_token(tokens, count - 1) == TokenKind::EndOfSource
}

// The expression of a source; none where it is no expression.
fn expression(alloc: Global, source: &[u8]) -> Option<Expr> {
    let tokens = lex(alloc, source).ok()?;
    if !is_source(&tokens) {
        return None;
    }
    let (expr, _) = parse_expr(alloc, &tokens, 0, 0).ok()?;
    Some(expr)
}

fn class_has_levels(alloc: Global, scopes: &Scopes) -> bool {
    match levels(alloc, scopes, DeclNo(1)) {
        Ok(levels) => levels.as_slice() == [DeclNo(0), DeclNo(1)].as_slice(),
        Err(_) => false,
    }
}

fn class_connects(alloc: Global, scopes: &Scopes) -> bool {
    match connect(alloc, scopes, DeclNo(1), TokenNo(0)) {
        Ok(scope) => scope.visible.is_empty(),
        Err(_) => false,
    }
}

fn first_is_integer(alloc: Global, scopes: &Scopes, actuals: &[Expr]) -> bool {
    match actuals.first() {
        Some(actual) => type_of(alloc, scopes, actual) == Ok(SimType::Integer),
        None => false,
    }
}

fn actuals_fit(alloc: Global, scopes: &Scopes, actuals: &[Expr]) -> bool {
    match heading_of(alloc, scopes, DeclNo(2)) {
        Ok(Some(heading)) => fits(alloc, &heading, TokenNo(0), actuals, scopes).is_ok(),
        _ => false,
    }
}

fn has_an_integer_that_fits(alloc: Global, scopes: &Scopes, call: &Expr) -> bool {
    match call {
        Expr::Named { arguments, .. } => {
            first_is_integer(alloc, scopes, arguments) && actuals_fit(alloc, scopes, arguments)
        }
        _ => false,
    }
}

fn call_fits(alloc: Global, scopes: &Scopes) -> bool {
    match expression(alloc, b"p(1)") {
        Some(call) => has_an_integer_that_fits(alloc, scopes, &call),
        None => false,
    }
}

#[test]
fn calls_on_declarations(rt: HostRuntime) {
    let alloc = rt.alloc();
    match bind(alloc, Command::Check, PROGRAM) {
        Ok(bound) => {
            assert!(rt; class_has_levels(alloc, &bound.scopes));
            assert!(rt; class_connects(alloc, &bound.scopes));
            assert!(rt; call_fits(alloc, &bound.scopes));
        }
        Err(_) => assert!(rt; false, "the program breaks no rule"),
    }
}

#[test]
fn bytes_are_copied(rt: HostRuntime) {
    let bytes = Vec::from_slice(rt.alloc(), b"queue").expect(&rt, "memory is ample");
    let string = ByteString::new(bytes);
    let copy = string.copy(rt.alloc()).expect(&rt, "memory is ample");
    assert!(rt; copy.as_bytes() == b"queue".as_slice());
}
