//! Where variables lie.
ghost use Rattle.codegen_expr.specs.Emit.{WritesNamedPlace, WritesPlace, WritesSeenPlace, WritesUnconnectedPlace};
ghost use Rattle.codegen_expr.specs.Known.{Known};
ghost use Rattle.codegen_expr.specs.PlaceAlone.{WritesPlaceAlone};
ghost use Rattle.std.specs.Prelude.{OnOk};

use crate::calls::{emit_element, emit_named_element};
use crate::cells::Cells;
use crate::classes::connection_at;
use crate::dots::moves_at;
use crate::draft::Draft;
use crate::leaves::{emit_cell_place, emit_connected, emit_image};
use crate::lookups::denoted;
use crate::objects::emit_place_behind;
use crate::operators::{Seen, seen_of};
use crate::selectors::{emit_place_taken, emit_start, emit_steps};
use crate::spot::Spot;
use crate::thunks::emit_name_place;
use sim_base::{DeclNo, TokenNo};
use sim_scope::{Bound, Denotation, entry_of};
use sim_tree::{Expr, Identifier};
use std::alloc::AllocError;

/// Where the variable lies that a declared identifier with subscripts is, with the class of a reference there. The token is that of the
/// identifier.
#[cycle(emit)]
#[tactic(auto, using(crate::proofs::Behind::lies))]
fn emit_seen_place(
    bound: &Bound,
    cells: &Cells,
    spot: Spot,
    draft: &mut Draft,
    depth: u32,
    class: u32,
    token: TokenNo,
    declaration: DeclNo,
    seen: Seen,
    subscripts: &[Expr],
) -> Result<(), AllocError>
    requires cells { Known bound.now cells.now }
    ensures { OnOk result (WritesSeenPlace bound.now spot depth draft.old draft.new class token declaration seen subscripts.now) }
{
    match seen {
        Seen::Variable => {
            if subscripts.len() == 0 {
                return emit_cell_place(bound, cells, spot, draft, depth, class, declaration);
            }
            draft.give_up();
            Ok(())
        }
        Seen::Array => {
            if subscripts.len() == 0 {
                draft.give_up();
                return Ok(());
            }
            emit_element(
                bound,
                cells,
                spot,
                draft,
                depth,
                class,
                token,
                declaration,
                subscripts,
            )
        }
        Seen::Constant => {
            draft.give_up();
            Ok(())
        }
        Seen::Call(_) => {
            draft.give_up();
            Ok(())
        }
        Seen::Virtual => {
            draft.give_up();
            Ok(())
        }
        Seen::Named => {
            if subscripts.len() == 0 {
                return emit_name_place(bound, cells, spot, draft, depth, true, token, declaration);
            }
            draft.give_up();
            Ok(())
        }
        Seen::NamedArray => {
            if subscripts.len() == 0 {
                draft.give_up();
                return Ok(());
            }
            emit_named_element(
                bound,
                cells,
                spot,
                draft,
                depth,
                class,
                token,
                declaration,
                subscripts,
            )
        }
        Seen::Procedure(_) => {
            draft.give_up();
            Ok(())
        }
        Seen::Nothing => {
            draft.give_up();
            Ok(())
        }
    }
}

/// Where the variable lies that an identifier with subscripts is, if it is not seen through a connection.
#[cycle(emit)]
#[tactic(auto, using(crate::proofs::Behind::lies))]
fn emit_unconnected_place(
    bound: &Bound,
    cells: &Cells,
    spot: Spot,
    draft: &mut Draft,
    depth: u32,
    class: u32,
    name: &Identifier,
    subscripts: &[Expr],
) -> Result<(), AllocError>
    requires cells { Known bound.now cells.now }
    ensures { OnOk result (WritesUnconnectedPlace bound.now spot depth draft.old draft.new class name.now subscripts.now) }
{
    match denoted(bound, name.token) {
        Some(Denotation::Declared(declaration)) => {
            let seen = seen_of(entry_of(&bound.scopes, declaration));
            emit_seen_place(
                bound,
                cells,
                spot,
                draft,
                depth,
                class,
                name.token,
                declaration,
                seen,
                subscripts,
            )
        }
        Some(Denotation::Standard(_)) => emit_image(spot, draft, depth, 1),
        None => emit_image(spot, draft, depth, 1),
    }
}

/// Where the variable lies that an identifier with subscripts is, with the class of a reference there.
#[cycle(emit)]
#[tactic(auto, using(crate::proofs::Behind::lies))]
pub fn emit_named_place(
    bound: &Bound,
    cells: &Cells,
    spot: Spot,
    draft: &mut Draft,
    depth: u32,
    class: u32,
    name: &Identifier,
    subscripts: &[Expr],
) -> Result<(), AllocError>
    requires cells { Known bound.now cells.now }
    ensures { OnOk result (WritesNamedPlace bound.now spot depth draft.old draft.new class name.now subscripts.now) }
{
    match connection_at(bound, cells, name.token) {
        Some(connection) => {
            emit_connected(bound, cells, spot, draft, depth, connection)?;
            emit_place_behind(
                bound, cells, spot, draft, depth, class, name.token, subscripts,
            )
        }
        None => emit_unconnected_place(bound, cells, spot, draft, depth, class, name, subscripts),
    }
}

/// Where a variable lies, with the class of a reference there, or 0.
#[cycle(emit)]
#[tactic(auto, using(crate::proofs::Places::places))]
pub fn emit_place(
    bound: &Bound,
    cells: &Cells,
    spot: Spot,
    draft: &mut Draft,
    depth: u32,
    class: u32,
    expr: &Expr,
) -> Result<(), AllocError>
    requires cells { Known bound.now cells.now }
    ensures { OnOk result (WritesPlace bound.now spot depth draft.old draft.new class expr.now) }
{
    match expr {
        Expr::Named { name, arguments } => {
            emit_named_place(bound, cells, spot, draft, depth, class, name, arguments)
        }
        Expr::Parentheses { .. } => {
            draft.give_up();
            Ok(())
        }
        Expr::Postfix { primary, rest } => {
            if rest.len() == 0 {
                return emit_place(bound, cells, spot, draft, depth, class, primary);
            }
            let moves = moves_at(bound, rest, 0);
            let object = emit_start(bound, cells, spot, draft, depth, moves, primary)?;
            let taken = emit_steps(bound, cells, spot, draft, depth, object, rest)?;
            let last = &rest[rest.len() - 1];
            emit_place_taken(bound, cells, spot, draft, depth, class, taken, last)
        }
        Expr::OrElse { first, rest } => {
            emit_place_alone(bound, cells, spot, draft, depth, class, rest.len(), first)
        }
        Expr::AndThen { first, rest } => {
            emit_place_alone(bound, cells, spot, draft, depth, class, rest.len(), first)
        }
        Expr::Eqv { first, rest } => {
            emit_place_alone(bound, cells, spot, draft, depth, class, rest.len(), first)
        }
        Expr::Imp { first, rest } => {
            emit_place_alone(bound, cells, spot, draft, depth, class, rest.len(), first)
        }
        Expr::Or { first, rest } => {
            emit_place_alone(bound, cells, spot, draft, depth, class, rest.len(), first)
        }
        Expr::And { first, rest } => {
            emit_place_alone(bound, cells, spot, draft, depth, class, rest.len(), first)
        }
        Expr::Not { tokens, operand } => {
            emit_place_alone(
                bound,
                cells,
                spot,
                draft,
                depth,
                class,
                tokens.len(),
                operand,
            )
        }
        Expr::Concatenation { first, rest } => {
            emit_place_alone(bound, cells, spot, draft, depth, class, rest.len(), first)
        }
        Expr::Sum { sign, first, rest } => match sign {
            Some(_) => {
                draft.give_up();
                Ok(())
            }
            None => emit_place_alone(bound, cells, spot, draft, depth, class, rest.len(), first),
        },
        Expr::Product { first, rest } => {
            emit_place_alone(bound, cells, spot, draft, depth, class, rest.len(), first)
        }
        Expr::Power { first, rest } => {
            emit_place_alone(bound, cells, spot, draft, depth, class, rest.len(), first)
        }
        Expr::If { .. } => {
            draft.give_up();
            Ok(())
        }
        Expr::Related { .. } => {
            draft.give_up();
            Ok(())
        }
        Expr::Member { .. } => {
            draft.give_up();
            Ok(())
        }
        Expr::Integer { .. } => {
            draft.give_up();
            Ok(())
        }
        Expr::Character { .. } => {
            draft.give_up();
            Ok(())
        }
        Expr::Text { .. } => {
            draft.give_up();
            Ok(())
        }
        Expr::True { .. } => {
            draft.give_up();
            Ok(())
        }
        Expr::False { .. } => {
            draft.give_up();
            Ok(())
        }
        Expr::NoObject { .. } => {
            draft.give_up();
            Ok(())
        }
        Expr::Notext { .. } => {
            draft.give_up();
            Ok(())
        }
        Expr::This { .. } => {
            draft.give_up();
            Ok(())
        }
        Expr::New { .. } => {
            draft.give_up();
            Ok(())
        }
    }
}

/// Where a variable lies that is an operand, if so many others stand beside it: with others it is none.
#[cycle(emit)]
#[tactic(auto, using(crate::proofs::Places::alone))]
fn emit_place_alone(
    bound: &Bound,
    cells: &Cells,
    spot: Spot,
    draft: &mut Draft,
    depth: u32,
    class: u32,
    others: usize,
    operand: &Expr,
) -> Result<(), AllocError>
    requires cells { Known bound.now cells.now }
    ensures { OnOk result (WritesPlaceAlone bound.now spot depth draft.old draft.new class others operand.now) }
{
    if others == 0 {
        return emit_place(bound, cells, spot, draft, depth, class, operand);
    }
    draft.give_up();
    Ok(())
}
