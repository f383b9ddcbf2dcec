//! Connections: the object, and the classes of the arms.
ghost use Rattle.std.specs.Prelude.{◌≡◌};
ghost use Rattle.sim_scope.specs.Judged.{Judges};
ghost use Rattle.sim_scope.specs.Runs.{each};
ghost use Rattle.sim_scope.specs.Statements.{arm_connected, arm_fits, class_connected, connected_by, needs_reference};
ghost use Rattle.sim_static.specs.StatementWalk.{Tells, of_arm_class, of_inspect, of_inspect_when};

use sim_base::{Rule, TokenNo};
use sim_scope::{
    Denotation, Extent, Found, Occurrence, Scopes, Side, SimType, class_block, has_classes,
};
use sim_tree::{Expr, Identifier, When};
use sim_types::{block_of_class, class_fits, class_named, is_reference, operand};

/// `S17`: no level of a class that is connected declares a class. This is broken at `inspect`.
#[tactic(auto, unfolding(sim_scope::specs::Assignments::fine, sim_scope::specs::Assignments::wrong, sim_scope::specs::Judged::gives, sim_scope::specs::Judged::telling, sim_scope::specs::Runs::run))]
fn class_connected(scopes: &Scopes, found: &mut Found, token: TokenNo, block: Option<u32>)
    ensures { Judges found.old found.new result (class_connected scopes.now token.0 block) }
{
    if let Some(block) = block {
        if has_classes(scopes, block) {
            found.note(token, Rule::ClassWithClasses);
        }
    }
}

/// The object of a connection with `do`: a reference, of its qualification.
#[tactic(auto, unfolding(sim_scope::specs::Statements::connected_by, sim_scope::specs::Assignments::fine, sim_scope::specs::Assignments::wrong, sim_scope::specs::Judged::gives, sim_scope::specs::Judged::telling, sim_scope::specs::Runs::run))]
fn connected_by(scopes: &Scopes, found: &mut Found, token: TokenNo, object: Side)
    ensures { Judges found.old found.new result (connected_by scopes.now token.0 object) }
{
    match object.ty {
        Some(SimType::Ref(class)) => {
            class_connected(scopes, found, token, class_block(scopes, class))
        }
        Some(SimType::NoneType) => {}
        Some(_) => found.note(object.first, Rule::WrongType),
        None => {}
    }
}

/// A connection with `do`.
#[tactic(auto, using(crate::proofs::Tellings::tell_object))]
pub(crate) fn inspect(scopes: &Scopes, found: &mut Found, token: TokenNo, object: &Expr)
    ensures { Tells found.old found.new (of_inspect scopes.now token.0 object.now) }
{
    let value = operand(scopes, Extent::Statement, found, object);
    connected_by(scopes, found, token, value);
}

/// The class of an arm has no class at any level, whatever is inspected.
#[tactic(auto, unfolding(sim_scope::specs::Assignments::fine, sim_scope::specs::Judged::gives, sim_scope::specs::Runs::run))]
fn arm_connected(scopes: &Scopes, found: &mut Found, token: TokenNo, class: Option<Denotation>)
    ensures { Judges found.old found.new result (arm_connected scopes.now token.0 class) }
{
    if let Some(class) = class {
        class_connected(scopes, found, token, block_of_class(scopes, class));
    }
}

/// The class of an arm lies on one prefix chain with the object (`S16`), and is not only for prefixing (`S21`).
fn arm_fits(
    scopes: &Scopes,
    found: &mut Found,
    token: TokenNo,
    object: Side,
    name: &Identifier,
    class: Occurrence,
)
    ensures { Judges found.old found.new result (arm_fits scopes.now token.0 object name.now class) }
{
    class_fits(scopes, found, name.token, class.denotes, object.ty);
    arm_connected(scopes, found, token, class.denotes);
}

/// The object of a connection with `when` is a reference.
#[tactic(auto, unfolding(sim_scope::specs::Statements::needs_reference, sim_scope::specs::Assignments::fine, sim_scope::specs::Assignments::wrong, sim_scope::specs::Judged::gives, sim_scope::specs::Judged::telling, sim_scope::specs::Runs::run))]
fn needs_reference(found: &mut Found, object: Side)
    ensures { Judges found.old found.new result (needs_reference object) }
{
    if let Some(ty) = object.ty {
        if !is_reference(ty) {
            found.note(object.first, Rule::WrongType);
        }
    }
}

/// The class of an arm.
#[tactic(auto, using(crate::proofs::Tellings::tell_arm_class))]
fn arm_class(scopes: &Scopes, found: &mut Found, token: TokenNo, object: Side, arm: &When)
    ensures { Tells found.old found.new (of_arm_class scopes.now token.0 object arm.now) }
{
    let class = class_named(scopes, Extent::Statement, found, &arm.class);
    arm_fits(scopes, found, token, object, &arm.class, class);
}

#[tactic(auto, using(crate::proofs::Tellings::loops))]
fn arm_classes(scopes: &Scopes, found: &mut Found, token: TokenNo, object: Side, list: &[When])
    ensures { Tells found.old found.new (each (of_arm_class scopes.now token.0 object) list.now) }
{
    for item in list {
        arm_class(scopes, found, token, object, item);
    }
}

/// A connection with `when`.
#[tactic(auto, using(crate::proofs::Tellings::tell_classes))]
pub(crate) fn inspect_when(
    scopes: &Scopes,
    found: &mut Found,
    token: TokenNo,
    object: &Expr,
    list: &[When],
)
    ensures { Tells found.old found.new (of_inspect_when scopes.now token.0 object.now list.now) }
{
    let value = operand(scopes, Extent::Statement, found, object);
    needs_reference(found, value);
    arm_classes(scopes, found, token, value, list);
}
