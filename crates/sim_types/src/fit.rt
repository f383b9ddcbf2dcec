//! How types fit operators.
ghost use Rattle.std.specs.Prelude.{◌≡◌};
ghost use Rattle.sim_scope.specs.Operators.{alike, both_are, common_type, is_reference, is_same, misfit_of, operands_fit, ordered, reference_misfit, reference_to, relates, wrong_type_unless};

use sim_base::{DeclNo, Rule};
use sim_scope::{Fit, Scopes, SimType, on_one_chain, shared_class};
use sim_tree::{Operator, Relation};

/// Whether two types are the same.
pub fn is_same(left: SimType, right: SimType) -> bool
    ensures { result ≡ is_same left right }
{
    match (left, right) {
        (SimType::Integer, SimType::Integer) => true,
        (SimType::Boolean, SimType::Boolean) => true,
        (SimType::Character, SimType::Character) => true,
        (SimType::Text, SimType::Text) => true,
        (SimType::Ref(left), SimType::Ref(right)) => left == right,
        (SimType::NoneType, SimType::NoneType) => true,
        _ => false,
    }
}

fn both_are(wanted: SimType, result_type: SimType, left: SimType, right: SimType) -> Fit
    ensures { result ≡ both_are wanted result_type left right }
{
    if !is_same(left, wanted) {
        Fit::FirstWrong
    } else if is_same(right, wanted) {
        Fit::Fits(result_type)
    } else {
        Fit::SecondWrong
    }
}

fn ordered(left: SimType, right: SimType) -> Fit
    ensures { result ≡ ordered left right }
{
    match left {
        SimType::Integer => both_are(SimType::Integer, SimType::Boolean, SimType::Integer, right),
        SimType::Character => {
            both_are(
                SimType::Character,
                SimType::Boolean,
                SimType::Character,
                right,
            )
        }
        SimType::Text => both_are(SimType::Text, SimType::Boolean, SimType::Text, right),
        _ => Fit::FirstWrong,
    }
}

/// Whether a type is one of references, or that of `none`.
pub fn is_reference(ty: SimType) -> bool
    ensures { result ≡ is_reference ty }
{
    match ty {
        SimType::Ref(_) => true,
        SimType::NoneType => true,
        _ => false,
    }
}

fn alike(left: SimType, right: SimType) -> Fit
    ensures { result ≡ alike left right }
{
    match left {
        SimType::Text => both_are(SimType::Text, SimType::Boolean, SimType::Text, right),
        _ => {
            if !is_reference(left) {
                Fit::FirstWrong
            } else if is_reference(right) {
                Fit::Fits(SimType::Boolean)
            } else {
                Fit::SecondWrong
            }
        }
    }
}

fn relates(relation: Relation, left: SimType, right: SimType) -> Fit
    ensures { result ≡ relates relation left right }
{
    match relation {
        Relation::SameReference => alike(left, right),
        Relation::OtherReference => alike(left, right),
        _ => ordered(left, right),
    }
}

/// How the types of two operands fit an operator.
#[tactic(auto, unfolding(sim_scope::specs::Operators::operands_fit))]
pub(crate) fn operands_fit(operator: Operator, left: SimType, right: SimType) -> Fit
    ensures { result ≡ operands_fit operator left right }
{
    match operator {
        Operator::Relate(relation) => relates(relation, left, right),
        Operator::Concatenate => both_are(SimType::Text, SimType::Text, left, right),
        Operator::Add(_) => both_are(SimType::Integer, SimType::Integer, left, right),
        Operator::Multiply(_) => both_are(SimType::Integer, SimType::Integer, left, right),
        Operator::Power => both_are(SimType::Integer, SimType::Integer, left, right),
        _ => both_are(SimType::Boolean, SimType::Boolean, left, right),
    }
}

fn reference_to(class: Option<DeclNo>) -> Option<SimType>
    ensures { result ≡ reference_to class }
{
    match class {
        Some(class) => Some(SimType::Ref(class)),
        None => None,
    }
}

/// The common type of two arms, if they have one.
#[tactic(auto, unfolding(sim_scope::specs::Operators::common_type))]
pub(crate) fn common_type(scopes: &Scopes, first: SimType, second: SimType) -> Option<SimType>
    ensures { result ≡ common_type scopes.now first second }
{
    match (first, second) {
        (SimType::Ref(first), SimType::Ref(second)) => {
            reference_to(shared_class(scopes, first, second))
        }
        (SimType::Ref(_), SimType::NoneType) => Some(first),
        (SimType::NoneType, SimType::Ref(_)) => Some(second),
        _ => {
            if is_same(first, second) {
                Some(first)
            } else {
                None
            }
        }
    }
}

fn wrong_type_unless(fits: bool) -> Option<Rule>
    ensures { result ≡ wrong_type_unless fits }
{
    if fits { None } else { Some(Rule::WrongType) }
}

/// The rule that a value breaks which goes to a place for references of a class.
fn reference_misfit(scopes: &Scopes, class: DeclNo, given: SimType) -> Option<Rule>
    ensures { result ≡ reference_misfit scopes.now class given }
{
    match given {
        SimType::Ref(given) => {
            if on_one_chain(scopes, class, given) {
                None
            } else {
                Some(Rule::DifferentChains)
            }
        }
        SimType::NoneType => None,
        _ => Some(Rule::WrongType),
    }
}

/// The rule that a value breaks which goes to a place of another type: `S13`, and `S16` where both are references. The value stands in an
/// assignment or as an actual parameter; the rule is told at its first token.
#[tactic(auto, unfolding(sim_scope::specs::Operators::misfit_of))]
pub fn misfit_of(scopes: &Scopes, wanted: SimType, given: SimType) -> Option<Rule>
    ensures { result ≡ misfit_of scopes.now wanted given }
{
    match wanted {
        SimType::Ref(class) => reference_misfit(scopes, class, given),
        SimType::NoneType => wrong_type_unless(is_reference(given)),
        _ => wrong_type_unless(is_same(wanted, given)),
    }
}
