//! Virtual procedures and their matches.
ghost use Rattle.std.specs.Prelude.{◌≡◌, ◌||◌, length, slice_get};
ghost use Rattle.sim_scope.specs.Actuals.{result_fits, result_in, result_matches};
ghost use Rattle.sim_scope.specs.Operators.{is_same};
ghost use Rattle.sim_scope.specs.Runs.{Runs};
ghost use Rattle.sim_scope.specs.Scopes.{entry_of as entry_spec, is_virtual};
ghost use Rattle.prefix_bind.specs.Prefixes.{least_of, noted};
ghost use Rattle.virtual_match.specs.Matching.{Matches, all_match_faults, declared_along, fits_virtual, is_procedure, is_unknown, level_for, match_at, match_fault, match_faults, match_in, match_of, match_of_declared, name_of, results_fit, virtual_for, virtual_from};

use prefix_bind::noted_if;
use sim_base::{DeclNo, Rule};
use sim_scope::{
    Declaration, Entry, Fault, Scopes, SimType, StaticRefusal, base, class_block, entry_of,
    first_level, is_in_chain, lookup, virtual_of,
};

/// What a declaration at a level gives as the match.
fn match_at(scopes: &Scopes, declaration: DeclNo) -> Option<DeclNo>
    ensures { result ≡ match_at (entry_spec scopes.now declaration) declaration }
{
    match entry_of(scopes, declaration) {
        Some(Entry::Virtual { own, .. }) => own,
        Some(Entry::Variable(_)) => Some(declaration),
        Some(Entry::Constant(_)) => Some(declaration),
        Some(Entry::Array { .. }) => Some(declaration),
        Some(Entry::Procedure { .. }) => Some(declaration),
        Some(Entry::Class { .. }) => Some(declaration),
        Some(Entry::Formal(_)) => Some(declaration),
        Some(Entry::Attribute { .. }) => Some(declaration),
        Some(Entry::Unspecified { .. }) => Some(declaration),
        None => Some(declaration),
    }
}

/// What the innermost level declares that declares a name.
fn declared_along(scopes: &Scopes, block: u32, name: &[u8]) -> Option<DeclNo>
    ensures { result ≡ declared_along scopes.now name.now block }
{
    first_level(scopes, block, |b| lookup(scopes, b, name))
}

fn match_of_declared(scopes: &Scopes, declaration: Option<DeclNo>) -> Option<DeclNo>
    ensures { result ≡ match_of_declared scopes.now declaration }
{
    match_at(scopes, declaration?)
}

/// The match of a name in the levels of a class or a prefixed block.
pub fn match_in(scopes: &Scopes, name: &[u8], block: Option<u32>) -> Option<DeclNo>
    ensures { result ≡ match_in scopes.now name.now block }
{
    match block {
        Some(block) => match_of_declared(scopes, declared_along(scopes, block, name)),
        None => None,
    }
}

/// What a declaration is called.
#[tactic(auto, unfolding(crate::specs::Matching::name_of))]
pub fn name_of(scopes: &Scopes, declaration: DeclNo) -> &[u8]
    ensures { result.now ≡ name_of scopes.now declaration }
{
    match scopes.declarations().get(declaration.0 as usize) {
        Some(row) => row.name.as_bytes(),
        None => &[],
    }
}

/// The match of a virtual in a class: the procedure of the innermost level, at or inside the virtual's, that declares one. There is none exactly
/// where no such level does. A level of the class declares the virtual.
#[tactic(auto, unfolding(crate::specs::Matching::match_of))]
pub fn match_of(scopes: &Scopes, class: DeclNo, virt: DeclNo) -> Option<DeclNo>
    ensures { result ≡ match_of scopes.now class virt }
{
    match_in(scopes, name_of(scopes, virt), class_block(scopes, class))
}

fn is_virtual(entry: Entry) -> bool
    ensures { result ≡ is_virtual entry }
{
    match entry {
        Entry::Virtual { .. } => true,
        Entry::Variable(_) => false,
        Entry::Constant(_) => false,
        Entry::Array { .. } => false,
        Entry::Procedure { .. } => false,
        Entry::Class { .. } => false,
        Entry::Formal(_) => false,
        Entry::Attribute { .. } => false,
        Entry::Unspecified { .. } => false,
    }
}

fn is_procedure(entry: Entry) -> bool
    ensures { result ≡ is_procedure entry }
{
    match entry {
        Entry::Procedure { .. } => true,
        Entry::Variable(_) => false,
        Entry::Constant(_) => false,
        Entry::Array { .. } => false,
        Entry::Class { .. } => false,
        Entry::Virtual { .. } => false,
        Entry::Formal(_) => false,
        Entry::Attribute { .. } => false,
        Entry::Unspecified { .. } => false,
    }
}

/// The innermost level whose virtual a declaration may match.
fn level_for(scopes: &Scopes, row: &Declaration) -> Option<u32>
    ensures { result ≡ level_for scopes.now row.now }
{
    if is_virtual(row.entry) {
        base(scopes, row.block)
    } else {
        Some(row.block)
    }
}

fn virtual_from(scopes: &Scopes, name: &[u8], block: Option<u32>) -> Option<DeclNo>
    ensures { result ≡ virtual_from scopes.now name.now block }
{
    match block {
        Some(block) => virtual_of(scopes, block, name),
        None => None,
    }
}

/// The virtual whose match a declaration is to be.
#[tactic(auto, unfolding(crate::specs::Matching::virtual_for))]
pub fn virtual_for(scopes: &Scopes, row: &Declaration) -> Option<DeclNo>
    ensures { result ≡ virtual_for scopes.now row.now }
{
    virtual_from(scopes, row.name.as_bytes(), level_for(scopes, row))
}

/// The type of the result of what is declared.
fn result_in(entry: Option<Entry>) -> Option<SimType>
    ensures { result ≡ result_in entry }
{
    match entry {
        Some(Entry::Procedure { result, .. }) => result,
        Some(Entry::Virtual { result, .. }) => result,
        Some(Entry::Formal(formal)) => formal.ty,
        Some(Entry::Attribute { result, .. }) => result,
        Some(Entry::Variable(_)) => None,
        Some(Entry::Constant(_)) => None,
        Some(Entry::Array { .. }) => None,
        Some(Entry::Class { .. }) => None,
        Some(Entry::Unspecified { .. }) => None,
        None => None,
    }
}

/// Whether two types that are no references are the same.
fn is_same(first: SimType, second: SimType) -> bool
    ensures { result ≡ is_same first second }
{
    first == second
}

/// Whether a result is of the type that is wanted. A reference may be of a subclass.
fn result_fits(scopes: &Scopes, wanted: SimType, given: SimType) -> bool
    ensures { result ≡ result_fits scopes.now wanted given }
{
    match (wanted, given) {
        (SimType::Ref(wanted), SimType::Ref(given)) => is_in_chain(scopes, given, wanted),
        _ => is_same(wanted, given),
    }
}

fn result_matches(scopes: &Scopes, wanted: Option<SimType>, given: Option<SimType>) -> bool
    ensures { result ≡ result_matches scopes.now wanted given }
{
    match (wanted, given) {
        (Some(wanted), Some(given)) => result_fits(scopes, wanted, given),
        (None, None) => true,
        (None, Some(_)) => false,
        (Some(_), None) => false,
    }
}

/// Whether a type is that of references to a class which is not known.
fn is_unknown(ty: Option<SimType>) -> bool
    ensures { result ≡ is_unknown ty }
{
    match ty {
        Some(SimType::NoneType) => true,
        _ => false,
    }
}

/// Whether a result is of the type that is wanted, where both are known.
fn results_fit(scopes: &Scopes, wanted: Option<SimType>, given: Option<SimType>) -> bool
    ensures { result ≡ results_fit scopes.now wanted given }
{
    is_unknown(wanted) || is_unknown(given) || result_matches(scopes, wanted, given)
}

/// Whether a declaration is a procedure with a result that fits its virtual.
fn fits_virtual(scopes: &Scopes, entry: Entry, wanted: Option<Entry>) -> bool
    ensures { result ≡ fits_virtual scopes.now entry wanted }
{
    match entry {
        Entry::Procedure { result, .. } => results_fit(scopes, result_in(wanted), result),
        Entry::Variable(_) => false,
        Entry::Constant(_) => false,
        Entry::Array { .. } => false,
        Entry::Class { .. } => false,
        Entry::Virtual { .. } => false,
        Entry::Formal(_) => false,
        Entry::Attribute { .. } => false,
        Entry::Unspecified { .. } => false,
    }
}

/// The lesser of the faults so far and that of a declaration which does not fit its virtual.
#[tactic(auto, unfolding(sim_scope::specs::Runs::Runs, sim_scope::specs::Runs::run))]
fn with_match(
    scopes: &Scopes,
    least: Option<Fault>,
    row: &Declaration,
    wanted: Option<DeclNo>,
) -> Option<Fault>
    ensures { Runs noted least result (match_fault scopes.now row.now wanted) }
{
    match wanted {
        Some(wanted) => {
            let fits = fits_virtual(scopes, row.entry, entry_of(scopes, wanted));
            noted_if(least, !fits, row.token, Rule::MatchDoesNotFit)
        }
        None => least,
    }
}

/// The lesser of the faults so far and that of a declaration (`S8`), if it has one.
#[tactic(auto, unfolding(crate::specs::Matching::match_faults, sim_scope::specs::Runs::Runs, sim_scope::specs::Runs::run))]
pub(crate) fn with_declaration(
    scopes: &Scopes,
    least: Option<Fault>,
    row: &Declaration,
) -> Option<Fault>
    ensures { Runs noted least result (match_faults scopes.now row.now) }
{
    if row.listed || is_procedure(row.entry) {
        with_match(scopes, least, row, virtual_for(scopes, row))
    } else {
        least
    }
}

/// The lesser of the faults so far and those of all declarations.
#[tactic(auto, using(crate::proofs::Rows::rows))]
pub(crate) fn with_declarations(scopes: &Scopes, least: Option<Fault>) -> Option<Fault>
    ensures { Runs noted least result (all_match_faults scopes.now) }
{
    let mut least = least;
    for row in scopes.declarations() {
        least = with_declaration(scopes, least, row);
    }
    least
}

/// Whether each declaration at the level of a virtual, or inside, that has its identifier fits it (`S8`).
#[tactic(auto, unfolding(prefix_bind::specs::Prefixes::least_of, sim_scope::specs::Runs::Runs))]
pub fn matches(scopes: &Scopes) -> Result<(), StaticRefusal>
    ensures { Matches scopes.now result }
{
    match with_declarations(scopes, None) {
        Some(fault) => Err(StaticRefusal::Broken {
            rule: fault.rule,
            token: fault.token,
        }),
        None => Ok(()),
    }
}
