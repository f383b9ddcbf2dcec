//! Qualifications: the class of each reference that is declared.
ghost use Rattle.std.specs.Prelude.{◌≡◌, slice_get};
ghost use Rattle.virtual_match.specs.Qualifying.{class_denoted, class_unless, class_with_block, class_written, declaration_to, entry_to, qualified, qualified_to, qualification_faults, type_to, with_written};
ghost use Rattle.sim_scope.specs.Runs.{Runs};
ghost use Rattle.sim_scope.specs.Scopes.{entry_of as entry_spec};
ghost use Rattle.prefix_bind.specs.Prefixes.{noted};

use sim_base::{DeclNo, Rule};
use sim_scope::{
    Denotation, Entry, Fault, Formal, Qualification, Scopes, SimType, binding, class_block,
    entry_of, is_for_prefixing, lesser,
};

/// A declaration, where it is a class that is not only for prefixing.
fn class_denoted(scopes: &Scopes, denotation: Option<Denotation>) -> Option<DeclNo>
    ensures { result ≡ class_denoted scopes.now denotation }
{
    match denotation {
        Some(Denotation::Declared(declaration)) => {
            class_with_block(scopes, declaration, class_block(scopes, declaration))
        }
        Some(Denotation::Standard(_)) => None,
        None => None,
    }
}

fn class_with_block(scopes: &Scopes, class: DeclNo, block: Option<u32>) -> Option<DeclNo>
    ensures { result ≡ class_with_block scopes.now class block }
{
    match block {
        Some(block) => {
            if is_for_prefixing(scopes, block) {
                None
            } else {
                Some(class)
            }
        }
        None => None,
    }
}

/// The class that is written for references.
#[tactic(auto, unfolding(crate::specs::Qualifying::class_written))]
fn class_written(scopes: &Scopes, written: &Qualification) -> Option<DeclNo>
    ensures { result ≡ class_written scopes.now written.now }
{
    let class = &written.class;
    class_denoted(scopes, binding(scopes, class.token, class.name.as_bytes()))
}

/// The type of a result, with its class.
fn type_to(class: DeclNo, ty: Option<SimType>) -> Option<SimType>
    ensures { result ≡ type_to class ty }
{
    match ty {
        Some(_) => Some(SimType::Ref(class)),
        None => None,
    }
}

/// A declaration of references, with their class.
#[tactic(auto, unfolding(crate::specs::Qualifying::entry_to))]
fn entry_to(class: DeclNo, entry: Entry) -> Entry
    ensures { result ≡ entry_to class entry }
{
    match entry {
        Entry::Variable(_) => Entry::Variable(SimType::Ref(class)),
        Entry::Constant(_) => Entry::Constant(SimType::Ref(class)),
        Entry::Array { dimensions, .. } => Entry::Array {
            element: SimType::Ref(class),
            dimensions,
        },
        Entry::Procedure { result, block } => Entry::Procedure {
            result: type_to(class, result),
            block,
        },
        Entry::Virtual { result, own } => Entry::Virtual {
            result: type_to(class, result),
            own,
        },
        Entry::Formal(formal) => Entry::Formal(formal_to(class, formal)),
        Entry::Class { .. } => entry,
        Entry::Attribute { .. } => entry,
        Entry::Unspecified { .. } => entry,
    }
}

fn formal_to(class: DeclNo, formal: Formal) -> Formal
    ensures { result ≡ record formal { ty = type_to class formal.ty } }
{
    Formal {
        mode: formal.mode,
        kind: formal.kind,
        ty: type_to(class, formal.ty),
    }
}

/// The class of the references that a declaration declares becomes known.
fn set_class(scopes: &mut Scopes, declaration: DeclNo, class: DeclNo)
    ensures { scopes.new ≡ declaration_to scopes.old declaration class (entry_spec scopes.old declaration) }
{
    match entry_of(scopes, declaration) {
        Some(entry) => scopes.set_entry(declaration.0, entry_to(class, entry)),
        None => (),
    }
}

fn qualify_declaration(scopes: &mut Scopes, declaration: DeclNo, class: Option<DeclNo>)
    ensures { scopes.new ≡ qualified_to scopes.old declaration class }
{
    match class {
        Some(class) => set_class(scopes, declaration, class),
        None => (),
    }
}

/// The class becomes known that is written for the references of a declaration.
#[tactic(auto, unfolding(crate::specs::Qualifying::with_qualification))]
fn qualify_written(scopes: &mut Scopes, number: usize)
    ensures { scopes.new ≡ with_written scopes.old (slice_get scopes.old.qualifications number) }
{
    match scopes.qualifications().get(number) {
        Some(written) => {
            let declaration = written.declaration;
            let class = class_written(scopes, written);
            qualify_declaration(scopes, declaration, class);
        }
        None => (),
    }
}

/// The class of each reference that is declared becomes known.
pub fn qualify(scopes: &mut Scopes)
    ensures { scopes.new ≡ qualified scopes.old }
{
    for number in 0..scopes.qualifications().len() {
        qualify_written(scopes, number);
    }
}

/// The lesser of the faults so far and that of a qualification (`S7`), if it has one.
#[tactic(auto, unfolding(crate::specs::Qualifying::qualification_faults, prefix_bind::specs::Prefixes::noted, sim_scope::specs::Runs::Runs, sim_scope::specs::Runs::run))]
pub(crate) fn with_qualification(
    scopes: &Scopes,
    least: Option<Fault>,
    written: &Qualification,
) -> Option<Fault>
    ensures { Runs noted least result (qualification_faults scopes.now written.now) }
{
    match class_written(scopes, written) {
        Some(_) => least,
        None => lesser(
            least,
            Fault {
                token: written.class.token,
                rule: Rule::QualificationIsNoClass,
            },
        ),
    }
}
