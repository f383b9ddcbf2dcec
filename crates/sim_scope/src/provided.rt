//! What `simset` and `simulation` declare: standard classes, and attributes.
ghost use Rattle.std.specs.Prelude.{◌≡◌};
ghost use Rattle.sim_scope.specs.Standard.{class_owning, class_typed, is_provided};

use crate::types::{StandardClass, StandardPrefix};
use sim_values::{Owner, StandardType};

/// The classes that `simset` declares.
pub(crate) static CLASSES_OF_SETS: [StandardClass; 3] = [
    StandardClass::Linkage,
    StandardClass::Link,
    StandardClass::Head,
];

/// The classes that `simulation` declares.
pub(crate) static CLASSES_OF_SIMULATION: [StandardClass; 4] = [
    StandardClass::Linkage,
    StandardClass::Link,
    StandardClass::Head,
    StandardClass::Process,
];

/// The standard class that has what is found there.
pub(crate) fn class_owning(owner: Owner) -> Option<StandardClass>
    ensures { result ≡ class_owning owner }
{
    match owner {
        Owner::Linkage => Some(StandardClass::Linkage),
        Owner::Link => Some(StandardClass::Link),
        Owner::Head => Some(StandardClass::Head),
        Owner::Process => Some(StandardClass::Process),
        _ => None,
    }
}

/// The standard class that a type of the table is of.
pub(crate) fn class_typed(ty: StandardType) -> Option<StandardClass>
    ensures { result ≡ class_typed ty }
{
    match ty {
        StandardType::Linkage => Some(StandardClass::Linkage),
        StandardType::Link => Some(StandardClass::Link),
        StandardType::Head => Some(StandardClass::Head),
        StandardType::Process => Some(StandardClass::Process),
        _ => None,
    }
}

/// Whether a prefix declares what is found there.
pub(crate) fn is_provided(prefix: StandardPrefix, owner: Owner) -> bool
    ensures { result ≡ is_provided prefix owner }
{
    match (prefix, owner) {
        (_, Owner::Linkage) => true,
        (_, Owner::Link) => true,
        (_, Owner::Head) => true,
        (StandardPrefix::Simulation, Owner::Process) => true,
        (StandardPrefix::Simulation, Owner::Simulation) => true,
        _ => false,
    }
}
