//! The standard names: what is declared outside every program.
ghost use Rattle.std.specs.Prelude.{◌≡◌, slice_get};
ghost use Rattle.std.specs.List.{list_any};
ghost use Rattle.std.specs.Str.{bytes_eq};
ghost use Rattle.sim_scope.specs.Standard.{Names, first_named, is_environment_name, is_file_or_layout, is_named, is_random_drawing, is_real_function, is_seen, named_beside, of_none, plain_or_none, plain_type, procedure_or, signature, signature_of, standard_name, standard_prefix, sysin_attribute, sysout_attribute, text_attribute, undeclared};

use crate::types::{SimType, StandardPrefix};
use sim_base::Rule;
use sim_values::{Owner, STANDARD_NAMES, Standard, StandardType};

/// What a standard name stands for.
#[derive(Clone, Copy, Debug, PartialEq, Eq)]
pub enum StandardName {
    /// A name of the table of standard names.
    Procedure(Standard),
    /// `sysin`, which stands only before a dot.
    Sysin,
    /// `sysout`, which stands only before a dot.
    Sysout,
    /// `simset` or `simulation`: a class.
    Prefix(StandardPrefix),
}

/// Where a standard name is written.
#[derive(Clone, Copy, Debug, PartialEq, Eq)]
pub enum Place {
    /// Alone.
    Alone,
    /// Behind a text and a dot.
    Text,
    /// Behind `sysin` and a dot.
    Sysin,
    /// Behind `sysout` and a dot.
    Sysout,
}

/// The types of the operands and of the result of a standard name, in order. Operands are passed by value.
#[derive(Clone, Copy, Debug, PartialEq, Eq)]
pub struct Signature {
    /// The first operand, where there is one.
    pub first: Option<SimType>,
    /// The second operand, where there is one.
    pub second: Option<SimType>,
    /// The result, where there is one.
    pub result: Option<SimType>,
}

/// Whether what is found there is seen at a place.
fn is_seen(place: Place, owner: Owner) -> bool
    ensures { result ≡ is_seen place owner }
{
    match (place, owner) {
        (Place::Alone, Owner::Environment) => true,
        (Place::Alone, Owner::Sysin) => true,
        (Place::Alone, Owner::Sysout) => true,
        (Place::Alone, Owner::Images) => true,
        (Place::Alone, Owner::Object) => true,
        (Place::Text, Owner::Text) => true,
        (Place::Sysin, Owner::Sysin) => true,
        (Place::Sysin, Owner::Images) => true,
        (Place::Sysout, Owner::Sysout) => true,
        (Place::Sysout, Owner::Images) => true,
        _ => false,
    }
}

/// Whether a name of the table is seen at a place, and spelt so.
fn is_named(place: Place, standard: Standard, name: &[u8]) -> bool
    ensures { result ≡ is_named place name.now standard }
{
    is_seen(place, standard.owner()) && name == standard.spelling().as_bytes()
}

/// The first name of a table that is seen at a place, and spelt so.
#[tactic(auto, using(crate::proofs::Rows::rows_passed))]
fn find(place: Place, table: &[Standard], name: &[u8]) -> Option<Standard>
    ensures { Names place name.now table.now result }
{
    for standard in table {
        if is_named(place, *standard, name) {
            return Some(*standard);
        }
    }
    None
}

/// What is seen of the standard names at a place. The name is in lower case.
#[tactic(auto, unfolding(crate::specs::Standard::Names))]
fn first_named(place: Place, name: &[u8]) -> Option<Standard>
    ensures { result ≡ first_named place name.now STANDARD_NAMES }
{
    find(place, &STANDARD_NAMES, name)
}

/// What a name stands for that is none of the table.
fn named_beside(name: &[u8]) -> Option<StandardName>
    ensures { result ≡ named_beside name.now }
{
    if name == "sysin".as_bytes() {
        Some(StandardName::Sysin)
    } else if name == "sysout".as_bytes() {
        Some(StandardName::Sysout)
    } else {
        match standard_prefix(name) {
            Some(prefix) => Some(StandardName::Prefix(prefix)),
            None => None,
        }
    }
}

/// A name of the table, else another one.
fn procedure_or(procedure: Option<Standard>, other: Option<StandardName>) -> Option<StandardName>
    ensures { result ≡ procedure_or procedure other }
{
    match procedure {
        Some(name) => Some(StandardName::Procedure(name)),
        None => other,
    }
}

/// What a name written alone stands for, where the program does not declare it. The name is in lower case.
#[tactic(auto, unfolding(crate::specs::Standard::standard_name))]
pub fn standard_name(name: &[u8]) -> Option<StandardName>
    ensures { result ≡ standard_name name.now }
{
    procedure_or(first_named(Place::Alone, name), named_beside(name))
}

/// What an attribute of a text stands for. The name is in lower case.
#[tactic(auto, unfolding(crate::specs::Standard::text_attribute))]
pub fn text_attribute(name: &[u8]) -> Option<StandardName>
    ensures { result ≡ text_attribute name.now }
{
    procedure_or(first_named(Place::Text, name), None)
}

/// What an attribute of sysin stands for. The name is in lower case.
#[tactic(auto, unfolding(crate::specs::Standard::sysin_attribute))]
pub fn sysin_attribute(name: &[u8]) -> Option<StandardName>
    ensures { result ≡ sysin_attribute name.now }
{
    procedure_or(first_named(Place::Sysin, name), None)
}

/// What an attribute of sysout stands for. The name is in lower case.
#[tactic(auto, unfolding(crate::specs::Standard::sysout_attribute))]
pub fn sysout_attribute(name: &[u8]) -> Option<StandardName>
    ensures { result ≡ sysout_attribute name.now }
{
    procedure_or(first_named(Place::Sysout, name), None)
}

/// The standard prefix of this name, if it is the name of one. The name is in lower case.
#[tactic(auto, unfolding(crate::specs::Standard::standard_prefix))]
pub fn standard_prefix(name: &[u8]) -> Option<StandardPrefix>
    ensures { result ≡ standard_prefix name.now }
{
    if name == "simset".as_bytes() {
        Some(StandardPrefix::Simset)
    } else if name == "simulation".as_bytes() {
        Some(StandardPrefix::Simulation)
    } else {
        None
    }
}

/// A type of the table that is no class.
pub(crate) fn plain_type(ty: StandardType) -> SimType
    ensures { result ≡ plain_type ty }
{
    match ty {
        StandardType::Integer => SimType::Integer,
        StandardType::Boolean => SimType::Boolean,
        StandardType::Character => SimType::Character,
        StandardType::Text => SimType::Text,
        _ => SimType::NoneType,
    }
}

fn plain_or_none(ty: Option<StandardType>) -> Option<SimType>
    ensures { result ≡ plain_or_none ty }
{
    match ty {
        Some(ty) => Some(plain_type(ty)),
        None => None,
    }
}

fn of_none() -> Signature
    ensures { result ≡ of_none }
{
    Signature {
        first: None,
        second: None,
        result: None,
    }
}

/// What the table has of a name.
fn signature_of(name: Standard) -> Signature
    ensures { result ≡ signature_of name }
{
    let parameters = name.parameters();
    Signature {
        first: plain_or_none(parameters.get(0).copied()),
        second: plain_or_none(parameters.get(1).copied()),
        result: plain_or_none(name.result()),
    }
}

impl StandardName {
    /// The types of the operands and of the result.
    #[tactic(auto, unfolding(crate::specs::Standard::signature))]
    pub fn signature(self) -> Signature
        ensures { result ≡ signature self }
    {
        match self {
            StandardName::Procedure(name) => signature_of(name),
            _ => of_none(),
        }
    }
}

/// The real functions.
static REAL_FUNCTIONS: [&str; 28] = [
    "addepsilon",
    "subepsilon",
    "arccos",
    "arcsin",
    "arctan",
    "arctan2",
    "cos",
    "cosh",
    "cotan",
    "entier",
    "exp",
    "ln",
    "log10",
    "sin",
    "sinh",
    "sqrt",
    "tan",
    "tanh",
    "getreal",
    "getfrac",
    "putfix",
    "putreal",
    "putfrac",
    "inreal",
    "infrac",
    "outfix",
    "outreal",
    "outfrac",
];

/// Random drawing.
static RANDOM_DRAWING: [&str; 12] = [
    "draw", "randint", "uniform", "normal", "negexp", "poisson", "erlang", "discrete", "linear",
    "histd", "histo", "accum",
];

/// Files and layout.
static FILES_AND_LAYOUT: [&str; 9] = [
    "infile",
    "outfile",
    "directfile",
    "printfile",
    "line",
    "page",
    "eject",
    "spacing",
    "linesperpage",
];

/// Names of the environment.
static ENVIRONMENT_NAMES: [&str; 6] = [
    "clocktime",
    "cputime",
    "datetime",
    "sourceline",
    "error",
    "terminate_program",
];

/// Whether the names have this one among them.
fn contains(names: &[&str], name: &[u8]) -> bool
    ensures { result ≡ list_any (λ word. bytes_eq name.now word.now) names.now }
{
    names.iter().any(|word| name == word.as_bytes())
}

/// Whether a name is that of a real function.
#[tactic(auto, unfolding(crate::specs::Standard::is_real_function))]
fn is_real_function(name: &[u8]) -> bool
    ensures { result ≡ is_real_function name.now }
{
    contains(&REAL_FUNCTIONS, name)
}

/// Whether a name is one of random drawing.
#[tactic(auto, unfolding(crate::specs::Standard::is_random_drawing))]
fn is_random_drawing(name: &[u8]) -> bool
    ensures { result ≡ is_random_drawing name.now }
{
    contains(&RANDOM_DRAWING, name)
}

/// Whether a name is one of files or layout.
#[tactic(auto, unfolding(crate::specs::Standard::is_file_or_layout))]
fn is_file_or_layout(name: &[u8]) -> bool
    ensures { result ≡ is_file_or_layout name.now }
{
    contains(&FILES_AND_LAYOUT, name)
}

/// Whether a name is one of the environment.
#[tactic(auto, unfolding(crate::specs::Standard::is_environment_name))]
fn is_environment_name(name: &[u8]) -> bool
    ensures { result ≡ is_environment_name name.now }
{
    contains(&ENVIRONMENT_NAMES, name)
}

/// The rule that an identifier breaks which nothing declares: one of `N1` to `N4`, else `S10`. The name is in lower case.
#[tactic(auto, unfolding(crate::specs::Standard::undeclared))]
pub fn undeclared(name: &[u8]) -> Rule
    ensures { result ≡ undeclared name.now }
{
    if is_real_function(name) {
        Rule::RealFunction
    } else if is_random_drawing(name) {
        Rule::RandomDrawing
    } else if is_file_or_layout(name) {
        Rule::FileOrLayout
    } else if is_environment_name(name) {
        Rule::EnvironmentName
    } else {
        Rule::NotDeclared
    }
}
