//! The class that each connection connects.
ghost use Rattle.std.specs.Prelude.{◌≡◌, None};
ghost use Rattle.sim_tree.specs.SyntaxOf.{syntax_of};
ghost use Rattle.sim_tree.specs.SyntaxOfProgram.{program_syntax};
ghost use Rattle.sim_scope.specs.Runs.{Runs, each};
ghost use Rattle.sim_scope.specs.Walk.{of_arm, of_block, of_branch, of_class_body, of_declaration, of_statement, of_whole};
ghost use Rattle.inspect_types.specs.Connecting.{Connects, Looks, Names, class_of_name, class_of_type, connected, connecting, connections as connects};

use sim_base::TokenNo;
use sim_scope::{
    Denotation, Extent, Found, Position, Scopes, SimType, binding, block_at, class_block,
};
use sim_tree::{Block, Decl, Expr, Identifier, Program, Stmt, When};
use sim_types::operand;
use std::alloc::Global;
use std::marker::Model;

/// The tables, in which the connections further to the left have their classes, and the block of the class that the next one connects.
/// What is found in an object counts for nothing: the last round judges it again.
#[derive(Drop)]
struct Connecting {
    scopes: Scopes,
    next: Option<u32>,
    found: Found,
}

impl Model for Connecting {
    ghost use Rattle.inspect_types.specs.Connecting.{ConnectingOf};

    ghost Value = { ConnectingOf };

    ghost view = { λ c. record { tables = c.scopes; next = c.next } };
}

/// The block of the class of an object.
fn class_of_type(scopes: &Scopes, ty: Option<SimType>) -> Option<u32>
    ensures { result ≡ class_of_type scopes.now ty }
{
    match ty {
        Some(SimType::Ref(class)) => class_block(scopes, class),
        _ => None,
    }
}

/// The block of a class that is named.
fn class_of_name(scopes: &Scopes, denotation: Option<Denotation>) -> Option<u32>
    ensures { result ≡ class_of_name scopes.now denotation }
{
    match denotation {
        Some(Denotation::Declared(class)) => class_block(scopes, class),
        _ => None,
    }
}

impl Connecting {
    /// The object of a connection is met.
    fn look(&mut self, object: &Expr)
        ensures { self.new ≡ connecting self.old (Looks (syntax_of object.now)) }
    {
        let object = operand(&self.scopes, Extent::Statement, &mut self.found, object);
        self.next = class_of_type(&self.scopes, object.ty);
    }

    /// The class of an arm is met.
    #[tactic(auto, unfolding(crate::specs::Connecting::connecting))]
    fn name(&mut self, class: &Identifier)
        ensures { self.new ≡ connecting self.old (Names class.now) }
    {
        let denotation = binding(&self.scopes, class.token, class.name.as_bytes());
        self.next = class_of_name(&self.scopes, denotation);
    }

    /// A connection begins: it connects the class of what was met last.
    #[tactic(auto, unfolding(crate::specs::Connecting::connecting))]
    fn connect(&mut self, opening: TokenNo)
        ensures { self.new ≡ connecting self.old (Connects opening.0) }
    {
        if let Some(block) = block_at(&self.scopes, opening) {
            self.scopes.set_base(block as usize, self.next);
        }
    }
}

/// A statement.
#[cycle(connecting)]
#[tactic(auto, using(crate::proofs::Meetings::walks))]
fn statement(tables: &mut Connecting, position: Position, stmt: &Stmt)
    ensures { Runs connecting tables.old tables.new (of_statement connects position stmt.now) }
{
    match stmt {
        Stmt::Block { block } => match position {
            Position::ClassBody => class_body(tables, block),
            Position::ClassStatement => self::block(tables, block),
            Position::Inside => self::block(tables, block),
        },
        Stmt::PrefixedBlock { block, .. } => whole(tables, block),
        Stmt::If {
            then_branch,
            else_branch,
            ..
        } => {
            statement(tables, Position::Inside, then_branch);
            branch(tables, else_branch);
        }
        Stmt::While { body, .. } => statement(tables, Position::Inside, body),
        Stmt::For { body, .. } => statement(tables, Position::Inside, body),
        Stmt::ForReference { body, .. } => statement(tables, Position::Inside, body),
        Stmt::Inspect {
            object,
            opening,
            body,
            otherwise,
            ..
        } => {
            tables.look(object);
            tables.connect(*opening);
            statement(tables, Position::Inside, body);
            branch(tables, otherwise);
        }
        Stmt::InspectWhen {
            object,
            arms: list,
            otherwise,
            ..
        } => {
            arms(tables, list);
            branch(tables, otherwise);
        }
        Stmt::Call { .. } => {}
        Stmt::Assignment { .. } => {}
        Stmt::Inner { .. } => {}
        Stmt::Empty { .. } => {}
        Stmt::Activation { .. } => {}
    }
}

#[cycle(connecting)]
#[tactic(auto, using(crate::proofs::Meetings::walks))]
fn branch(tables: &mut Connecting, stmt: &Option<Box<Stmt>>)
    ensures { Runs connecting tables.old tables.new (of_branch connects stmt.now) }
{
    match stmt {
        Some(stmt) => statement(tables, Position::Inside, stmt),
        None => {}
    }
}

/// An arm of a connection.
#[cycle(connecting)]
#[tactic(auto, using(crate::proofs::Meetings::walks))]
fn arm(tables: &mut Connecting, when: &When)
    ensures { Runs connecting tables.old tables.new (of_arm connects when.now) }
{
    tables.name(&when.class);
    tables.connect(when.opening);
    statement(tables, Position::Inside, &when.body);
}

#[cycle(connecting)]
#[tactic(auto, using(crate::proofs::Meetings::walks))]
fn arms(tables: &mut Connecting, list: &[When])
    ensures { Runs connecting tables.old tables.new (each (of_arm connects) list.now) }
{
    for item in list {
        arm(tables, item);
    }
}

#[cycle(connecting)]
#[tactic(auto, using(crate::proofs::Meetings::walks))]
fn statements(tables: &mut Connecting, position: Position, list: &[Stmt])
    ensures { Runs connecting tables.old tables.new (each (of_statement connects position) list.now) }
{
    for item in list {
        statement(tables, position, item);
    }
}

/// A block, or a compound statement.
#[cycle(connecting)]
#[tactic(auto, using(crate::proofs::Meetings::walks))]
fn block(tables: &mut Connecting, block: &Block)
    ensures { Runs connecting tables.old tables.new (of_block connects block.now) }
{
    if block.declarations.is_empty() {
        return statements(tables, Position::Inside, &block.statements);
    }
    declarations(tables, &block.declarations);
    statements(tables, Position::Inside, &block.statements);
}

/// What is inside a block that is one also without declarations.
#[cycle(connecting)]
#[tactic(auto, using(crate::proofs::Meetings::walks))]
fn whole(tables: &mut Connecting, block: &Block)
    ensures { Runs connecting tables.old tables.new (of_whole connects block.now) }
{
    declarations(tables, &block.declarations);
    statements(tables, Position::Inside, &block.statements);
}

/// The body of a class.
#[cycle(connecting)]
#[tactic(auto, using(crate::proofs::Meetings::walks))]
fn class_body(tables: &mut Connecting, block: &Block)
    ensures { Runs connecting tables.old tables.new (of_class_body connects block.now) }
{
    declarations(tables, &block.declarations);
    statements(tables, Position::ClassStatement, &block.statements);
}

#[cycle(connecting)]
#[tactic(auto, using(crate::proofs::Meetings::walks))]
fn declarations(tables: &mut Connecting, list: &[Decl])
    ensures { Runs connecting tables.old tables.new (each (of_declaration connects) list.now) }
{
    for item in list {
        declaration(tables, item);
    }
}

#[cycle(connecting)]
#[tactic(auto, using(crate::proofs::Meetings::walks))]
fn declaration(tables: &mut Connecting, decl: &Decl)
    ensures { Runs connecting tables.old tables.new (of_declaration connects decl.now) }
{
    match decl {
        Decl::Variables { .. } => {}
        Decl::Arrays { .. } => {}
        Decl::Procedure { procedure, .. } => {
            statement(tables, Position::Inside, &procedure.body)
        }
        Decl::Class { class, .. } => statement(tables, Position::ClassBody, &class.body),
    }
}

/// The tables of a program with the class of each connection: that of the object's qualification, and behind `when` the class that is named.
#[tactic(auto, using(crate::proofs::Meetings::connects_all))]
pub fn connections(alloc: Global, scopes: Scopes, program: &Program) -> Scopes
    ensures { result ≡ connected scopes (program_syntax program.now) }
{
    let mut tables = Connecting {
        scopes,
        next: None,
        found: Found::none(alloc),
    };
    whole(&mut tables, &program.block);
    tables.scopes
}
