//! That the tables of a program agree with its texts. Each law is a function that does nothing; its clause is the law.
ghost use Rattle.std.specs.Prelude.{◌≡◌, Some};
ghost use Rattle.sim_base.specs.declared.numbering.DeclNo.{DeclNo};
ghost use Rattle.sim_scope.specs.Scopes.{entry_of};
ghost use Rattle.sim_scope.specs.Source.{Source};
ghost use Rattle.sim_scope.specs.declared.types.Entry.TheVariants as entry;
ghost use Rattle.sim_scope.specs.declared.types.SimType.{SimType};
ghost use Rattle.sim_agree.specs.ConstantAt.{ConstantAt};
ghost use Rattle.sim_agree.specs.Inners.{Inners};
ghost use Rattle.sim_agree.specs.Order.{InOrder};
ghost use Rattle.sim_agree.specs.TablesAgree.{TablesAgree};
ghost use Rattle.sim_agree.specs.TablesOf.{TablesOf};

/// The complete tables of a program whose declarations break no rule and whose tokens stand in the order of its text agree with its texts.
#[tactic(auto, using(crate::proofs::Whole::tables_agree))]
pub fn tables_agree()
    ensures { (s : Source) → TablesOf s → InOrder s.program → TablesAgree s }
{}

/// In the tables of such a program a class has an `inner` just where one is among its statements, and none has two. Elsewhere no `inner` stands.
#[tactic(auto, using(crate::proofs::InnersWritten::inners))]
pub fn inners_are_written()
    ensures { (s : Source) → TablesOf s → InOrder s.program → Inners s }
{}

/// The value of a constant of such a program is the one that is written where it is declared.
#[tactic(auto, using(crate::proofs::Constants::constant_at))]
pub fn constants_are_written()
    ensures { (s : Source) → TablesOf s → InOrder s.program → (d : DeclNo) (ty : SimType) → entry_of s.tables d ≡ Some (entry.Constant ty) → ConstantAt s d ty }
{}
