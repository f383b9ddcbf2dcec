//! A call is judged as its actual parameters fit the heading of what is called. Each law is a function that does nothing; its clause is the law.
ghost use Rattle.std.specs.Prelude.{◌≡◌, List, ℕ, Option, Some, false, length, true};
ghost use Rattle.sim_base.specs.declared.numbering.DeclNo.{DeclNo};
ghost use Rattle.sim_tree.specs.Syntax.{Expressions};
ghost use Rattle.sim_tree.specs.declared.expr.Identifier.{Identifier};
ghost use Rattle.sim_scope.specs.Calls.{applied, occurs};
ghost use Rattle.sim_scope.specs.Expressions.{actuals};
ghost use Rattle.sim_scope.specs.Least.{faults};
ghost use Rattle.sim_scope.specs.References.{is_only_prefix, new_object};
ghost use Rattle.sim_scope.specs.Tables.{Tables};
ghost use Rattle.sim_scope.specs.declared.outcome.Actuals.{Actuals};
ghost use Rattle.sim_scope.specs.declared.outcome.Extent.TheVariants.{Statement};
ghost use Rattle.sim_scope.specs.declared.scopes.Denotation.TheVariants.{Declared};
ghost use Rattle.sim_scope.specs.declared.types.Formal.{Formal};
ghost use Rattle.sim_scope.specs.declared.types.SimType.{SimType};
ghost use Rattle.param_modes.specs.Fits.{held, settled};
ghost use Rattle.param_modes.specs.Headings.{HasClassHeading, HasHeading, HeadingOf, IsHeading, heading_of};

/// A heading is that of a procedure or that of a class.
pub fn headings()
    ensures { (s : Tables) (d : DeclNo) (h : HeadingOf) → heading_of s d ≡ Some h → IsHeading s d h }
{}

/// The actual parameters of a procedure are what they are against its heading, and where each of them is something, the call breaks just
/// what they break there.
pub fn calls_as_headings()
    ensures actuals { (s : Tables) (d : DeclNo) (result : Option SimType) (fs : List Formal) (a : Actuals) (xs : Expressions) → HasHeading s d result fs → actuals s Statement (Some (Declared d)) a xs ≡ held s fs a xs }
    ensures call { (s : Tables) (d : DeclNo) (result : Option SimType) (fs : List Formal) (a : Actuals) (naming token : ℕ) → HasHeading s d result fs → a.typed ≡ true → faults (applied s naming token (Declared d) a).events ≡ faults (settled (length fs) token a) }
{}

/// Likewise the actual parameters of a generation, whose class is not only for prefixing.
pub fn generations_as_headings()
    ensures actuals { (s : Tables) (d : DeclNo) (fs : List Formal) (a : Actuals) (xs : Expressions) → HasClassHeading s d fs → actuals s Statement (Some (Declared d)) a xs ≡ held s fs a xs }
    ensures generation { (s : Tables) (d : DeclNo) (fs : List Formal) (a : Actuals) (naming : ℕ) (name : Identifier) → HasClassHeading s d fs → is_only_prefix s (Declared d) ≡ false → a.typed ≡ true
        → faults (new_object s naming name (occurs (Some (Declared d)) false) a).events ≡ faults (settled (length fs) name.token.0 a) }
{}
