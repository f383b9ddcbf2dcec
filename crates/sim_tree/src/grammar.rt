//! Laws of the grammar, which hold of every token list. Each is a function that does nothing; its clause is the law.

ghost use Rattle.std.specs.List.{Contains};
ghost use Rattle.std.specs.Prelude.{List, [], ◌∷◌, length, ℕ, ◌≡◌, ◌≤◌, ◌<◌, ◌+◌};
ghost use Rattle.sim_base.specs.declared.token.TokenKind.TheVariants as k;
ghost use Rattle.sim_base.specs.declared.token.Token.{Token};
ghost use Rattle.sim_base.specs.Lexeme.{bare};
ghost use Rattle.sim_tree.specs.declared.program.Program.{Program as Tree};
ghost use Rattle.sim_tree.specs.Grammar.{Part, Symbol};
ghost use Rattle.sim_tree.specs.Grammar as g;
ghost use Rattle.sim_tree.specs.Filled.{Filled};
ghost use Rattle.sim_tree.specs.Ends.{EndsBehind};
ghost use Rattle.sim_tree.specs.Examples.{IsProgram, IsBadAt, IsDeepAt, x, y, keep, operand, call, block, end};
ghost use Rattle.sim_tree.specs.Named.{named, named_tokens, IsAscending};
ghost use Rattle.sim_tree.specs.Order.{AllBelow, InOrder, in_block};
ghost use Rattle.sim_tree.specs.Reading.{done, node, place, Fails, Fault, Forest, Reads, TooDeep, Unexpected, bare_leaf};
ghost use Rattle.sim_tree.specs.Claim.{Begins, IsFirstBad, SameBelow, one};
ghost use Rattle.sim_tree.specs.Derivation.{expression};
ghost use Rattle.sim_tree.specs.ProgramDerivation.{program_derivation};
ghost use Rattle.sim_tree.specs.Syntax.{Expression, naming};
ghost use Rattle.sim_tree.specs.SyntaxExamples.{HasSyntax, chain_source, chain_syntax, connection_source, connection_syntax, prefixed_source, prefixed_syntax, procedure_source, procedure_syntax, sum_source, sum_syntax};
ghost use Rattle.sim_tree.specs.SyntaxOfProgram.{program_syntax};
ghost use Rattle.sim_tree.specs.Tree.{IsTree, deepest, depth_of, limit};

/// A token list has at most one program: its trees have the same syntax, which no layer above looks behind, and the same
/// derivation and lines.
pub fn one_tree()
    ensures syntax { (tokens : List Token) (p q : Tree) → IsTree tokens p → IsTree tokens q → program_syntax p ≡ program_syntax q }
    ensures derivation { (tokens : List Token) (p q : Tree) → IsTree tokens p → IsTree tokens q → (program_derivation p ≡ program_derivation q) × (p.lines.items ≡ q.lines.items) }
{}

/// The tokens that name the expressions of a program, the attributes behind dots and the classes in expressions ascend in the order of its text. So each expression has
/// a token of its own: the operator's, the sign's, the word's, the dot's, the constant's, the identifier's or the parenthesis's.
pub fn naming_tokens()
    ensures own { (e : Expression) (l : List ℕ) → Contains (named e l) (naming e) }
    ensures ascend { (tokens : List Token) (p : Tree) → IsTree tokens p → IsAscending (named_tokens (program_syntax p)) }
{}

/// The identifiers that a program declares, the tokens that name its expressions, and the places where its blocks begin and end stand in the
/// order of its text, and none is past its last token.
pub fn token_order()
    ensures order { (tokens : List Token) (p : Tree) → IsTree tokens p → InOrder (program_syntax p) }
    ensures within { (tokens : List Token) (p : Tree) → IsTree tokens p → AllBelow (length tokens) (in_block (program_syntax p).block []) }
{}

/// Each assignment of a program has a right side, each `for` list an element.
pub fn filled()
    ensures { (tokens : List Token) (p : Tree) → IsTree tokens p → Filled (program_syntax p) }
{}

/// Each block of a program ends behind its `begin`, each procedure and class behind the word that declares it, each connection
/// behind its `do`. So what lies between the two tokens is a range.
pub fn ends()
    ensures { (tokens : List Token) (p : Tree) → IsTree tokens p → EndsBehind (program_syntax p) }
{}

/// From a token on, symbols of the grammar have at most one derivation, with one end.
pub fn one_derivation()
    ensures { (most : ℕ) (tokens : List Token) (depth start end m : ℕ) (s : List Symbol) (f h : Forest) → Reads most tokens depth s start f end → Reads most tokens depth s start h m → (f ≡ h) × (end ≡ m) }
{}

/// Where there is a derivation, there is no fault, and there is at most one fault.
pub fn one_fault()
    ensures never_both { (most : ℕ) (tokens : List Token) (depth start end : ℕ) (s : List Symbol) (f : Forest) (e : Fault) → Reads most tokens depth s start f end → Fails most tokens depth s start e → ⊥ }
    ensures one_fault { (most : ℕ) (tokens : List Token) (depth start : ℕ) (s : List Symbol) (e h : Fault) → Fails most tokens depth s start e → Fails most tokens depth s start h → e ≡ h }
{}

/// The fault of an unexpected token names the first bad token, and there is one such token at most. Before a token that
/// would nest too deeply none is bad, and what goes on with that token and the next one nests too deeply. (The next one is
/// looked at since an identifier in front of `class` begins no statement.) A list with a bad token is no program.
pub fn first_bad_token()
    ensures unexpected { (most : ℕ) (tokens : List Token) (depth start k : ℕ) (n : Part) → Fails most tokens depth (one n) start (Unexpected k) → IsFirstBad tokens (one n) start k }
    ensures too_deep { (most : ℕ) (tokens : List Token) (depth start k : ℕ) (n : Part) → Fails most tokens depth (one n) start (TooDeep k) → Begins tokens (one n) start k }
    ensures deep { (most : ℕ) (tokens : List Token) (depth start k : ℕ) (n : Part) → Fails most tokens depth (one n) start (TooDeep k) → (whole : List Token) → SameBelow (k + 2) tokens whole
        → (other : ℕ) (f : Forest) (end : ℕ) → Reads other whole depth (one n) start f end → most < depth + deepest f }
    ensures one_bad { (tokens : List Token) (s : List Symbol) (start k m : ℕ) → IsFirstBad tokens s start k → IsFirstBad tokens s start m → k ≡ m }
    ensures no_program { (tokens : List Token) (p : Tree) (k : ℕ) → IsTree tokens p → IsFirstBad tokens (one g.Program) 0 k → ⊥ }
{}

/// What the grammar gives nests no deeper than its limit.
pub fn bounded_depth()
    ensures derivation { (most : ℕ) (tokens : List Token) (depth start end : ℕ) (s : List Symbol) (f : Forest) → depth ≤ most → Reads most tokens depth s start f end → depth + deepest f ≤ most }
    ensures program { (tokens : List Token) (p : Tree) → IsTree tokens p → depth_of p ≤ limit }
{}

/// The abstract syntax of some small sources.
pub fn syntax_examples()
    // begin x := - x * y + y - x end
    ensures sum { HasSyntax sum_source sum_syntax }
    // begin x := y := 'x' end
    ensures chain { HasSyntax chain_source chain_syntax }
    // begin integer procedure x(y); value y; integer y; x := y; end
    ensures procedure { HasSyntax procedure_source procedure_syntax }
    // begin inspect x when y do y otherwise x end
    ensures connection { HasSyntax connection_source connection_syntax }
    // x (y) begin end
    ensures prefixed { HasSyntax prefixed_source prefixed_syntax }
{}

/// The grammar at work: trees of some small sources, and the first bad token of others.
pub fn examples()
    // begin end
    ensures empty { IsProgram (bare k.Begin ∷ bare k.End ∷ []) (block (end 1)) }
    // begin x; end has two statements, the second of which is empty.
    ensures two { IsProgram (bare k.Begin ∷ x ∷ bare k.Semicolon ∷ bare k.End ∷ [])
        (block (keep 1 x (node g.AfterIdentifier (node g.StatementOfIdentifier (node g.AfterFirstOperand done done) (node g.NextStatement (node g.Statement (place 3 done) done) (end 3))) done))) }
    // begin if true then if false then x else y end: the `else` belongs to the inner `if`.
    ensures nearest { IsProgram (bare k.Begin ∷ bare k.If ∷ bare k.True ∷ bare k.Then ∷ bare k.If ∷ bare k.False ∷ bare k.Then ∷ x ∷ bare k.Else ∷ y ∷ bare k.End ∷ [])
        (block (node g.Statement (bare_leaf 1 k.If (node g.Expression (operand 2 (bare k.True)) (node g.Statement (bare_leaf 4 k.If (node g.Expression (operand 5 (bare k.False))
        (node g.Statement (call 7 x) (node g.ElseBranch (node g.Statement (call 9 y) done) done)))) done))) (end 10))) }
    // begin x class y; ; end: the identifier is the prefix of a class with an empty body.
    ensures prefix { IsProgram (bare k.Begin ∷ x ∷ bare k.Class ∷ y ∷ bare k.Semicolon ∷ bare k.Semicolon ∷ bare k.End ∷ [])
        (block (keep 1 x (node g.AfterIdentifier (bare_leaf 2 k.Class (node g.Class (keep 3 y (node g.Heading done (node g.Statement (place 5 done) (place 5 done))))
        (node g.AfterDeclaration done (node g.Block (end 6) done)))) done))) }
    // x (y) begin end;: a prefixed block, and a semicolon after it.
    ensures prefixed { IsProgram (x ∷ bare k.Open ∷ y ∷ bare k.Close ∷ bare k.Begin ∷ bare k.End ∷ bare k.Semicolon ∷ [])
        (keep 0 x (node g.Arguments (node g.Expression (operand 2 y) done) (node g.Compound (bare_leaf 4 k.Begin (node g.Block (end 5) done)) done))) }
    // The empty source is bad at its end.
    ensures nothing { IsBadAt [] 0 }
    // begin x := end lacks a value.
    ensures no_value { IsBadAt (bare k.Begin ∷ x ∷ bare k.Assign ∷ bare k.End ∷ []) 3 }
    // begin x; integer y end declares after a statement.
    ensures late { IsBadAt (bare k.Begin ∷ x ∷ bare k.Semicolon ∷ bare k.IntegerWord ∷ y ∷ bare k.End ∷ []) 3 }
    // begin integer x y end lacks the comma.
    ensures no_comma { IsBadAt (bare k.Begin ∷ bare k.IntegerWord ∷ x ∷ y ∷ bare k.End ∷ []) 3 }
    // begin if x = y = x then y end has two relations in one.
    ensures chained { IsBadAt (bare k.Begin ∷ bare k.If ∷ x ∷ bare k.Equal ∷ y ∷ bare k.Equal ∷ x ∷ bare k.Then ∷ y ∷ bare k.End ∷ []) 5 }
    // begin x class ; end lacks the class.
    ensures no_class { IsBadAt (bare k.Begin ∷ x ∷ bare k.Class ∷ bare k.Semicolon ∷ bare k.End ∷ []) 3 }
    // begin x end end goes on after its end.
    ensures behind { IsBadAt (bare k.Begin ∷ x ∷ bare k.End ∷ bare k.End ∷ []) 3 }
    // begin x := (y) end, with two levels allowed: y would be an expression at the third.
    ensures deep_expression { IsDeepAt 2 (bare k.Begin ∷ x ∷ bare k.Assign ∷ bare k.Open ∷ y ∷ bare k.Close ∷ bare k.End ∷ []) 4 }
    // begin x end, with no level allowed: the statement begins at its identifier.
    ensures deep_statement { IsDeepAt 0 (bare k.Begin ∷ x ∷ bare k.End ∷ []) 1 }
    // begin x class y; x end, with no level allowed: the prefix of a class begins no statement, the body does.
    ensures deep_body { IsDeepAt 0 (bare k.Begin ∷ x ∷ bare k.Class ∷ y ∷ bare k.Semicolon ∷ x ∷ bare k.End ∷ []) 5 }
{}
