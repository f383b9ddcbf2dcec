//! Laws of the spelling, each as the contract of a function that does nothing.
ghost use Rattle.std.specs.Prelude.{◌≡◌, ◌≤◌, ℕ, List, true, length, slice_index};
ghost use Rattle.std.specs.List.{All};
ghost use Rattle.sim_base.specs.Place.{line_at};
ghost use Rattle.sim_base.specs.declared.rule.Rule.{Rule as AnyRule};
ghost use Rattle.sim_base.specs.declared.token.Lexeme.{Lexeme as AnyLexeme};
ghost use Rattle.sim_base.specs.declared.token.Token.{Token as AnyToken};
ghost use Rattle.sim_lexer.specs.Bytes.{is_digit, is_letter};
ghost use Rattle.sim_lexer.specs.Constants.{number};
ghost use Rattle.sim_lexer.specs.Longest.{IsLongest, IsLongestWord, IsNumber};
ghost use Rattle.sim_lexer.specs.Piece.{Lexeme as LexemePiece};
ghost use Rattle.sim_lexer.specs.Pieces.{word};
ghost use Rattle.sim_lexer.specs.Signs.{IsNoLonger, sign, signs};
ghost use Rattle.sim_lexer.specs.Spelling.{Broken, Lexed, Reads, Spelled};

/// A source reads as exactly one answer: it has one list of tokens, or it breaks one rule at one place, and not both.
pub fn one_reading()
    ensures some { (source : List ℕ) → (answer : Lexed) × Reads source answer }
    ensures one { (source : List ℕ) (first second : Lexed) → Reads source first → Reads source second → first ≡ second }
{}

/// Each token stands in the source or at its end, on the line of its place, and so does a broken rule.
pub fn places_and_lines()
    ensures place { (source : List ℕ) (tokens : List AnyToken) → Reads source (Spelled tokens)
        → All (λ token. token.place ≤ length source) tokens }
    ensures line { (source : List ℕ) (tokens : List AnyToken) → Reads source (Spelled tokens)
        → All (λ token. token.line.0 ≡ line_at source token.place) tokens }
    ensures broken { (source : List ℕ) (rule : AnyRule) (place : ℕ) → Reads source (Broken rule place) → place ≤ length source }
{}

/// Of the tokens that are written by signs the longest is taken: no sign of the table that stands in front has more bytes.
pub fn longest_sign()
    ensures longest { (all : List ℕ) (lexeme : AnyLexeme) (size : ℕ) → sign all ≡ LexemePiece lexeme size → All (IsNoLonger all size) signs }
{}

/// Of the words that stand in front the longest is taken: where a letter stands in front and a token is spelled there, no
/// more bytes from there on are a word.
pub fn longest_word()
    ensures longest { (all : List ℕ) (lexeme : AnyLexeme) (size : ℕ) → is_letter (slice_index all 0) ≡ true → word all ≡ LexemePiece lexeme size
        → IsLongestWord all lexeme size }
{}

/// Of the numbers that stand in front the longest is taken: where a digit stands in front and a token is spelled there, no
/// more bytes from there on are a number.
pub fn longest_number()
    ensures longest { (all : List ℕ) (lexeme : AnyLexeme) (size : ℕ) → is_digit (slice_index all 0) ≡ true → number all ≡ LexemePiece lexeme size
        → IsLongest IsNumber all size }
{}
