//! Laws of reading.

ghost use Rattle.std.specs.Prelude.{◌≡◌, ℕ, List, []};
ghost use Rattle.cfg_read.specs.declared.yacc.YaccKind.{YaccKind};
ghost use Rattle.cfg_read.specs.declared.yacc.parser.error.YaccGrammarErrorKind.{YaccGrammarErrorKind};
ghost use Rattle.cfg_read.specs.SyntaxTexts.{SyntaxText};
ghost use Rattle.cfg_read.specs.Reading.{Reads};
ghost use Rattle.cfg_read.specs.PlainReading.{ReadsPlain};
ghost use Rattle.cfg_read.specs.FreshRules.{fresh_of};
ghost use Rattle.cfg_read.specs.SyntaxErrors.{Faults, Outcome};

/// Proves that, for each kind, a text has exactly one reading or exactly one fault from an offset on, never two,
/// never both, and never neither.
pub fn one_reading()
    ensures some { (kind : YaccKind) (text : List ℕ) (start : ℕ) → Outcome kind text start }
    ensures readings { (kind : YaccKind) (text : List ℕ) (start : ℕ) (x y : SyntaxText) → Reads kind text start x → Reads kind text start y → x ≡ y }
    ensures apart { (kind : YaccKind) (text : List ℕ) (start : ℕ) (x : SyntaxText) (e : YaccGrammarErrorKind) (offset : ℕ) → Reads kind text start x → Faults kind text start e offset → ⊥ }
    ensures faults { (kind : YaccKind) (text : List ℕ) (start : ℕ) (d e : YaccGrammarErrorKind) (p q : ℕ) → Faults kind text start d p → Faults kind text start e q → (d ≡ e) × (p ≡ q) }
{}

/// Proves that a text that reads without any `?` behind a symbol has the same reading with that construct, and no
/// fresh rules.
pub fn old_texts_read_the_same()
    ensures reads { (kind : YaccKind) (text : List ℕ) (start : ℕ) (x : SyntaxText) → ReadsPlain kind text start x → Reads kind text start x }
    ensures fresh { (kind : YaccKind) (text : List ℕ) (start : ℕ) (x : SyntaxText) → ReadsPlain kind text start x → fresh_of x ≡ [] }
{}
