//! Laws of reading sections.

ghost use Rattle.std.specs.Prelude.{◌≡◌, ℕ, Bool, List};
ghost use Rattle.cfg_sections.specs.HeaderErrors.{KindText};
ghost use Rattle.cfg_sections.specs.Sections.{PairText, Reads, Faults};
ghost use Rattle.cfg_sections.specs.SectionResults.{IsAnswered};

/// Proves that each text has a reading without repeated keys, a reading with some, or a fault.
pub fn each_is_answered()
    ensures { (required : Bool) (bytes : List ℕ) → IsAnswered required bytes }
{}

/// Proves that a text has at most one reading or one fault, and not both. The repeated keys are a function of the
/// reading.
pub fn one_reading()
    ensures readings { (required : Bool) (bytes : List ℕ) (x y : List PairText) (a b : ℕ) →
        Reads required bytes x a → Reads required bytes y b → (x ≡ y) × (a ≡ b) }
    ensures apart { (required : Bool) (bytes : List ℕ) (x : List PairText) (a b : ℕ) (kind : KindText) →
        Reads required bytes x a → Faults required bytes kind b → ⊥ }
    ensures faults { (required : Bool) (bytes : List ℕ) (k l : KindText) (a b : ℕ) →
        Faults required bytes k a → Faults required bytes l b → (k ≡ l) × (a ≡ b) }
{}
