//! Laws of the lists of productions, and of walks over numbers.

ghost use Rattle.std.specs.Prelude.{◌≡◌, ◌<◌, ◌∷◌, ℕ, List, length, All};
ghost use Rattle.std.specs.List.{AllPairs, Contains, range_with_len};
ghost use Rattle.cfg_theory.specs.Grammar.{Grammar, head_of};
ghost use Rattle.cfg_numbered.specs.Value.{productions_of};

/// Proves that each production is in the list of its own rule, which `NumberedGrammar::prod_to_rule` returns, and in
/// no other, among the lists of `NumberedGrammar::rule_to_prods`. Numbers ascend in a list, so each production is
/// there once.
pub fn productions_stand_in_one_list()
    ensures listed { (G : Grammar) (p : ℕ) → p < length G.productions → Contains (productions_of G (head_of G p)) p }
    ensures alone { (G : Grammar) (A p : ℕ) → Contains (productions_of G A) p → (p < length G.productions) × (head_of G p ≡ A) }
    ensures once { (G : Grammar) (A : ℕ) → AllPairs (λ p q. p < q) (productions_of G A) }
{}

/// Proves the invariant of a loop over `NumberedGrammar::iter_rules`, `iter_pidxs` or `iter_tidxs`, that the numbers
/// left to come are below the count.
pub fn walks_stay_below()
    ensures start { (n : ℕ) → All (λ p. p < n) (range_with_len 0 n) }
    ensures rest { (n p : ℕ) (left : List ℕ) → All (λ q. q < n) (p ∷ left) → All (λ q. q < n) left }
{}
