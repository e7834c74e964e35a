//! Laws of the notation, for proofs that call these functions: what they ensure. They do nothing.

ghost use Rattle.std.specs.Prelude.{◌≡◌, ◌⊎◌, List, ℕ};
ghost use Rattle.pgw_meta.specs.Shape.{Shape};
ghost use Rattle.pgw_notation.specs.Tokens.{joined, tokens};
ghost use Rattle.pgw_notation.specs.Faults.{IsTextOf, IsFaultOf};
ghost use Rattle.pgw_notation.specs.declared.fault.TypeFault.{TypeFault};

/// Joined, the tokens of a text are the text.
pub fn tokens_join()
    ensures { (text : List ℕ) → joined (tokens text) ≡ text }
{}

/// A text is that of one type or has one first fault, and a type has one text.
pub fn one_reading()
    ensures type_or_fault { (text : List ℕ) → ((t : Shape) × IsTextOf t text)
        ⊎ ((fault : TypeFault) × IsFaultOf fault text) }
    ensures not_both { (text : List ℕ) (t : Shape) (fault : TypeFault) → IsTextOf t text → IsFaultOf fault text → ⊥ }
    ensures one_type { (text : List ℕ) (t u : Shape) → IsTextOf t text → IsTextOf u text → t ≡ u }
    ensures one_fault { (text : List ℕ) (fault again : TypeFault) → IsFaultOf fault text → IsFaultOf again text
        → fault ≡ again }
    ensures one_text { (t : Shape) (text again : List ℕ) → IsTextOf t text → IsTextOf t again → text ≡ again }
{}
