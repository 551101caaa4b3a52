//! What holds of values. Each function does nothing: it stands for the law that it ensures.
ghost use Rattle.std.specs.Prelude.{◌≡◌, ℤ, List, Option, Some};
ghost use Rattle.const_eval.specs.Terms.{Term, typ_of};
ghost use Rattle.const_eval.specs.Values.{value, IsNumberOf};

/// A known value of an expression is a number of the expression's type, whatever the values of its signals.
pub fn known_values_are_of_their_type()
    ensures { (term : Term) (signals : List (Option ℤ)) (item : Option ℤ) (v : ℤ)
        → value term signals item ≡ Some v → IsNumberOf (typ_of term) v }
{}
