//! Equality: a builder is compared as its text, whatever its kind.
ghost use Rattle.std.specs.Prelude.{◌≡◌, ◌↔◌, IsTrue, nat_eq};
ghost use Rattle.std.specs.Cmp.{on_per, on_equiv, partial_equiv_from_equiv};
ghost use Rattle.std.specs.Cmp.Lexicographic.{pointwise, nat_list_eq_equiv};

use super::SmolStrBuilder;

/// Two builders are equal where their texts are.
impl PartialEq for SmolStrBuilder {
    ghost eq = { λ x y. pointwise nat_eq x.text y.text };

    ghost laws = { on_per (λ x. x.text) (partial_equiv_from_equiv nat_list_eq_equiv) };

    fn eq(&self, other: &SmolStrBuilder) -> bool
        ensures texts { IsTrue result ↔ (self.now.text ≡ other.now.text) }
    {
        self.as_str() == other.as_str()
    }
}

impl Eq for SmolStrBuilder {
    ghost laws = { on_equiv (λ x. x.text) nat_list_eq_equiv };
}
