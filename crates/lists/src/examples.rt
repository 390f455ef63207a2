ghost use Rattle.std.specs.Prelude.{◌≡◌, ◌<◌, ℕ, [], ◌∷◌};
ghost use Rattle.lists.specs.Each.{Each};
ghost use Rattle.lists.specs.Prefixes.{IsPrefix};

/// Examples of prefixes and of what holds of each element.
#[rattlefmt::skip]
pub const fn worked()
    ensures prefix { IsPrefix {A = ℕ} (1 ∷ []) (1 ∷ 2 ∷ []) }
    ensures prefix_of_itself { IsPrefix {A = ℕ} (1 ∷ 2 ∷ []) (1 ∷ 2 ∷ []) }
    ensures nothing_is_a_prefix { IsPrefix {A = ℕ} [] (1 ∷ []) }
    ensures an_end_is_no_prefix { IsPrefix {A = ℕ} (2 ∷ []) (1 ∷ 2 ∷ []) → ⊥ }
    ensures longer_is_no_prefix { IsPrefix {A = ℕ} (1 ∷ 2 ∷ []) (1 ∷ []) → ⊥ }
    ensures each { Each (λ n. n < 3) (1 ∷ 2 ∷ []) }
    ensures each_of_none { Each (λ n. n < 0) [] }
    ensures one_fails { Each (λ n. n < 3) (1 ∷ 3 ∷ []) → ⊥ }
{
}
