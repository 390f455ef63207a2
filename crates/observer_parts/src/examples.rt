ghost use Rattle.std.specs.Prelude.{◌≡◌, [], ◌∷◌};
ghost use Rattle.observer_parts.specs.PacketLists.{list_at};

/// Lists of a few packets, by their numbers.
pub fn worked()
    ensures first { list_at ((0 ∷ 2 ∷ []) ∷ [] ∷ (1 ∷ []) ∷ []) 0 ≡ 0 ∷ 2 ∷ [] }
    ensures third { list_at ((0 ∷ 2 ∷ []) ∷ [] ∷ (1 ∷ []) ∷ []) 2 ≡ 1 ∷ [] }
    ensures empty { list_at ((0 ∷ 2 ∷ []) ∷ [] ∷ (1 ∷ []) ∷ []) 1 ≡ [] }
    ensures not_reached { list_at ((0 ∷ 2 ∷ []) ∷ [] ∷ (1 ∷ []) ∷ []) 3 ≡ [] }
{}
