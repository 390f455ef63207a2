ghost use Rattle.std.specs.Prelude.{◌≡◌, true, false, [], ◌∷◌, None, Some};
ghost use Rattle.lock_table.specs.Examples.{l, m, bob, al};
ghost use Rattle.lock_table.specs.Table.{is_read, table, told};
ghost use Rattle.lock_table.specs.declared.cmd.TableCmd.TheVariants.{Acquire, Release, Holder};
ghost use Rattle.vst_base.specs.Machines.{fold};

/// Runs of commands from the first state on, with what they answer: the name, its holder after the
/// command, and yes or no; and which commands only read.
#[tactic(auto, using(key_map::proofs::Lookups::lookups))]
pub fn worked()
    ensures acquire_of_free { fold table (Acquire l bob ∷ Holder l ∷ []) ≡ told l (Some bob) true ∷ told l (Some bob) true ∷ [] }
    ensures acquire_of_own { fold table (Acquire l bob ∷ Acquire l bob ∷ Holder l ∷ [])
        ≡ told l (Some bob) true ∷ told l (Some bob) false ∷ told l (Some bob) true ∷ [] }
    ensures acquire_of_anothers { fold table (Acquire l bob ∷ Acquire l al ∷ Holder l ∷ [])
        ≡ told l (Some bob) true ∷ told l (Some bob) false ∷ told l (Some bob) true ∷ [] }

    ensures release_of_free { fold table (Release l bob ∷ Holder l ∷ []) ≡ told l None false ∷ told l None false ∷ [] }
    ensures release_of_own { fold table (Acquire l bob ∷ Release l bob ∷ Holder l ∷ [])
        ≡ told l (Some bob) true ∷ told l None true ∷ told l None false ∷ [] }
    ensures release_of_anothers { fold table (Acquire l bob ∷ Release l al ∷ Holder l ∷ [])
        ≡ told l (Some bob) true ∷ told l (Some bob) false ∷ told l (Some bob) true ∷ [] }

    ensures holder_of_free { fold table (Holder l ∷ Acquire l al ∷ []) ≡ told l None false ∷ told l (Some al) true ∷ [] }
    ensures holder_of_held { fold table (Acquire l bob ∷ Holder l ∷ Release l bob ∷ [])
        ≡ told l (Some bob) true ∷ told l (Some bob) true ∷ told l None true ∷ [] }

    ensures released_twice { fold table (Acquire l bob ∷ Release l bob ∷ Release l bob ∷ [])
        ≡ told l (Some bob) true ∷ told l None true ∷ told l None false ∷ [] }
    ensures handed_over { fold table (Acquire l bob ∷ Release l bob ∷ Acquire l al ∷ Release l bob ∷ [])
        ≡ told l (Some bob) true ∷ told l None true ∷ told l (Some al) true ∷ told l (Some al) false ∷ [] }
    ensures names_stand_apart { fold table (Acquire l bob ∷ Acquire m bob ∷ Release l bob ∷ Holder m ∷ [])
        ≡ told l (Some bob) true ∷ told m (Some bob) true ∷ told l None true ∷ told m (Some bob) true ∷ [] }
    ensures owners_are_no_names { fold table (Acquire l m ∷ Acquire m l ∷ Release m m ∷ Holder l ∷ [])
        ≡ told l (Some m) true ∷ told m (Some l) true ∷ told m (Some l) false ∷ told l (Some m) true ∷ [] }
    ensures each_in_turn { fold table (Acquire l bob ∷ Acquire l al ∷ Release l bob ∷ Holder l ∷ [])
        ≡ told l (Some bob) true ∷ told l (Some bob) false ∷ told l None true ∷ told l None false ∷ [] }

    ensures acquire_does_not_read { is_read (Acquire l bob) ≡ false }
    ensures release_does_not_read { is_read (Release l bob) ≡ false }
    ensures holder_reads { is_read (Holder l) ≡ true }
{}
