ghost use Rattle.std.specs.Prelude.{◌≡◌, Some, codes};
ghost use Rattle.commands.specs.Lines.{memory_line, read_failed_line};
ghost use Rattle.commands.specs.Saying.{Said, Tells};
ghost use Rattle.commands.specs.Seen.{CountsNothing};

/// Lines on an error stream that held nothing, or `a`.
pub fn worked_lines()
    ensures lines { (read_failed_line ≡ codes "read\n") × (memory_line ≡ codes "memory\n") }
    ensures whole { Said 3 (codes "no\n") (record { written = Some (codes "a"); faults = 1; wants = 0 })
        (record { written = Some (codes "ano\n"); faults = 1; wants = 0 }) 3 }
    ensures whole_with_another_status { Said 3 (codes "no\n") (record { written = Some (codes "a"); faults = 1; wants = 0 })
        (record { written = Some (codes "ano\n"); faults = 1; wants = 0 }) 0 → ⊥ }
    ensures in_silence { Said 3 (codes "no\n") (record { written = Some (codes "a"); faults = 1; wants = 0 })
        (record { written = Some (codes "a"); faults = 1; wants = 0 }) 3 → ⊥ }
    ensures failed_uncounted { Said 3 (codes "no\n") (record { written = Some (codes "a"); faults = 1; wants = 0 })
        (record { written = Some (codes "a"); faults = 1; wants = 0 }) 5 → ⊥ }
    ensures another_line { Tells 3 (codes "no\n") (record { written = Some (codes ""); faults = 0; wants = 0 })
        (record { written = Some (codes "yes\n"); faults = 0; wants = 0 }) 3 → ⊥ }
{}
