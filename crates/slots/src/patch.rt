ghost use Rattle.disk.specs.Between.{may_become_between};
ghost use Rattle.disk.specs.Disk.{may_become};
ghost use Rattle.slots.specs.PatchLaws.{FrontStays, GateIsEither, GateIsTornAlone, PatchKeeps, RecordIsHarmless};

/// What holds of a write into the named slot, as of a journal's record and of its gate.
pub fn patches<K>()
    // A patch that is harmless where it is torn leaves the old state or the new one, and in the end the new one.
    ensures keeps { PatchKeeps may_become K }

    // What stands in front of a write stays while it may be torn, and of one byte all else stays.
    ensures front { FrontStays may_become }
    ensures gate { GateIsTornAlone may_become }

    // So a record is harmless where only what stands in front of it counts, and a gate where each byte there leaves one of the two.
    ensures harmless { RecordIsHarmless may_become K }
    ensures either { GateIsEither may_become K }
{}

/// The same where a crash may leave an area with a length between two of those that it had.
pub fn patches_between<K>()
    ensures keeps { PatchKeeps may_become_between K }
    ensures front { FrontStays may_become_between }
    ensures gate { GateIsTornAlone may_become_between }
    ensures harmless { RecordIsHarmless may_become_between K }
    ensures either { GateIsEither may_become_between K }
{}
