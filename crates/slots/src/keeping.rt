ghost use Rattle.disk.specs.Between.{may_become_between};
ghost use Rattle.disk.specs.Disk.{may_become};
ghost use Rattle.slots.specs.TurnLaws.{BothAreSuch, NothingIsSuch, PatchIsSuch, SaveIsSuch};

/// What may make a state durable within a turn: a save, a patch, nothing where nothing is new, and one of these after acts that
/// change nothing that counts, as a gate after its record.
pub fn ways_to_keep<K>()
    ensures a_save { SaveIsSuch may_become K }
    ensures a_patch { PatchIsSuch may_become K }
    ensures nothing { NothingIsSuch may_become K }
    ensures both { BothAreSuch may_become K }
{}

/// The same where a crash may leave an area with a length between two of those that it had.
pub fn ways_to_keep_between<K>()
    ensures a_save { SaveIsSuch may_become_between K }
    ensures a_patch { PatchIsSuch may_become_between K }
    ensures nothing { NothingIsSuch may_become_between K }
    ensures both { BothAreSuch may_become_between K }
{}
