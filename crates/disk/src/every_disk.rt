ghost use Rattle.disk.specs.Between.{may_become_between};
ghost use Rattle.disk.specs.Disk.{may_become};
ghost use Rattle.disk.specs.DiskLaws.{ActsOnlyAdd, BetweenIsMore, FailureMayDoNothing, FaultsAddNothing, FrontsAreCutShort, ModelIsByItsTest, OnlyLengthsAreMore, OthersAreAsBefore, ReadsAreAnImage, SettledStays, SyncOnlyTakesAway, TestBetweenSays, TestSays};
ghost use Rattle.disk.specs.Images.{WordsGiveImages};

/// What holds of every disk, whatever its areas hold and whatever is pending on them.
pub fn laws()
    // The areas as they read are always one of the images.
    ensures reads { ReadsAreAnImage may_become }

    // With nothing pending a crash leaves what a read gives.
    ensures settled { SettledStays may_become }

    // A sync permits no image that was not permitted before it.
    ensures sync { SyncOnlyTakesAway may_become }

    // The test in words: an image has one of the lengths that its area had, and the bytes that are not pending.
    ensures test { TestSays }

    // By the test of an area, what a crash may leave is as the model has it.
    ensures model { ModelIsByItsTest }

    // A byte that is not pending is as it was before the pending acts.
    ensures before { OthersAreAsBefore }

    // A fault permits no image but those of the acts that it cut short, at the same moment.
    ensures faults { FaultsAddNothing may_become }

    // What was done up to any moment of acts that were cut short is cut short too.
    ensures fronts { FrontsAreCutShort }

    // A store call that failed may have done nothing.
    ensures nothing { FailureMayDoNothing may_become }

    // What stood at the last sync is an image until the next.
    ensures add { ActsOnlyAdd may_become }
{}

/// What holds where a crash may also leave an area with a length between two of those that it had.
pub fn laws_between()
    // The test in words: an image is no shorter than some length that its area had and no longer than some, and has the bytes that
    // are not pending.
    ensures test { TestBetweenSays }

    // It permits all that the model permits, and what it permits of an area besides has a length that the area did not have.
    ensures more { BetweenIsMore }
    ensures lengths { OnlyLengthsAreMore }

    // The laws of the model hold by it too.
    ensures reads { ReadsAreAnImage may_become_between }
    ensures settled { SettledStays may_become_between }
    ensures sync { SyncOnlyTakesAway may_become_between }
    ensures faults { FaultsAddNothing may_become_between }
    ensures nothing { FailureMayDoNothing may_become_between }
    ensures add { ActsOnlyAdd may_become_between }
{}

/// Four images of each moment: what stood at the last syncs, what a read gives, and the present lengths with `FF` or `00` in
/// each place that is pending.
pub fn worded_images()
    ensures { WordsGiveImages }
{}
