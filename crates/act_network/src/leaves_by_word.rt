use crate::SavesStates;

/// What stops leave of areas, said by words.
pub trait LeavesByWord: SavesStates {
    type Word;

    /// What a word leaves of a disk.
    ghost by_word: { Self.Disk → Self.Word → Self.Left };

    /// What a disk is like at each moment.
    ghost is_such: { Self.Disk → Type 0 };
}
