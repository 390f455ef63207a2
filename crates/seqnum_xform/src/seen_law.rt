ghost use Rattle.std.specs.Prelude.{◌≡◌, ◌≢◌, ℕ, true};
ghost use Rattle.std.specs.FinSet as set;
ghost use Rattle.seqnum_xform.specs.Numbering.{Seen, has_seen, seen_of, with_seen};

/// Once a number of a sender is noted, it is seen of this sender, and all others are seen as before.
pub fn seen_is_noted()
    ensures itself { (ss : Seen) (a n : ℕ) → has_seen (with_seen ss a n) a n ≡ true }
    ensures others { (ss : Seen) (a n b x : ℕ) → (b ≡ a → x ≢ n) → has_seen (with_seen ss a n) b x ≡ has_seen ss b x }
{}

/// All that were seen of a sender are the numbers of which it is told one by one.
pub fn seen_of_a_sender()
    ensures { (ss : Seen) (a n : ℕ) → set.contains (seen_of ss a) n ≡ has_seen ss a n }
{}
