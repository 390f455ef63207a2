ghost use Rattle.std.specs.Prelude.{◌≡◌, [], ◌∷◌, Some, None};
ghost use Rattle.fifo_observer.specs.Channels.{channel, number_of, packet_with};

/// The channels and the numbers of a few packets: two from 1 to 0, and one from 2 to 0 between them.
pub fn worked()
    ensures first { number_of ((1, 0) ∷ (2, 0) ∷ (1, 0) ∷ []) 0 ≡ Some 0 }
    ensures of_another { number_of ((1, 0) ∷ (2, 0) ∷ (1, 0) ∷ []) 1 ≡ Some 0 }
    ensures second { number_of ((1, 0) ∷ (2, 0) ∷ (1, 0) ∷ []) 2 ≡ Some 1 }
    ensures never_sent { number_of ((1, 0) ∷ (2, 0) ∷ (1, 0) ∷ []) 3 ≡ None }
    ensures by_destination { number_of ((1, 0) ∷ (1, 2) ∷ []) 1 ≡ Some 0 }
    ensures one_way { number_of ((1, 2) ∷ (2, 1) ∷ []) 1 ≡ Some 0 }
    ensures both { channel (1, 0) ((1, 0) ∷ (2, 0) ∷ (1, 0) ∷ []) ≡ 0 ∷ 2 ∷ [] }
    ensures alone { channel (2, 0) ((1, 0) ∷ (2, 0) ∷ (1, 0) ∷ []) ≡ 1 ∷ [] }
    ensures back_is_another { channel (0, 1) ((1, 0) ∷ (2, 0) ∷ (1, 0) ∷ []) ≡ [] }
    ensures with_number { packet_with (1, 0) 1 ((1, 0) ∷ (2, 0) ∷ (1, 0) ∷ []) ≡ Some 2 }
    ensures with_number_elsewhere { packet_with (2, 0) 0 ((1, 0) ∷ (2, 0) ∷ (1, 0) ∷ []) ≡ Some 1 }
    ensures number_not_sent { packet_with (2, 0) 1 ((1, 0) ∷ (2, 0) ∷ (1, 0) ∷ []) ≡ None }
{}
