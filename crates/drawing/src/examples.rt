ghost use Rattle.std.specs.Prelude.{◌≡◌, [], ◌∷◌, codes};
ghost use Rattle.drawing.specs.Escaping.{escaped};

/// Texts as they stand in a picture.
pub fn worked()
    ensures plain { escaped (codes "put a x") ≡ codes "put a x" }
    ensures named { escaped (codes "a<b>&'c'") ≡ codes "a&lt;b&gt;&amp;&#39;c&#39;" }
    ensures quoted { escaped (34 ∷ []) ≡ codes "&quot;" }
    ensures named_again { escaped (codes "&lt;") ≡ codes "&amp;lt;" }
    ensures edges { escaped (31 ∷ 32 ∷ 126 ∷ 127 ∷ 10 ∷ 255 ∷ []) ≡ codes "? ~???" }
{}
