ghost use Rattle.std.specs.Prelude.{[], ◌∷◌, ◌++◌, IsTrue, codes, replicate};
ghost use Rattle.app_text.specs.Examples.{Spells, none_of};
ghost use Rattle.app_text.specs.MirrorTexts.{input_of, input_text, output_of, output_text};

use vst_base::{MirrorInput, MirrorOutput};

/// The texts of the mirror's inputs, and what is none.
pub fn worked_mirror_inputs()
    ensures put { Spells input_of input_text (codes "put a") (MirrorInput.Put (codes "a")) }
    ensures names_as_values { Spells input_of input_text (codes "put put") (MirrorInput.Put (codes "put")) }
    ensures marks_in_values { Spells input_of input_text (codes "put -=~!") (MirrorInput.Put (codes "-=~!")) }
    ensures longest { Spells input_of input_text (codes "put " ++ replicate 1024 97) (MirrorInput.Put (replicate 1024 97)) }

    ensures no_name { IsTrue (none_of input_of (codes "" ∷ codes "a" ∷ codes "puts a" ∷ codes "pu a" ∷ codes "Put a" ∷ codes "from a" ∷ [])) }
    ensures no_value { IsTrue (none_of input_of (codes "put" ∷ codes "put " ∷ [])) }
    ensures words_over { IsTrue (none_of input_of (codes "put a b" ∷ codes "put a b c" ∷ [])) }
    ensures spaces_over { IsTrue (none_of input_of (codes "put  a" ∷ codes " put a" ∷ codes "put a " ∷ [])) }
    ensures hidden_bytes { IsTrue (none_of input_of (codes "put a\n" ∷ codes "put\ta" ∷ (codes "put " ++ replicate 1 127) ∷ [])) }
    ensures too_long { IsTrue (none_of input_of ((codes "put " ++ replicate 1025 97) ∷ [])) }
{}

/// The texts of the mirror's outputs, and what is none.
pub fn worked_mirror_outputs()
    ensures from_the_first { Spells output_of output_text (codes "from 0 a") (MirrorOutput.From 0 (codes "a")) }
    ensures from_the_ninth { Spells output_of output_text (codes "from 8 a") (MirrorOutput.From 8 (codes "a")) }
    ensures digits_as_values { Spells output_of output_text (codes "from 1 2") (MirrorOutput.From 1 (codes "2")) }
    ensures longest { Spells output_of output_text (codes "from 3 " ++ replicate 1024 97) (MirrorOutput.From 3 (replicate 1024 97)) }

    ensures no_node { IsTrue (none_of output_of (codes "from 9 a" ∷ codes "from 10 a" ∷ codes "from / a" ∷ codes "from : a" ∷ codes "from x a" ∷ [])) }
    ensures other_numerals { IsTrue (none_of output_of (codes "from 01 a" ∷ codes "from 00 a" ∷ codes "from +1 a" ∷ codes "from -1 a" ∷ [])) }
    ensures no_name { IsTrue (none_of output_of (codes "" ∷ codes "1 a" ∷ codes "form 1 a" ∷ codes "froms 1 a" ∷ codes "From 1 a" ∷ [])) }
    ensures no_value { IsTrue (none_of output_of (codes "from" ∷ codes "from 1" ∷ codes "from 1 " ∷ codes "from a" ∷ [])) }
    ensures words_over { IsTrue (none_of output_of (codes "from 1 a b" ∷ codes "from 1 2 a" ∷ [])) }
    ensures spaces_over { IsTrue (none_of output_of
        (codes "from  1 a" ∷ codes "from 1  a" ∷ codes " from 1 a" ∷ codes "from 1 a " ∷ [])) }
    ensures hidden_bytes { IsTrue (none_of output_of (codes "from 1 a\n" ∷ codes "from 1\ta" ∷ [])) }
    ensures too_long { IsTrue (none_of output_of ((codes "from 3 " ++ replicate 1025 97) ∷ [])) }
{}
