ghost use Rattle.std.specs.Prelude.{◌≡◌, true, false, [], ◌∷◌, ◌++◌, None, Some, IsTrue, codes, replicate};
ghost use Rattle.app_text.specs.Examples.{Spells, none_of};
ghost use Rattle.app_text.specs.PbTexts.{pb_output_of, pb_output_text};
ghost use Rattle.app_text.specs.TableTexts.{input_of, input_text, output_of, output_text};
ghost use Rattle.lock_table.specs.Table.{told};

use lock_table::TableCmd;
use vst_base::PbOut;

/// The texts of the lock table's commands, and what is none.
pub fn worked_table_commands()
    ensures acquire { Spells input_of input_text (codes "acquire l bob") (TableCmd.Acquire (codes "l") (codes "bob")) }
    ensures release { Spells input_of input_text (codes "release l bob") (TableCmd.Release (codes "l") (codes "bob")) }
    ensures holder { Spells input_of input_text (codes "holder l") (TableCmd.Holder (codes "l")) }
    ensures marks_in_tokens { Spells input_of input_text (codes "acquire - =") (TableCmd.Acquire (codes "-") (codes "=")) }
    ensures commands_as_names { Spells input_of input_text (codes "holder holder") (TableCmd.Holder (codes "holder")) }

    ensures no_command { IsTrue (none_of input_of (codes "" ∷ codes "l" ∷ codes "get l" ∷ codes "holders l" ∷ codes "acquir l bob" ∷ [])) }
    ensures other_case { IsTrue (none_of input_of (codes "Acquire l bob" ∷ codes "RELEASE l bob" ∷ codes "Holder l" ∷ [])) }
    ensures words_missing { IsTrue (none_of input_of (codes "acquire" ∷ codes "acquire l" ∷ codes "release l" ∷ codes "holder" ∷ [])) }
    ensures words_over { IsTrue (none_of input_of (codes "acquire l bob al" ∷ codes "release l bob al" ∷ codes "holder l bob" ∷ [])) }
    ensures spaces_over { IsTrue (none_of input_of
        (codes "acquire  l bob" ∷ codes "acquire l  bob" ∷ codes " holder l" ∷ codes "holder l " ∷ [])) }
    ensures empty_name { IsTrue (none_of input_of (codes "holder " ∷ codes "acquire  bob" ∷ codes "release  bob" ∷ [])) }
    ensures empty_owner { IsTrue (none_of input_of (codes "acquire l " ∷ codes "release l " ∷ [])) }
    ensures hidden_bytes { IsTrue (none_of input_of
        (codes "holder l\n" ∷ codes "acquire l bob\t" ∷ (codes "holder " ++ replicate 1 127) ∷ [])) }

    ensures longest_name { Spells input_of input_text (codes "holder " ++ replicate 64 97) (TableCmd.Holder (replicate 64 97)) }
    ensures longest_owner { Spells input_of input_text (codes "acquire l " ++ replicate 64 97)
        (TableCmd.Acquire (codes "l") (replicate 64 97)) }
    ensures both_longest { Spells input_of input_text (codes "release " ++ replicate 64 97 ++ codes " " ++ replicate 64 98)
        (TableCmd.Release (replicate 64 97) (replicate 64 98)) }
    ensures name_too_long { IsTrue (none_of input_of
        ((codes "holder " ++ replicate 65 97) ∷ (codes "acquire " ++ replicate 65 97 ++ codes " o") ∷ [])) }
    ensures owner_too_long { IsTrue (none_of input_of
        ((codes "acquire l " ++ replicate 65 97) ∷ (codes "release l " ++ replicate 65 97) ∷ [])) }
{}

/// The texts of the lock table's outputs, alone and under primary-backup, and what is none.
pub fn worked_table_outputs()
    ensures held { Spells output_of output_text (codes "l =bob yes") (told (codes "l") (Some (codes "bob")) true) }
    ensures refused { Spells output_of output_text (codes "l =bob no") (told (codes "l") (Some (codes "bob")) false) }
    ensures freed { Spells output_of output_text (codes "l - yes") (told (codes "l") None true) }
    ensures free { Spells output_of output_text (codes "l - no") (told (codes "l") None false) }
    ensures marks_in_tokens { Spells output_of output_text (codes "- =- yes") (told (codes "-") (Some (codes "-")) true) }
    ensures answers_as_names { Spells output_of output_text (codes "yes =no no") (told (codes "yes") (Some (codes "no")) false) }

    ensures no_answer { IsTrue (none_of output_of (codes "l =bob" ∷ codes "l =bob " ∷ codes "l - -" ∷ codes "l - =no" ∷ [])) }
    ensures almost_yes { IsTrue (none_of output_of (codes "l =bob ye" ∷ codes "l =bob yess" ∷ codes "l =bob es" ∷ [])) }
    ensures almost_no { IsTrue (none_of output_of (codes "l - n" ∷ codes "l - noo" ∷ codes "l - on" ∷ [])) }
    ensures other_case { IsTrue (none_of output_of (codes "l =bob Yes" ∷ codes "l =bob YES" ∷ codes "l - No" ∷ [])) }
    ensures no_holder { IsTrue (none_of output_of (codes "l yes" ∷ codes "l bob yes" ∷ codes "l = yes" ∷ codes "l -- no" ∷ [])) }
    ensures no_name { IsTrue (none_of output_of (codes "" ∷ codes " - no" ∷ codes "=bob yes" ∷ [])) }
    ensures words_over { IsTrue (none_of output_of (codes "l =bob yes yes" ∷ codes "l =bob yes no" ∷ codes "l - no no" ∷ [])) }
    ensures spaces_over { IsTrue (none_of output_of
        (codes " l =bob yes" ∷ codes "l  =bob yes" ∷ codes "l =bob  yes" ∷ codes "l =bob yes " ∷ [])) }

    ensures longest_name { Spells output_of output_text (replicate 64 97 ++ codes " - no") (told (replicate 64 97) None false) }
    ensures longest_holder { Spells output_of output_text (codes "l =" ++ replicate 64 97 ++ codes " yes")
        (told (codes "l") (Some (replicate 64 97)) true) }
    ensures too_long { IsTrue (none_of output_of
        ((replicate 65 97 ++ codes " - no") ∷ (codes "l =" ++ replicate 65 97 ++ codes " yes") ∷ [])) }

    ensures reply { Spells (pb_output_of output_of) (pb_output_text output_text) (codes "l =bob yes")
        (PbOut.Reply (told (codes "l") (Some (codes "bob")) true)) }
    ensures redirect { Spells (pb_output_of output_of) (pb_output_text output_text) (codes "redirect") PbOut.Redirect }
    ensures redirect_as_name { pb_output_of output_of (codes "redirect - no") ≡ Some (PbOut.Reply (told (codes "redirect") None false)) }
{}
