ghost use Rattle.std.specs.Prelude.{◌≡◌, ◌++◌, None, Some, codes, replicate};
ghost use Rattle.app_text.specs.KvTexts.{input_of, input_text, kv_out, output_of, output_text};
ghost use Rattle.app_text.specs.PbTexts.{pb_output_of, pb_output_text};

use kv_machine::KvCmd;
use vst_base::PbOut;

/// The texts of commands, and what is none.
pub fn worked_commands()
    ensures get { (input_of (codes "get a") ≡ Some (KvCmd.Get (codes "a"))) × (input_text (KvCmd.Get (codes "a")) ≡ codes "get a") }
    ensures put { (input_of (codes "put a x") ≡ Some (KvCmd.Put (codes "a") (codes "x"))) × (input_text (KvCmd.Put (codes "a") (codes "x")) ≡ codes "put a x") }
    ensures del { (input_of (codes "del a") ≡ Some (KvCmd.Del (codes "a"))) × (input_text (KvCmd.Del (codes "a")) ≡ codes "del a") }
    ensures cas_of_none { (input_of (codes "cas a - x") ≡ Some (KvCmd.Cas (codes "a") None (codes "x"))) × (input_text (KvCmd.Cas (codes "a") None (codes "x")) ≡ codes "cas a - x") }
    ensures cas_of_some { (input_of (codes "cas a =y x") ≡ Some (KvCmd.Cas (codes "a") (Some (codes "y")) (codes "x"))) × (input_text (KvCmd.Cas (codes "a") (Some (codes "y")) (codes "x")) ≡ codes "cas a =y x") }
    ensures cad { (input_of (codes "cad a x") ≡ Some (KvCmd.Cad (codes "a") (codes "x"))) × (input_text (KvCmd.Cad (codes "a") (codes "x")) ≡ codes "cad a x") }
    ensures marks_in_tokens { (input_of (codes "put - =") ≡ Some (KvCmd.Put (codes "-") (codes "="))) × (input_of (codes "cas a =- x") ≡ Some (KvCmd.Cas (codes "a") (Some (codes "-")) (codes "x"))) }

    ensures no_name { (input_of (codes "") ≡ None) × (input_of (codes "a") ≡ None) × (input_of (codes "Get a") ≡ None) × (input_of (codes "gets a") ≡ None) }
    ensures words_missing { (input_of (codes "get") ≡ None) × (input_of (codes "put a") ≡ None) × (input_of (codes "cas a x") ≡ None) × (input_of (codes "cad a") ≡ None) }
    ensures words_over { (input_of (codes "get a b") ≡ None) × (input_of (codes "put a x y") ≡ None) × (input_of (codes "cas a - x y") ≡ None) × (input_of (codes "cad a x y") ≡ None) }
    ensures spaces_over { (input_of (codes "get  a") ≡ None) × (input_of (codes " get a") ≡ None) × (input_of (codes "get a ") ≡ None) × (input_of (codes "put a  x") ≡ None) }
    ensures empty_key { (input_of (codes "get ") ≡ None) × (input_of (codes "put  x") ≡ None) }
    ensures no_optional { (input_of (codes "cas a = x") ≡ None) × (input_of (codes "cas a y x") ≡ None) × (input_of (codes "cas a -- x") ≡ None) }
    ensures hidden_bytes { (input_of (codes "get " ++ replicate 1 127) ≡ None) × (input_of (codes "get a\n") ≡ None) × (input_of (codes "put a x\t") ≡ None) }
    ensures longest_key { input_of (codes "get " ++ replicate 64 97) ≡ Some (KvCmd.Get (replicate 64 97)) }
    ensures key_too_long { input_of (codes "get " ++ replicate 65 97) ≡ None }
    ensures longest_value { input_of (codes "put a " ++ replicate 1024 97) ≡ Some (KvCmd.Put (codes "a") (replicate 1024 97)) }
    ensures value_too_long { input_of (codes "put a " ++ replicate 1025 97) ≡ None }
{}

/// The texts of outputs, alone and under primary-backup, and what is none.
pub fn worked_outputs()
    ensures nothing { (output_of (codes "a - -") ≡ Some (kv_out (codes "a") None None)) × (output_text (kv_out (codes "a") None None) ≡ codes "a - -") }
    ensures after { (output_of (codes "a =x -") ≡ Some (kv_out (codes "a") (Some (codes "x")) None)) × (output_text (kv_out (codes "a") (Some (codes "x")) None) ≡ codes "a =x -") }
    ensures before { (output_of (codes "a - =x") ≡ Some (kv_out (codes "a") None (Some (codes "x")))) × (output_text (kv_out (codes "a") None (Some (codes "x"))) ≡ codes "a - =x") }
    ensures both { (output_of (codes "a =x =y") ≡ Some (kv_out (codes "a") (Some (codes "x")) (Some (codes "y")))) × (output_text (kv_out (codes "a") (Some (codes "x")) (Some (codes "y"))) ≡ codes "a =x =y") }
    ensures no_output { (output_of (codes "") ≡ None) × (output_of (codes "a -") ≡ None) × (output_of (codes "a - - -") ≡ None) × (output_of (codes "a - - ") ≡ None) × (output_of (codes "a x -") ≡ None) × (output_of (codes " - -") ≡ None) }
    ensures no_value { (output_of (codes "a = -") ≡ None) × (output_of (codes "a - =") ≡ None) × (output_of (codes "redirect") ≡ None) }
    ensures longest { output_of (replicate 64 97 ++ codes " - =" ++ replicate 1024 97) ≡ Some (kv_out (replicate 64 97) None (Some (replicate 1024 97))) }
    ensures too_long { (output_of (replicate 65 97 ++ codes " - -") ≡ None) × (output_of (codes "a - =" ++ replicate 1025 97) ≡ None) }

    ensures reply { (pb_output_of output_of (codes "a =x -") ≡ Some (PbOut.Reply (kv_out (codes "a") (Some (codes "x")) None))) × (pb_output_text output_text (PbOut.Reply (kv_out (codes "a") (Some (codes "x")) None)) ≡ codes "a =x -") }
    ensures redirect { (pb_output_of output_of (codes "redirect") ≡ Some PbOut.Redirect) × (pb_output_text output_text PbOut.Redirect ≡ codes "redirect") }
    ensures redirect_as_key { pb_output_of output_of (codes "redirect - -") ≡ Some (PbOut.Reply (kv_out (codes "redirect") None None)) }
    ensures no_reply { (pb_output_of output_of (codes "redirect ") ≡ None) × (pb_output_of output_of (codes "redirec") ≡ None) × (pb_output_of output_of (codes "a") ≡ None) }
{}
