ghost use Rattle.std.specs.Prelude.{◌≡◌, ℕ, List, Some, true};
ghost use Rattle.std.specs.Str.{bytes_eq};
ghost use Rattle.vst_base.specs.Stacks.{row_of, stack_named, stack_word};
ghost use Rattle.vst_base.specs.declared.stack.StackId.{StackId as SpecId};

/// Each stack has one word, which no other has, and a row of its own.
pub fn stacks_have_one_word()
    ensures named { (s : SpecId) → stack_named (stack_word s) ≡ Some s }
    ensures one_word { (word : List ℕ) (s : SpecId) → stack_named word ≡ Some s → stack_word s ≡ word }
    ensures apart { (s t : SpecId) → bytes_eq (stack_word s) (stack_word t) ≡ true → s ≡ t }
    ensures own_row { (s : SpecId) → (row_of s).stack ≡ s }
{}
