ghost use Rattle.std.specs.Prelude.{◌≡◌, ℕ, List, [], ◌∷◌, ◌++◌, Some, codes, length, replicate};
ghost use Rattle.app_text.specs.LockTexts.{input_of, output_of};
ghost use Rattle.check_text.specs.Forms.{claim_of, form_of, image_from, with_header};
ghost use Rattle.check_text.specs.ImageLines.{line_of_image, order_says, step_says};
ghost use Rattle.check_text.specs.Outcomes.{IsDecidedBy};
ghost use Rattle.check_text.specs.Reading.{EndedAt, RefusedAt, Whole};
ghost use Rattle.check_text.specs.TraceLines.{trace_line};
ghost use Rattle.check_text.specs.declared.image_line.ImageLine.TheVariants as image;
ghost use Rattle.check_text.specs.declared.trace_line.TraceLine.TheVariants as line;
ghost use Rattle.vst_base.specs.declared.step.Item.TheVariants as item;
ghost use Rattle.vst_base.specs.declared.step.Step.TheVariants as step;

use schedule_text::Why;
use vst_base::{LockInput, LockOutput, StackId};

/// What a line of a trace is, at the borders of its limits and by the order of its refusals.
pub fn worked_trace_lines()
    ensures below { trace_line input_of output_of 9 8000000 1000000 (codes "below") ≡ line.Below }
    ensures one_line_too_many { trace_line input_of output_of 9 8000001 0 (codes "below") ≡ line.Refused Why.TooManyEvents }
    ensures last_input { trace_line input_of output_of 9 1 999999 (codes "in 8 lock") ≡ line.IsItem (item.Input 8 LockInput.Lock) }
    ensures one_input_too_many { trace_line input_of output_of 9 1 1000000 (codes "in 8 lock") ≡ line.Refused Why.TooManyEvents }
    ensures one_too_many_whatever_follows { trace_line input_of output_of 9 1 1000000 (codes "in") ≡ line.Refused Why.TooManyEvents }
    ensures inputs_alone_are_counted { trace_line input_of output_of 9 1 1000000 (codes "out 8 locked") ≡ line.IsItem (item.Output 8 LockOutput.Locked) }
    ensures other_words_are_not_counted { trace_line input_of output_of 9 1 1000000 (codes "inn 8 lock") ≡ line.Refused Why.UnknownWord }
    ensures longest { trace_line input_of output_of 9 1 0 (codes "in 1 " ++ replicate 4091 97) ≡ line.Refused Why.Text }
    ensures too_long_before_too_many { trace_line input_of output_of 9 8000001 1000000 (codes "in 1 " ++ replicate 4092 97) ≡ line.Refused Why.LineTooLong }
    ensures word_before_number { trace_line input_of output_of 9 1 0 (codes "on 01 grab") ≡ line.Refused Why.UnknownWord }
    ensures number_before_node { trace_line input_of output_of 9 1 0 (codes "in 09 grab") ≡ line.Refused Why.Number }
    ensures too_great_a_number { trace_line input_of output_of 9 1 0 (codes "in 4294967296 lock") ≡ line.Refused Why.Number }
    ensures node_before_text { trace_line input_of output_of 9 1 0 (codes "in 9 grab") ≡ line.Refused Why.NoSuchNode }
    ensures text_last { trace_line input_of output_of 9 1 0 (codes "in 8 grab") ≡ line.Refused Why.Text }
{}

/// What a line of an image is, at the borders of its limits.
pub fn worked_image_lines()
    ensures last_line { line_of_image (step_says input_of) 8000000 999999 (codes "deliver 4294967295") ≡ image.Says (step.Deliver 4294967295) }
    ensures one_line_too_many { line_of_image (step_says input_of) 8000001 0 (codes "deliver 0") ≡ image.Refused Why.TooManyEvents }
    ensures one_step_too_many { line_of_image (step_says input_of) 1 1000000 (codes "deliver 0") ≡ image.Refused Why.TooManyEvents }
    ensures one_too_many_whatever_it_holds { line_of_image (step_says input_of) 1 1000000 (codes "# nothing") ≡ image.Refused Why.TooManyEvents }
    ensures nodes_are_not_tried { line_of_image (step_says input_of) 1 0 (codes "in 77 lock") ≡ image.Says (step.In 77 LockInput.Lock) }
    ensures comment { line_of_image (step_says input_of) 1 0 (codes "# nothing") ≡ image.Refused Why.UnknownWord }
    ensures acts_are_unknown { (line_of_image (step_says input_of) 1 0 (codes "act 0") ≡ image.Refused Why.UnknownWord) × (line_of_image (step_says input_of) 1 0 (codes "act x") ≡ image.Refused Why.UnknownWord) × (line_of_image (step_says input_of) 1 0 (codes "act") ≡ image.Refused Why.UnknownWord) }
    ensures stops_are_unknown { (line_of_image (step_says input_of) 1 0 (codes "stop 0 1") ≡ image.Refused Why.UnknownWord) × (line_of_image (step_says input_of) 1 0 (codes "stop x 1") ≡ image.Refused Why.UnknownWord) × (line_of_image (step_says input_of) 1 0 (codes "stop 0") ≡ image.Refused Why.UnknownWord) }
    ensures acts_are_counted { (line_of_image (step_says input_of) 1 1000000 (codes "act 0") ≡ image.Refused Why.TooManyEvents) × (line_of_image (step_says input_of) 1 999999 (codes "act 0") ≡ image.Refused Why.UnknownWord) }
    ensures number_before_text { line_of_image (step_says input_of) 1 0 (codes "in x grab") ≡ image.Refused Why.Number }
    ensures order { line_of_image (order_says input_of) 1 0 (codes "order lock") ≡ image.Says LockInput.Lock }
    ensures other_word { line_of_image (order_says input_of) 1 0 (codes "orders lock") ≡ image.Refused Why.UnknownWord }
    ensures one_request_too_many { line_of_image (order_says input_of) 1 1000000 (codes "order lock") ≡ image.Refused Why.TooManyEvents }
    ensures order_alone { line_of_image (order_says input_of) 1 0 (codes "order") ≡ image.Refused Why.UnknownWord }
    ensures order_without_a_text { line_of_image (order_says input_of) 1 0 (codes "order ") ≡ image.Refused Why.Text }
{}

/// Where a text ends too early, and where its header is refused.
pub fn worked_ends()
    ensures nothing { claim_of (form_of 9 input_of output_of (Some StackId.Lock) (step_says input_of)) [] ≡ EndedAt 1 }
    ensures no_header { with_header (form_of 9 input_of output_of (Some StackId.Lock) (step_says input_of)) (Some StackId.Lock) 8000001 [] ≡ EndedAt 8000001 }
    ensures header_past_the_last_line { with_header (form_of 9 input_of output_of (Some StackId.Lock) (step_says input_of)) (Some StackId.Lock) 8000001 (codes "schedule 1 bag lock 2" ∷ []) ≡ RefusedAt 8000001 Why.TooManyEvents }
    ensures header_too_long { claim_of (form_of 9 input_of output_of (Some StackId.Lock) (step_says input_of)) (codes "below" ∷ replicate 4097 97 ∷ []) ≡ RefusedAt 2 Why.LineTooLong }
    ensures no_line_of_an_image { image_from (step_says input_of) 8000001 0 [] ≡ Whole [] }
{}

/// How much of a text may be given where its first line is refused: 4,096 bytes past the newline that ends it, and not one more.
pub fn worked_reads()
    ensures to_its_newline { IsDecidedBy (Some (codes "in 1")) (codes "on 1 lock\nin 1") 1 }
    ensures to_the_border { (rest : List ℕ) → length rest ≡ 4096 → IsDecidedBy (Some []) (codes "on 1 lock\n" ++ rest) 1 }
    ensures past_the_border { (rest : List ℕ) → length rest ≡ 4097 → IsDecidedBy (Some []) (codes "on 1 lock\n" ++ rest) 1 → ⊥ }
    ensures nothing_is_left_to_tell { IsDecidedBy None (codes "on 1 lock\n") 1 → ⊥ }
{}
