ghost use Rattle.std.specs.Prelude.{◌≡◌, IfOk, IfSome, Some};
ghost use Rattle.check_text.specs.ImageLines.{IsHeaded, after_order, begins_as_act, counted_line, heads, image_header, order_says, step_says};
ghost use Rattle.line_reader.specs.Slices.{one};

use crate::trace_lines::first_word;
use crate::{ImageLine, ImageText};
use app_text::{AppText, TextFault};
use line_reader::cut_at;
use schedule_text::{Header, Line, SPACE, Why, header_of, line_says};
use std::alloc::{AllocError, Global};
use std::marker::PhantomData;
use vst_base::{MAX_STEPS, StackId, Step, stacks_have_one_word};

/// The lines of a schedule, by the texts of its inputs.
pub struct Steps<A> {
    texts: PhantomData<A>,
}

/// The lines of an order: the word `order` and the text of an input.
pub struct Orders<A> {
    texts: PhantomData<A>,
}

// Whether a line has the word of an act or of a stop.
fn begins_as_act(line: &[u8]) -> bool
    ensures { result ≡ begins_as_act line.now }
{
    let word = first_word(line);
    word == b"act".as_slice() || word == b"stop".as_slice()
}

impl<A: AppText> ImageText for Steps<A> {
    type Line = Step<A::Input>;

    ghost says = { step_says A.input_of };

    fn read_line(alloc: Global, line: &[u8]) -> Result<ImageLine<Step<A::Input>>, AllocError> {
        if begins_as_act(line) {
            return Ok(ImageLine::Refused(Why::UnknownWord));
        }
        match line_says::<A>(alloc, 0, line)? {
            Line::IsStep(step) => Ok(ImageLine::Says(step)),
            Line::Refused(why) => Ok(ImageLine::Refused(why)),
            Line::Skipped => Ok(ImageLine::Refused(Why::UnknownWord)),
        }
    }
}

// What stands after the word `order`.
fn after_order(line: &[u8]) -> Option<&[u8]>
    ensures { one result ≡ after_order line.now }
{
    match cut_at(line, SPACE) {
        Some((word, rest)) => {
            if word == b"order".as_slice() {
                Some(rest)
            } else {
                None
            }
        }
        None => None,
    }
}

impl<A: AppText> ImageText for Orders<A> {
    type Line = A::Input;

    ghost says = { order_says A.input_of };

    fn read_line(alloc: Global, line: &[u8]) -> Result<ImageLine<A::Input>, AllocError> {
        let Some(text) = after_order(line) else {
            return Ok(ImageLine::Refused(Why::UnknownWord));
        };
        match A::read_input(alloc, text) {
            Ok(input) => Ok(ImageLine::Says(input)),
            Err(TextFault::NotText) => Ok(ImageLine::Refused(Why::Text)),
            Err(TextFault::Memory) => Err(AllocError),
        }
    }
}

// Whether an image has headers of schedules of this stack.
fn heads(below: Option<StackId>, stack: StackId) -> bool
    ensures { result ≡ heads below stack }
{
    match below {
        Some(own) => own.word() == stack.word(),
        None => false,
    }
}

/// The header of an image that a line is. `None` comes exactly where it is none.
pub(crate) fn image_header(below: Option<StackId>, line: &[u8]) -> Option<Header>
    ensures header { result ≡ image_header below line.now }
    ensures headed { IfSome result (λ header. IsHeaded below (Some header)) }
{
    stacks_have_one_word();
    let header = header_of(line)?;
    if heads(below, header.stack) {
        Some(header)
    } else {
        None
    }
}

/// What a line of an image is after so many others.
pub(crate) fn counted_line<G: ImageText>(
    alloc: Global,
    count: usize,
    line: &[u8],
) -> Result<ImageLine<G::Line>, AllocError>
    ensures { IfOk result (λ said. said ≡ counted_line G.says count line.now) }
{
    if count >= MAX_STEPS as usize {
        return Ok(ImageLine::Refused(Why::TooManyEvents));
    }
    G::read_line(alloc, line)
}
