use crate::gathered::Gathered;
use crate::stepping::take;
use crate::{Leads, Told};
use app_text::AppText;
use drawing::Picture;
use handler_trait::Handlers;
use outside_mem::SteadySource;
use schedule_text::{MAX_LINES, ReadFault, Reader, TextFault, read_header, read_step};
use std::alloc::{AllocError, Global};
use vst_base::Step;

/// How many steps are drawn at most.
pub const MAX_ROWS: u16 = 2_000;

/// A text of which the header was read: that line, and what is left.
#[derive(Drop)]
pub(crate) struct Rest {
    pub(crate) alloc: Global,
    title: Vec<u8>,
    reader: Reader,
    source: SteadySource,
}

// The next step of a text, if one is left.
fn next_step<A: AppText>(
    alloc: Global,
    reader: &mut Reader,
    source: &mut SteadySource,
) -> Result<Option<Step<A::Input>>, AllocError> {
    match read_step::<A, SteadySource>(alloc, reader, source) {
        Ok(step) => Ok(Some(step)),
        Err(ReadFault::Memory) => Err(AllocError),
        Err(_) => Ok(None),
    }
}

impl Rest {
    /// The picture of the steps that are left, up to where they end, on this network.
    pub(crate) fn draw<H, W, A>(self, mut network: W) -> Result<Picture, AllocError>
    where
        H: Handlers<Input = A::Input, Output = Told<A::Output>>,
        W: Leads<H>,
        A: AppText,
        requires { W.sound network }
    {
        let Rest {
            alloc,
            title,
            mut reader,
            mut source,
        } = self;
        let mut gathered = Gathered::new(alloc, title, network.handlers().nodes())?;
        for _ in 0..MAX_ROWS {
            let Some(step) = next_step::<A>(alloc, &mut reader, &mut source)? else {
                break;
            };
            if !take::<H, W>(&mut network, &step)? {
                break;
            }
            gathered.add::<H, W, A>(&network, &step)?;
        }
        gathered.finish()
    }
}

/// The picture of a text: its steps up to the first line that is refused, `MAX_ROWS` at most. That of a text without a header is empty.
pub fn picture_of(alloc: Global, text: Vec<u8>) -> Result<Picture, AllocError> {
    let mut source = SteadySource::new(text);
    let mut reader = Reader::new(alloc, MAX_LINES)?;
    match read_header(&mut reader, &mut source) {
        Ok(header) => {
            let title = reader.line().to_vec(alloc)?;
            let rest = Rest {
                alloc,
                title,
                reader,
                source,
            };
            rest.draw_stack(&header)
        }
        Err(TextFault::Memory) => Err(AllocError),
        Err(_) => Gathered::new(alloc, Vec::new(alloc), 0)?.finish(),
    }
}
