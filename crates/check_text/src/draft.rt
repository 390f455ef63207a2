ghost use Rattle.std.specs.Prelude.{◌≡◌, ◌+◌, ◌<◌, ◌++◌, ◌∷◌, [], OnOk, Some, None, length, if◌then◌else◌};
ghost use Rattle.check_text.specs.Drafts.{IsStaged, no_lines};
ghost use Rattle.check_text.specs.TraceLines.{count_item};

use crate::Claim;
use crate::stage::Stage;
use schedule_text::Header;
use std::alloc::{AllocError, Global};
use std::marker::Model;
use vst_base::Item;

/// A claim of which some lines were read. Contracts see the lists.
#[derive(Drop)]
pub(crate) struct Draft<I: Drop, O: Drop, X: Drop> {
    trace: Vec<Item<I, O>>,
    inputs: usize,
    stage: Stage,
    header: Option<Header>,
    image: Vec<X>,
}

impl<I: Drop, O: Drop, X: Drop> Model for Draft<I, O, X> {
    ghost use Rattle.std.specs.Prelude.{◌≡◌, ◌≢◌, ◌≤◌, length, true, vec_len, is_none};
    ghost use Rattle.check_text.specs.Drafts.{Draft};
    ghost use Rattle.check_text.specs.declared.stage.Stage.TheVariants.{Image, Trace};

    ghost Value = { Draft I O X };

    ghost view = { λ d. record {
      trace = d.trace.items;
      inputs = d.inputs;
      stage = d.stage;
      header = d.header;
      image = d.image.items;
    } };

    ghost invariant = { λ d. (d.inputs ≤ vec_len d.trace) × (d.stage ≢ Image → length d.image.items ≡ 0)
        × (d.stage ≡ Trace → is_none d.header ≡ true) };
}

impl<I: Drop, O: Drop, X: Drop> Draft<I, O, X> {
    /// No line was read yet.
    pub fn new(alloc: Global) -> Self
        ensures { result ≡ no_lines }
    {
        Draft {
            trace: Vec::new(alloc),
            inputs: 0,
            stage: Stage::Trace,
            header: None,
            image: Vec::new(alloc),
        }
    }

    /// Where the next line belongs.
    pub fn stage(&self) -> Stage
        ensures stage { result ≡ self.now.stage }
        ensures staged { IsStaged self.now }
    {
        self.stage
    }

    /// How many inputs the trace has so far.
    pub fn inputs(&self) -> usize
        ensures { result ≡ self.now.inputs }
    {
        self.inputs
    }

    /// How many lines the image has so far, but for its header.
    pub fn image_lines(&self) -> usize
        ensures { result ≡ length self.now.image }
    {
        self.image.len()
    }

    /// Adds an item to the trace.
    pub fn add_item(&mut self, item: Item<I, O>) -> Result<(), AllocError>
        ensures { OnOk result (self.new ≡ record self.old {
          trace = self.old.trace ++ item ∷ [];
          inputs = count_item self.old.inputs item;
        }) }
    {
        let more = usize::from(matches!(item, Item::Input(_, _)));
        self.trace.push(item)?;
        self.inputs += more;
        Ok(())
    }

    /// The trace is whole, and an image with a header or without one follows.
    pub fn end_trace(&mut self, has_header: bool)
        requires { self.old.stage ≡ Stage.Trace }
        ensures { self.new ≡ record self.old { stage = (if has_header then Stage.Header else Stage.Image) } }
    {
        self.stage = if has_header {
            Stage::Header
        } else {
            Stage::Image
        };
    }

    /// The image has this header, and its other lines follow.
    pub fn set_header(&mut self, header: Header)
        ensures { self.new ≡ record self.old { stage = Stage.Image; header = Some header } }
    {
        self.header = Some(header);
        self.stage = Stage::Image;
    }

    /// Adds a line to the image.
    pub fn add_line(&mut self, line: X) -> Result<(), AllocError>
        requires { self.old.stage ≡ Stage.Image }
        ensures { OnOk result (self.new ≡ record self.old { image = self.old.image ++ line ∷ [] }) }
    {
        self.image.push(line)?;
        Ok(())
    }

    /// The claim that it is.
    pub fn into_claim(self) -> Claim<I, O, X>
        ensures { result ≡ record { trace = self.trace; header = self.header; image = self.image } }
    {
        Claim {
            trace: self.trace,
            header: self.header,
            image: self.image,
        }
    }
}
