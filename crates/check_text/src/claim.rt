ghost use Rattle.std.specs.Prelude.{◌≡◌};

use schedule_text::Header;
use std::marker::Model;
use vst_base::Item;

/// A claim that was read: a trace, and an image that is to explain it. Contracts see the lists.
#[derive(Drop)]
pub struct Claim<I: Drop, O: Drop, X: Drop> {
    pub(crate) trace: Vec<Item<I, O>>,
    pub(crate) header: Option<Header>,
    pub(crate) image: Vec<X>,
}

impl<I: Drop, O: Drop, X: Drop> Model for Claim<I, O, X> {
    ghost use Rattle.check_text.specs.Claims.{Claim};

    ghost Value = { Claim I O X };

    ghost view = { λ c. record {
      trace = c.trace.items;
      header = c.header;
      image = c.image.items;
    } };
}

impl<I: Drop, O: Drop, X: Drop> Claim<I, O, X> {
    /// What clients are claimed to have seen.
    pub fn trace(&self) -> &[Item<I, O>]
        ensures { result.now ≡ self.now.trace }
    {
        &self.trace
    }

    /// The header of the image, if it has one.
    pub fn header(&self) -> Option<Header>
        ensures { result ≡ self.now.header }
    {
        self.header
    }

    /// The other lines of the image.
    pub fn image(&self) -> &[X]
        ensures { result.now ≡ self.now.image }
    {
        &self.image
    }
}
