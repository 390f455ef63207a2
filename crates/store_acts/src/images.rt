ghost use Rattle.std.specs.Prelude.{◌≡◌, []};
ghost use Rattle.disk.specs.Areas.{area_at};
ghost use Rattle.slots.specs.Opening.{named};
ghost use Rattle.store_acts.specs.PendingAreas.{image_of};

use crate::AreaId;
use std::alloc::Global;

/// The bytes of three areas, as a crash leaves them or as an opening finds them.
#[derive(Drop)]
pub struct Image {
    pub slot0: Vec<u8>,
    pub slot1: Vec<u8>,
    pub selector: Vec<u8>,
}

impl Image {
    /// Areas without a byte, as before a first opening.
    pub fn empty(alloc: Global) -> Self
        ensures { image_of result ≡ record { slot0 = []; slot1 = []; selector = [] } }
    {
        Image {
            slot0: Vec::new(alloc),
            slot1: Vec::new(alloc),
            selector: Vec::new(alloc),
        }
    }

    /// The bytes of the slot that a selector names.
    pub fn slot(&self, selector: u8) -> &[u8]
        ensures { result.now ≡ area_at (image_of self.now) (named selector) }
    {
        match AreaId::named(selector) {
            AreaId::Slot0 => &self.slot0,
            AreaId::Slot1 => &self.slot1,
            AreaId::Selector => &self.selector,
        }
    }
}
