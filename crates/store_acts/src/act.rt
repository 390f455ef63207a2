ghost use Rattle.std.specs.Prelude.{◌≡◌, ◌<◌};
ghost use Rattle.slots.specs.Opening.{named, other};
ghost use Rattle.store_acts.specs.StoreActs.{number_of};

/// One of the three areas of a node.
#[derive(Clone, Copy, Debug, PartialEq, Eq)]
pub enum AreaId {
    Slot0,
    Slot1,
    Selector,
}

impl AreaId {
    /// Its number, by which a device knows it.
    pub fn number(self) -> u8
        ensures number { result ≡ number_of self }
        ensures few { result < 3 }
    {
        match self {
            AreaId::Slot0 => 0,
            AreaId::Slot1 => 1,
            AreaId::Selector => 2,
        }
    }

    /// The slot that a selector names.
    pub fn named(selector: u8) -> Self
        ensures { number_of result ≡ named selector }
    {
        if selector % 2 == 0 {
            AreaId::Slot0
        } else {
            AreaId::Slot1
        }
    }

    /// The slot that it does not name.
    pub fn other(selector: u8) -> Self
        ensures { number_of result ≡ other selector }
    {
        if selector % 2 == 0 {
            AreaId::Slot1
        } else {
            AreaId::Slot0
        }
    }
}

/// An act on the areas of a node.
#[derive(Drop)]
pub enum StoreAct {
    /// These bytes are written into an area at a place.
    Write(AreaId, u64, Vec<u8>),
    /// An area is cut to a length.
    Cut(AreaId, u64),
    /// An area is synced.
    Sync(AreaId),
}
