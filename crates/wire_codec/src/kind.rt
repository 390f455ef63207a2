ghost use Rattle.std.specs.Prelude.{◌≡◌};
ghost use Rattle.wire_codec.specs.Headings.{kind_byte, most_from, most_to};

/// Who sends a datagram, and to whom.
#[derive(Clone, Copy, Debug, PartialEq, Eq)]
pub enum Kind {
    /// A node to another.
    Peer,
    /// A client to a node of a cluster.
    Request,
    /// A node of a cluster to a client.
    Reply,
}

impl Kind {
    /// Its byte.
    pub fn byte(self) -> u8
        ensures { result ≡ kind_byte self }
    {
        match self {
            Kind::Peer => 0,
            Kind::Request => 1,
            Kind::Reply => 2,
        }
    }

    /// The greatest number of the node or client that sends.
    pub fn most_from(self) -> u8
        ensures { result ≡ most_from self }
    {
        match self {
            Kind::Peer | Kind::Reply => 8,
            Kind::Request => 254,
        }
    }

    /// The greatest number of the node or client that it is sent to.
    pub fn most_to(self) -> u8
        ensures { result ≡ most_to self }
    {
        match self {
            Kind::Peer | Kind::Request => 8,
            Kind::Reply => 254,
        }
    }
}
