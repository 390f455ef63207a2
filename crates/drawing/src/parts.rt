/// A place in a picture: twice the number of a node, so that odd ones lie between two nodes, and a row from 0.
#[derive(Clone, Copy)]
pub struct Spot {
    pub column: u16,
    pub row: u16,
}

/// What a step is marked by.
#[derive(Clone, Copy)]
pub enum Mark {
    /// A client gives a node an input.
    Input,
    /// A packet comes to its destination.
    Delivery,
    /// A timer fires.
    Timer,
    /// A packet is copied.
    Copy,
    /// A packet is lost.
    Loss,
    /// A node stops.
    Crash,
    /// A node starts again.
    Reboot,
}

/// A step: what it is called, where it is marked, from which column a packet comes there, what the node is asked or hears, and what it
/// tells then.
#[derive(Drop)]
pub struct Row {
    pub label: Vec<u8>,
    pub mark: Mark,
    pub column: u16,
    pub from: u16,
    pub heard: Vec<u8>,
    pub told: Vec<u8>,
}

/// The way of a packet from one place to another, where the mark of its row says what becomes of it, and the packet's number.
#[derive(Clone, Copy)]
pub struct Arrow {
    pub from: Spot,
    pub to: Spot,
    pub mark: Mark,
    pub packet: u32,
}

/// A packet no copy of which has come or is lost when the steps end: where it was sent, the column of its destination, and its number.
#[derive(Clone, Copy)]
pub struct Stub {
    pub from: Spot,
    pub to: u16,
    pub packet: u32,
}

/// What a bar along the line of a node says of it.
#[derive(Clone, Copy)]
pub enum BarKind {
    /// It is down.
    Down,
    /// It leads.
    Leads,
}

/// A bar along the line of a node, from one row to another.
#[derive(Clone, Copy)]
pub struct Bar {
    pub node: u8,
    pub first: u16,
    pub last: u16,
    pub kind: BarKind,
}

/// A picture of a run: its title, how many nodes there are, its steps, the ways of packets, the packets of which none has come, the bars, and
/// how many steps more are not drawn.
#[derive(Drop)]
pub struct Picture {
    pub title: Vec<u8>,
    pub nodes: u8,
    pub rows: Vec<Row>,
    pub arrows: Vec<Arrow>,
    pub stubs: Vec<Stub>,
    pub bars: Vec<Bar>,
    pub undrawn: u64,
}
