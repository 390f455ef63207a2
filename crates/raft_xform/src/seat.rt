ghost use Rattle.std.specs.Prelude.{◌≡◌, ◌<◌, ◌==◌, Some, None, if◌then◌else◌};

use vst_base::Node;

/// Which node of how many.
#[derive(Clone, Copy)]
pub(crate) struct Seat {
    pub(crate) me: Node,
    pub(crate) nodes: u8,
}

impl Seat {
    /// Node n, if it is another one.
    pub(crate) fn other(&self, n: u8) -> Option<Node>
        requires { n < self.now.nodes }
        ensures { result ≡ (if n == self.now.me then None else Some n) }
    {
        let node = Node::new(n, self.nodes)?;
        (node != self.me).then_some(node)
    }
}
