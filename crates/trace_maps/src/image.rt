ghost use Rattle.std.specs.Prelude.{◌≡◌, [], ◌∷◌, ◌++◌, take, OnOk, OnErr};

use std::alloc::{AllocError, Global};
use std::marker::Model;

/// What explains a trace, in order: steps of the simpler system, or requests. Contracts see the list.
#[derive(Drop)]
pub struct Image<G> {
    lines: Vec<G>,
}

impl<G> Model for Image<G> {
    ghost use Rattle.std.specs.Prelude.{List};

    ghost Value = { List G };

    ghost view = { λ i. i.lines.items };
}

impl<G: Drop> Image<G> {
    /// Nothing yet. It takes no memory.
    pub fn new(alloc: Global) -> Self
        ensures { result ≡ [] }
    {
        Image {
            lines: Vec::new(alloc),
        }
    }

    /// These lines.
    pub fn from_lines(lines: Vec<G>) -> Self
        ensures { result ≡ lines.items }
    {
        Image { lines }
    }

    /// Its lines, in order.
    pub fn lines(&self) -> &[G]
        ensures { result.now ≡ self.now }
    {
        &self.lines
    }

    /// Gives up the image for its lines.
    pub fn into_lines(self) -> Vec<G>
        ensures { result.items ≡ self }
    {
        self.lines
    }

    /// Drops the lines from the nth on, counted from 0.
    pub fn truncate(&mut self, n: usize)
        ensures { self.new ≡ take n self.old }
    {
        self.lines.truncate(n);
    }

    /// Adds a line at the end.
    pub fn push(&mut self, line: G) -> Result<(), AllocError>
        ensures added { OnOk result (self.new ≡ self.old ++ line ∷ []) }
        ensures err { OnErr result (self.new ≡ self.old) }
    {
        self.lines.push(line)?;
        Ok(())
    }
}
