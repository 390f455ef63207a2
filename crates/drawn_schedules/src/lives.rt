use drawing::{Bar, BarKind};
use std::alloc::AllocError;

/// What the bars along the line of a node are to say: since which row it is down, and since which it leads in which term.
#[derive(Clone, Copy)]
pub(crate) struct Life {
    down: Option<u16>,
    leads: Option<(u64, u16)>,
}

// Adds the bar that began in a row, where one did.
fn push_bar(
    bars: &mut Vec<Bar>,
    kind: BarKind,
    node: u8,
    first: Option<u16>,
    last: u16,
) -> Result<(), AllocError> {
    if let Some(first) = first {
        bars.push(Bar {
            node,
            first,
            last,
            kind,
        })?;
    }
    Ok(())
}

impl Life {
    /// That of a node which is up, and does not lead.
    pub(crate) fn new() -> Self {
        Life {
            down: None,
            leads: None,
        }
    }

    /// Whether the node is down.
    pub(crate) fn is_down(self) -> bool {
        self.down.is_some()
    }

    // The term in which the node leads, if it does.
    fn term(self) -> Option<u64> {
        match self.leads {
            Some((term, _)) => Some(term),
            None => None,
        }
    }

    // Since which row the node leads, if it does.
    fn leads_since(self) -> Option<u16> {
        match self.leads {
            Some((_, first)) => Some(first),
            None => None,
        }
    }

    /// Notes whether the node is down after a step in this row: where that is new, a bar begins or ends there.
    pub(crate) fn follow_down(
        &mut self,
        bars: &mut Vec<Bar>,
        node: u8,
        row: u16,
        is_down: bool,
    ) -> Result<(), AllocError> {
        if self.is_down() == is_down {
            return Ok(());
        }
        push_bar(bars, BarKind::Down, node, self.down, row)?;
        self.down = if is_down { Some(row) } else { None };
        Ok(())
    }

    /// Notes in which term the node leads after a step in this row, if it does, and says whether that is new: a bar begins or ends there.
    pub(crate) fn follow_term(
        &mut self,
        bars: &mut Vec<Bar>,
        node: u8,
        row: u16,
        term: Option<u64>,
    ) -> Result<bool, AllocError> {
        if self.term() == term {
            return Ok(false);
        }
        push_bar(bars, BarKind::Leads, node, self.leads_since(), row)?;
        self.leads = match term {
            Some(term) => Some((term, row)),
            None => None,
        };
        Ok(true)
    }

    /// Ends what it says of the node, in a row.
    pub(crate) fn end(self, bars: &mut Vec<Bar>, node: u8, last: u16) -> Result<(), AllocError> {
        push_bar(bars, BarKind::Down, node, self.down, last)?;
        push_bar(bars, BarKind::Leads, node, self.leads_since(), last)
    }
}
