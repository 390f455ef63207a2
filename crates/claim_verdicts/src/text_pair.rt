ghost use Rattle.std.specs.Prelude.{◌≡◌, [], IfOk};
ghost use Rattle.schedule_text.specs.Words.{is_text};

use app_text::AppText;
use schedule_text::Printed;
use std::alloc::{AllocError, Global};

// How many bytes a text has room for from the first: a line of short tokens takes no more.
const LINE_ROOM: usize = 64;

/// Two texts that are compared. Their room is kept from one comparison to the next.
#[derive(Drop)]
pub(crate) struct TextPair {
    left: Vec<u8>,
    right: Vec<u8>,
}

impl TextPair {
    /// Room for two lines of short tokens.
    pub fn new(alloc: Global) -> Result<Self, AllocError> {
        Ok(TextPair {
            left: Vec::with_capacity(alloc, LINE_ROOM)?,
            right: Vec::with_capacity(alloc, LINE_ROOM)?,
        })
    }

    // Clears both.
    fn clear(&mut self)
        ensures left { self.new.left.items ≡ [] }
        ensures right { self.new.right.items ≡ [] }
    {
        self.left.clear();
        self.right.clear();
    }

    // Whether both are the same.
    fn is_same(&self) -> bool
        ensures { result ≡ is_text self.now.left.items self.now.right.items }
    {
        self.left.as_slice() == self.right.as_slice()
    }

    /// Whether two inputs have one text.
    pub fn is_same_input<A: AppText>(
        &mut self,
        left: &A::Input,
        right: &A::Input,
    ) -> Result<bool, AllocError>
        ensures { IfOk result (λ same. same ≡ is_text (A.input_text left.now) (A.input_text right.now)) }
    {
        self.clear();
        A::print_input(left, &mut self.left)?;
        A::print_input(right, &mut self.right)?;
        Ok(self.is_same())
    }

    /// Whether two outputs have one text.
    pub fn is_same_output<A: AppText>(
        &mut self,
        left: &A::Output,
        right: &A::Output,
    ) -> Result<bool, AllocError>
        ensures { IfOk result (λ same. same ≡ is_text (A.output_text left.now) (A.output_text right.now)) }
    {
        self.clear();
        A::print_output(left, &mut self.left)?;
        A::print_output(right, &mut self.right)?;
        Ok(self.is_same())
    }

    /// Whether two lines have one text.
    pub fn is_same_line<A: AppText, P: Printed<A>>(
        &mut self,
        left: &P,
        right: &P,
    ) -> Result<bool, AllocError>
        ensures { IfOk result (λ same. same ≡ is_text (P.text left.now) (P.text right.now)) }
    {
        self.clear();
        left.push_text(&mut self.left)?;
        right.push_text(&mut self.right)?;
        Ok(self.is_same())
    }
}
