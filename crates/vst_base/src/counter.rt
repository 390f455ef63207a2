ghost use Rattle.vst_base.specs.Examples.{counter};

use crate::Machine;
use std::alloc::{AllocError, Global};

/// A small machine, for examples and tests: it adds its commands up to 255, and answers each with the sum before it.
#[derive(Clone, Copy, Debug, PartialEq, Eq)]
pub struct Counter;

impl Machine for Counter {
    type State = u8;

    type Cmd = u8;

    type Out = u8;

    ghost meaning = { λ _. counter };

    fn init(&self, _alloc: Global) -> Result<u8, AllocError> {
        Ok(0)
    }

    fn apply(&self, _alloc: Global, state: &mut u8, cmd: &u8) -> Result<u8, AllocError> {
        let before = *state;
        *state = before.saturating_add(*cmd);
        Ok(before)
    }

    fn copy_cmd(&self, _alloc: Global, cmd: &u8) -> Result<u8, AllocError> {
        Ok(*cmd)
    }

    fn copy_out(&self, _alloc: Global, out: &u8) -> Result<u8, AllocError> {
        Ok(*out)
    }
}
