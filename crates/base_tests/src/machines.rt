use std::alloc::{AllocError, Global};
use std::test::Fail;
use vst_base::{Machine, Token};

// The token of a text that is one.
pub fn token<const MOST: usize>(alloc: Global, text: &[u8]) -> Result<Token<MOST>, Fail> {
    Ok(Token::new(alloc, text)?.ok_or("no token")?)
}

// The text of a token, where there is one.
pub fn text<const MOST: usize>(token: &Option<Token<MOST>>) -> Option<&[u8]> {
    match token {
        Some(token) => Some(token.as_bytes()),
        None => None,
    }
}

// What the machine answers to a copy of the command, copied.
pub fn answer<M: Machine>(
    alloc: Global,
    machine: &M,
    state: &mut M::State,
    cmd: &M::Cmd,
) -> Result<M::Out, AllocError> {
    let copy = machine.copy_cmd(alloc, cmd)?;
    let out = machine.apply(alloc, state, &copy)?;
    machine.copy_out(alloc, &out)
}
