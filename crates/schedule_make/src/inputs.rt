ghost use Rattle.std.specs.Prelude.{◌≡◌, ◌≤◌, ◌∷◌, IfOk, IsTrue};
ghost use Rattle.std.specs.Char.{is_ascii_graphic};
ghost use Rattle.std.specs.Fmt.{decimal};
ghost use Rattle.schedule_make.specs.Inputs.{asked_by_client, kv_input, lock_input, mirror_input, table_input};
ghost use Rattle.schedule_make.specs.Made.{Inputs};

use kv_machine::KvCmd;
use lock_table::TableCmd;
use raft_types::RaftInput;
use std::alloc::{AllocError, Global};
use std::marker::PhantomData;
use vst_base::{ClientId, Key, LockInput, MirrorInput, ReqId, Token, Value};

/// The inputs of made schedules.
pub trait MakesInputs {
    type Input: Drop;

    /// Each is made from a random word and from the step's place in the schedule.
    ghost inputs: { Inputs Self.Input };

    /// The input of this word and this place.
    fn make(alloc: Global, word: u32, place: u32) -> Result<Self::Input, AllocError>
        ensures { IfOk result (λ input. input ≡ inputs word place) };
}

/// Those of the lock server: a lock where the word is even, and else an unlock.
pub struct LockInputs;

impl MakesInputs for LockInputs {
    type Input = LockInput;

    ghost inputs = { lock_input };

    fn make(_alloc: Global, word: u32, _place: u32) -> Result<LockInput, AllocError> {
        Ok(if word % 2 == 0 {
            LockInput::Lock
        } else {
            LockInput::Unlock
        })
    }
}

// A letter and a number.
fn word<const MOST: usize>(alloc: Global, letter: u8, n: u32) -> Result<Token<MOST>, AllocError>
    requires letter { IsTrue (is_ascii_graphic letter) }
    requires room { 21 ≤ MOST }
    ensures { IfOk result (λ token. token ≡ letter ∷ decimal n) }
{
    let mut bytes = Vec::new(alloc);
    bytes.push(letter)?;
    bytes.extend_from_slice(n.to_string(alloc)?.as_bytes())?;
    Token::from_token(alloc, &bytes)
}

/// Those of the key-value store: any of its commands but a conditional delete, on eight keys.
pub struct KvInputs;

impl MakesInputs for KvInputs {
    type Input = KvCmd;

    ghost inputs = { kv_input };

    fn make(alloc: Global, x: u32, place: u32) -> Result<KvCmd, AllocError> {
        let key: Key = word(alloc, b'k', x % 8)?;
        Ok(match x / 8 % 4 {
            0 => KvCmd::Get(key),
            1 => KvCmd::Put(key, word(alloc, b'v', place)?),
            2 => KvCmd::Del(key),
            _ => KvCmd::Cas(key, None, word(alloc, b'v', place)?),
        })
    }
}

/// Those of the table of named locks: its commands on eight names, by four owners.
pub struct TableInputs;

impl MakesInputs for TableInputs {
    type Input = TableCmd;

    ghost inputs = { table_input };

    fn make(alloc: Global, x: u32, _place: u32) -> Result<TableCmd, AllocError> {
        let name: Key = word(alloc, b'l', x % 8)?;
        Ok(match x / 8 % 3 {
            0 => TableCmd::Acquire(name, word(alloc, b'o', x / 64 % 4)?),
            1 => TableCmd::Release(name, word(alloc, b'o', x / 64 % 4)?),
            _ => TableCmd::Holder(name),
        })
    }
}

/// Those of the mirror: a value of the step's place.
pub struct MirrorInputs;

impl MakesInputs for MirrorInputs {
    type Input = MirrorInput;

    ghost inputs = { mirror_input };

    fn make(alloc: Global, _x: u32, place: u32) -> Result<MirrorInput, AllocError> {
        Ok(MirrorInput::Put(word(alloc, b'v', place)?))
    }
}

/// Those of a cluster: one of four clients asks for such a command, as the request of its step's number.
pub struct ByClients<T> {
    commands: PhantomData<T>,
}

impl<T: MakesInputs> MakesInputs for ByClients<T> {
    type Input = RaftInput<T::Input>;

    ghost inputs = { asked_by_client T.inputs };

    fn make(alloc: Global, x: u32, place: u32) -> Result<RaftInput<T::Input>, AllocError> {
        Ok(RaftInput {
            client: ClientId::new(u64::from(x / 256 % 4)),
            request: ReqId::new(u64::from(place)),
            cmd: T::make(alloc, x, place)?,
        })
    }
}
