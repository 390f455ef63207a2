ghost use Rattle.std.specs.Prelude.{◌≡◌, ◌≤◌, ◌++◌, IfOk, OnErr, OnOk};
ghost use Rattle.std.specs.FinMap as map;
ghost use Rattle.std.specs.Option.{option_copied};
ghost use Rattle.key_map.specs.ByKey.{holds};
ghost use Rattle.lists.specs.Prefixes.{IsPrefix};
ghost use Rattle.raft_types.specs.declared.limits.TheConstants.{MAX_INDEX};
ghost use Rattle.wire_messages.specs.Wires.{Takes};
ghost use Rattle.snap_state.specs.States.{store};
ghost use Rattle.snap_state.specs.Tables.{at_most};

use crate::{OrderedKey, put_pairs, take_pairs};
use std::alloc::{AllocError, Global};
use std::collections::BTreeMap;
use std::marker::Model;
use vst_base::Value;
use wire_fields::Input;

/// The values of the keys that have one, in the order of the keys. Contracts see a finite map.
#[derive(Drop)]
pub struct Store {
    pairs: BTreeMap<OrderedKey, Value>,
}

impl Model for Store {
    ghost use Rattle.std.specs.Prelude.{ℕ, List};
    ghost use Rattle.std.specs.Coded.{coded_ℕ, coded_list};
    ghost use Rattle.std.specs.FinMap as map;
    ghost use Rattle.key_map.specs.ByKey.{ByKey, by_key_code};

    ghost Value = { ByKey (List ℕ) };

    ghost coded = { by_key_code (coded_list coded_ℕ) };

    ghost view = { λ s. map.from_entries s.pairs.entries };
}

#[tactic(auto, using(crate::proofs::Stores::found, crate::proofs::Stores::inserted, crate::proofs::Stores::removed, crate::proofs::Stores::its_pairs, crate::proofs::Stores::its_count, crate::proofs::Stores::store_taken, crate::proofs::Stores::no_store))]
impl Store {
    /// No key has a value. It takes no memory.
    pub fn new(alloc: Global) -> Self
        ensures { result ≡ map.empty }
    {
        Store {
            pairs: BTreeMap::new(alloc),
        }
    }

    /// The value of the key.
    pub fn get(&self, key: &OrderedKey) -> Option<&Value>
        ensures { option_copied result ≡ map.get self.now key.now }
    {
        self.pairs.get(key)
    }

    /// Gives the key the value, and answers the one before. An `Err` changes nothing.
    pub fn insert(&mut self, key: OrderedKey, value: Value) -> Result<Option<Value>, AllocError>
        ensures before { IfOk result (λ before. before ≡ map.get self.old key) }
        ensures ok { OnOk result (self.new ≡ map.insert self.old key value) }
        ensures err { OnErr result (self.new ≡ self.old) }
    {
        Ok(self.pairs.insert(key, value)?)
    }

    /// Leaves the key without a value, and answers the one before.
    pub fn remove(&mut self, key: &OrderedKey) -> Option<Value>
        ensures before { result ≡ map.get self.old key.now }
        ensures removed { self.new ≡ map.remove self.old key.now }
    {
        self.pairs.remove(key)
    }

    /// Whether the key has this value, or none where none is given.
    pub fn holds(&self, key: &OrderedKey, value: Option<&Value>) -> bool
        ensures { result ≡ holds self.now key.now (option_copied value.entry) }
    {
        self.get(key) == value
    }

    /// Adds its bytes at the end, or a part of them.
    pub fn put(&self, out: &mut Vec<u8>) -> Result<(), AllocError>
        requires { map.len self.now ≤ MAX_INDEX }
        ensures ok { OnOk result (out.new.items ≡ out.old.items ++ store.spell self.now) }
        ensures fits { OnOk result (store.Fits self.now) }
        ensures err { OnErr result (IsPrefix out.old.items out.new.items) }
    {
        let _count = self.pairs.len();
        put_pairs(out, &self.pairs)
    }

    /// The store that stands in front, of at most so many pairs, and `None` where none does.
    pub fn take(
        alloc: Global,
        input: &mut Input<'_>,
        most: u32,
    ) -> Result<Option<Store>, AllocError>
        ensures { Takes (at_most map.len most store) input.old input.new result }
    {
        match take_pairs(alloc, input, most)? {
            Some(pairs) => Ok(Some(Store { pairs })),
            None => Ok(None),
        }
    }
}
