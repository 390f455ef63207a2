ghost use Rattle.std.specs.Prelude.{◌≡◌, IfOk, OnOk, OnErr};
ghost use Rattle.std.specs.FinMap as map;
ghost use Rattle.std.specs.Option.{option_copied};
ghost use Rattle.key_map.specs.ByKey.{holds};

use indexmap::IndexMap;
use std::alloc::{AllocError, Global};
use std::marker::Model;
use vst_base::{Key, Token};

/// The values of the keys that have one. Contracts see a finite map from the bytes of keys.
#[derive(Drop)]
pub struct KeyMap<V> {
    values: IndexMap<Key, V>,
}

impl<V> Model for KeyMap<V> {
    ghost use Rattle.std.specs.FinMap as map;
    ghost use Rattle.key_map.specs.ByKey.{ByKey, by_key_code};

    ghost Value = { ByKey V };

    ghost coded = { by_key_code V.code };

    ghost view = { λ m. map.from_entries m.values.entries };
}

#[tactic(auto, using(crate::proofs::Views::views))]
impl<V: Drop> KeyMap<V> {
    /// No key has a value. It takes no memory.
    pub fn new(alloc: Global) -> Self
        ensures { result ≡ map.empty }
    {
        KeyMap {
            values: IndexMap::new(alloc),
        }
    }

    /// The value of the key: one hash look-up.
    pub fn get(&self, key: &Key) -> Option<&V>
        ensures { option_copied result ≡ map.get self.now key.now }
    {
        self.values.get(key)
    }

    /// Gives the key the value, and answers the one before. An `Err` changes nothing.
    pub fn insert(&mut self, key: Key, value: V) -> Result<Option<V>, AllocError>
        ensures before { IfOk result (λ before. before ≡ map.get self.old key) }
        ensures ok { OnOk result (self.new ≡ map.insert self.old key value) }
        ensures err { OnErr result (self.new ≡ self.old) }
    {
        Ok(self.values.insert(key, value)?)
    }

    /// Leaves the key without a value, and answers the one before.
    pub fn remove(&mut self, key: &Key) -> Option<V>
        ensures before { result ≡ map.get self.old key.now }
        ensures removed { self.new ≡ map.remove self.old key.now }
    {
        self.values.swap_remove(key)
    }
}

impl<const MOST: usize> KeyMap<Token<MOST>> {
    /// Whether the key has this value, or none where none is given.
    pub fn holds(&self, key: &Key, value: Option<&Token<MOST>>) -> bool
        ensures { result ≡ holds self.now key.now (option_copied value.entry) }
    {
        self.get(key) == value
    }
}
