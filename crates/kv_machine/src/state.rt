use key_map::KeyMap;
use vst_base::Value;

/// The values of the keys that have one. Contracts see a finite map.
pub type KvState = KeyMap<Value>;
