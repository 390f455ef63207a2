use key_map::KeyMap;
use vst_base::Key;

/// The owners of the names that are held. Contracts see a finite map.
pub type TableState = KeyMap<Key>;
