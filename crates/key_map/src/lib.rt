//! Values by key, as a machine keeps them in its state: a hash map, of which contracts see a finite map.
//! It knows nothing of what a machine does with them.
#![tactic(auto)]

mod copies;
mod map;

pub use copies::copy_token;
pub use map::KeyMap;
