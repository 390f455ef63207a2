//! The fields that messages on the wire are made of: numbers in network order, each in a range, tokens after
//! their lengths, flags and values that may be left out. Each value has one spelling. It knows nothing of
//! messages.
#![tactic(auto)]

mod examples;
mod input;
mod laws;
mod name;
mod numbers;
mod output;

pub use examples::worked;
pub use input::Input;
pub use laws::fields_have_one_spelling;
pub use name::NAME_LEN;
pub use output::{
    put_bytes, put_flag, put_key, put_kind_and_key, put_u8, put_u16, put_u32, put_u64, put_value,
};
