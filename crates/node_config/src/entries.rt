ghost use Rattle.std.specs.Prelude.{◌≡◌, option_map};
ghost use Rattle.std.specs.Option.{option_copied};
ghost use Rattle.toml.specs.View.{array_view, table_view};
ghost use Rattle.node_config.specs.Entries.{are_known, array_at, integer_at, is_known, string_at};

use toml::{Table, Value};

/// The string at a key, if the key has one.
#[tactic(auto, unfolding(crate::specs::Entries::string_at))]
pub(crate) fn string_at<'a>(table: &'a Table, key: &str) -> Option<&'a str>
    ensures { option_copied result ≡ string_at key.now (table_view table.now) }
{
    match table.get(key) {
        Some(value) => value.as_str(),
        None => None,
    }
}

/// The whole number at a key, if the key has one.
#[tactic(auto, unfolding(crate::specs::Entries::integer_at))]
pub(crate) fn integer_at(table: &Table, key: &str) -> Option<i64>
    ensures { result ≡ integer_at key.now (table_view table.now) }
{
    match table.get(key) {
        Some(value) => value.as_integer(),
        None => None,
    }
}

/// The array at a key, if the key has one.
#[tactic(auto, unfolding(crate::specs::Entries::array_at))]
pub(crate) fn array_at<'a>(table: &'a Table, key: &str) -> Option<&'a Vec<Value>>
    ensures { option_map (λ v. array_view v.now) result ≡ array_at key.now (table_view table.now) }
{
    match table.get(key) {
        Some(value) => value.as_array(),
        None => None,
    }
}

// Whether a configuration has this key.
#[tactic(auto, unfolding(crate::specs::Entries::is_known))]
fn is_known(key: &str) -> bool
    ensures { result ≡ is_known key.now }
{
    match key {
        "stack" | "peers" | "clients" | "heartbeat_ms" | "election_ms" | "cluster" => true,
        _ => false,
    }
}

/// Whether a configuration has each key of the table.
pub(crate) fn are_known(table: &Table) -> bool
    ensures { result ≡ are_known (table_view table.now) }
{
    table.keys().all(|key| is_known(key.as_str()))
}
