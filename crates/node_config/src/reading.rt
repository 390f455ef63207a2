ghost use Rattle.std.specs.Prelude.{◌≡◌, ◌≢◌, ◌+◌, ◌≤◌, take, Err, IfErr, IfOk, IfSome};
ghost use Rattle.outside.specs.Counting.{Rose};
ghost use Rattle.node_config.specs.Configs.{configured};
ghost use Rattle.node_config.specs.Outcomes.{Comes, Fits, IsUnread, Leaves, Tells};

use crate::filling::fill;
use crate::table::config_of;
use crate::{Config, ConfigFault, ConfigKey, MAX_CONFIG};
use outside::Source;
use std::alloc::Global;

// Reads a text to its end, or to the byte that makes it too long.
fn read_text<S: Source>(alloc: Global, source: &mut S) -> Result<Vec<u8>, ConfigFault>
    ensures text { IfOk result (λ text. IfSome (S.left source.old) (λ bytes. text.items ≡ take (MAX_CONFIG + 1) bytes)) }
    ensures left { Leaves (S.left source.old) (S.left source.new) result }
    ensures unread { IfErr result IsUnread }
    ensures fault { result ≡ Err ConfigFault.Read → Rose (S.faults source.old) (S.faults source.new) }
    ensures quiet { result ≢ Err ConfigFault.Read → S.faults source.new ≡ S.faults source.old }
    ensures counts { S.faults source.old ≤ S.faults source.new }
{
    let mut text = vec![in alloc; 0; MAX_CONFIG + 1]?;
    match fill(source, &mut text) {
        Some(len) => {
            text.truncate(len);
            Ok(text)
        }
        None => Err(ConfigFault::Read),
    }
}

// The configuration of node `me` that a text says, or the first key for which it is refused.
#[tactic(auto, unfolding(crate::specs::Configs::configured, crate::specs::Configs::table_of))]
fn config_in(alloc: Global, text: &[u8], me: u8) -> Result<Config, ConfigFault>
    ensures { Comes (configured me text.now) result }
{
    if text.len() > MAX_CONFIG {
        return Err(ConfigFault::Refused(ConfigKey::Text));
    }
    match toml::table_from_slice(alloc, text) {
        Ok(table) => config_of(alloc, &table, me),
        Err(error) if error.is_memory() => Err(ConfigFault::Memory),
        Err(_) => Err(ConfigFault::Refused(ConfigKey::Text)),
    }
}

/// Reads the configuration of node `me`: a text in TOML of at most 65,536 bytes. It is refused for the first key that
/// applies, in the order of `ConfigKey`. The source is read to its end, or to the byte that makes the text too long. A
/// read failed only where `Read` is answered.
pub fn read_config<S: Source>(alloc: Global, source: &mut S, me: u8) -> Result<Config, ConfigFault>
    ensures told { IfSome (S.left source.old) (λ text. Tells (configured me text) result) }
    ensures fits { IfOk result (Fits me) }
    ensures left { Leaves (S.left source.old) (S.left source.new) result }
    ensures fault { result ≡ Err ConfigFault.Read → Rose (S.faults source.old) (S.faults source.new) }
    ensures quiet { result ≢ Err ConfigFault.Read → S.faults source.new ≡ S.faults source.old }
    ensures counts { S.faults source.old ≤ S.faults source.new }
{
    let text = read_text(alloc, source)?;
    config_in(alloc, &text, me)
}
