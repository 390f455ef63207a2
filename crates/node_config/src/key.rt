ghost use Rattle.std.specs.Prelude.{◌≡◌};
ghost use Rattle.node_config.specs.Keys.{key_word};

/// For which key a configuration is refused, in the order in which they are tried.
#[derive(Clone, Copy, Debug, PartialEq, Eq)]
pub enum ConfigKey {
    /// The text has more than 65,536 bytes, or is no document in TOML.
    Text,
    /// The stack is none that a node runs.
    Stack,
    /// The peers are not 1 to 9 addresses.
    Peers,
    /// The clients are not up to 255 addresses, or two addresses of peers and clients are equal.
    Clients,
    /// The period of a leader is not 1 to 60,000.
    HeartbeatMs,
    /// The period of another node is not 1 to 60,000.
    ElectionMs,
    /// The name of the cluster is not 32 lower-case hexadecimal digits.
    Cluster,
    /// Another key stands at the top.
    Unknown,
    /// The node is none of the peers.
    Me,
}

impl ConfigKey {
    /// Its word.
    pub fn word(self) -> &'static str
        ensures { result.now ≡ key_word self }
    {
        match self {
            ConfigKey::Text => "text",
            ConfigKey::Stack => "stack",
            ConfigKey::Peers => "peers",
            ConfigKey::Clients => "clients",
            ConfigKey::HeartbeatMs => "heartbeat_ms",
            ConfigKey::ElectionMs => "election_ms",
            ConfigKey::Cluster => "cluster",
            ConfigKey::Unknown => "unknown",
            ConfigKey::Me => "me",
        }
    }
}
