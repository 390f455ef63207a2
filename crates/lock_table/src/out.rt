use vst_base::Key;

/// What a command answers: its name, who holds it after the command, and yes or no. A yes to an acquire or
/// a release is that it was done, and to a question that somebody holds the name.
#[derive(Debug, Drop, PartialEq, Eq)]
pub struct TableOut {
    pub name: Key,
    pub holder: Option<Key>,
    pub yes: bool,
}
