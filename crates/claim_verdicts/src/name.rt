/// The name of a request: its client's number, and the client's number of it.
#[derive(Clone, Copy, Debug, PartialEq, Eq, Hash)]
pub(crate) struct Name {
    pub client: u64,
    pub request: u64,
}
