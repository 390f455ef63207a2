use outside::Address;

/// An act of a device, but a value of its clock.
#[derive(Drop)]
pub enum PastAct {
    /// It began at this address, with this directory.
    Began(Address, Vec<u8>),
    /// It could not begin there.
    BeginFailed(Address, Vec<u8>),
    /// In so many milliseconds at most this datagram came, cut to the buffer.
    Took(u32, Address, Vec<u8>),
    /// In so many milliseconds none came.
    Quiet(u32),
    /// A receive that was to wait so long failed.
    ReceiveFailed(u32),
    /// This datagram went out.
    Sent(Address, Vec<u8>),
    /// This datagram was lost in sending.
    SendFailed(Address, Vec<u8>),
    /// These bytes were written into an area at a place.
    Wrote(u8, u64, Vec<u8>),
    /// An area was cut to a length.
    Cut(u8, u64),
    /// An area was synced.
    Synced(u8),
    /// A read of an area from a place on, of at most so many bytes, failed.
    ReadFailed(u8, u64, u64),
    /// This write failed.
    WriteFailed(u8, u64, Vec<u8>),
    /// This cut failed.
    CutFailed(u8, u64),
    /// This sync failed.
    SyncFailed(u8),
}

/// An act in a record, with the clock values between it and the act before.
#[derive(Drop)]
pub struct Past {
    /// How many clock values were given before these.
    pub from: u64,
    /// How many these are.
    pub nows: u64,
    pub act: PastAct,
}
