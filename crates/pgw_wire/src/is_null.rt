/// Whether a null was written.
#[derive(Clone, Copy, Debug, PartialEq, Eq)]
pub enum IsNull {
    /// The value is null, and no byte was written for it.
    Yes,
    /// The value is not null, and the bytes that were written are its piece.
    No,
}
