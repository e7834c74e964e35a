/// What a field holds, in a stream or inside of a value.
#[derive(Clone, Copy)]
pub enum RawCell<'a> {
    /// No value: the field's length is negative, and no bytes follow it.
    Null,
    /// The bytes behind the field's length.
    Piece(&'a [u8]),
}
