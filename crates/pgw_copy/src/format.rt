/// From here on a length is negative, in two's complement.
pub const NEGATIVE_LENGTH: u32 = 1 << 31;

/// From here on a count of fields is negative, in two's complement.
pub const NEGATIVE_COUNT: u16 = 1 << 15;
