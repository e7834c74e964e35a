// The clauses `range` tell a caller the range of a number that stands in a pair, which a proof loses otherwise.
ghost use Rattle.std.specs.Prelude.{◌≡◌, ◌<◌, ◌^◌, ◌++◌, FitsSigned, length, IfSome, IsNone, ◌↔◌};
ghost use Rattle.std.specs.Int.{to_be_bytes, cast_unsigned, w8, w16, w32, w64};

/// The number in the first byte, and the rest. None where there is no byte.
pub fn take_u8(bytes: &[u8]) -> Option<(u8, &[u8])>
    ensures number { IfSome result (λ x. bytes.now ≡ to_be_bytes w8 x.0 ++ x.1.now) }
    ensures range { IfSome result (λ x. x.0 < 2 ^ 8) }
    ensures none { IsNone result ↔ (length bytes.now < 1) }
{
    match bytes {
        [number, rest @ ..] => Some((*number, rest)),
        _ => None,
    }
}

/// The big-endian number in the first two bytes, and the rest. None where fewer are there.
pub fn take_u16(bytes: &[u8]) -> Option<(u16, &[u8])>
    ensures number { IfSome result (λ x. bytes.now ≡ to_be_bytes w16 x.0 ++ x.1.now) }
    ensures range { IfSome result (λ x. x.0 < 2 ^ 16) }
    ensures none { IsNone result ↔ (length bytes.now < 2) }
{
    match bytes {
        [a, b, rest @ ..] => Some((u16::from_be_bytes([*a, *b]), rest)),
        _ => None,
    }
}

/// The big-endian number in two's complement in the first two bytes, and the rest. None where fewer are there.
pub fn take_i16(bytes: &[u8]) -> Option<(i16, &[u8])>
    ensures number { IfSome result (λ x. bytes.now ≡ to_be_bytes w16 (cast_unsigned w16 x.0) ++ x.1.now) }
    ensures range { IfSome result (λ x. FitsSigned w16 x.0) }
    ensures none { IsNone result ↔ (length bytes.now < 2) }
{
    match bytes {
        [a, b, rest @ ..] => Some((i16::from_be_bytes([*a, *b]), rest)),
        _ => None,
    }
}

/// The big-endian number in the first four bytes, and the rest. None where fewer are there.
pub fn take_u32(bytes: &[u8]) -> Option<(u32, &[u8])>
    ensures number { IfSome result (λ x. bytes.now ≡ to_be_bytes w32 x.0 ++ x.1.now) }
    ensures range { IfSome result (λ x. x.0 < 2 ^ 32) }
    ensures none { IsNone result ↔ (length bytes.now < 4) }
{
    match bytes {
        [a, b, c, d, rest @ ..] => Some((u32::from_be_bytes([*a, *b, *c, *d]), rest)),
        _ => None,
    }
}

/// The big-endian number in two's complement in the first four bytes, and the rest. None where fewer are there.
pub fn take_i32(bytes: &[u8]) -> Option<(i32, &[u8])>
    ensures number { IfSome result (λ x. bytes.now ≡ to_be_bytes w32 (cast_unsigned w32 x.0) ++ x.1.now) }
    ensures range { IfSome result (λ x. FitsSigned w32 x.0) }
    ensures none { IsNone result ↔ (length bytes.now < 4) }
{
    match bytes {
        [a, b, c, d, rest @ ..] => Some((i32::from_be_bytes([*a, *b, *c, *d]), rest)),
        _ => None,
    }
}

/// The big-endian number in the first eight bytes, and the rest. None where fewer are there.
pub fn take_u64(bytes: &[u8]) -> Option<(u64, &[u8])>
    ensures number { IfSome result (λ x. bytes.now ≡ to_be_bytes w64 x.0 ++ x.1.now) }
    ensures range { IfSome result (λ x. x.0 < 2 ^ 64) }
    ensures none { IsNone result ↔ (length bytes.now < 8) }
{
    match bytes {
        [a, b, c, d, e, f, g, h, rest @ ..] => {
            let number = u64::from_be_bytes([*a, *b, *c, *d, *e, *f, *g, *h]);
            Some((number, rest))
        }
        _ => None,
    }
}

/// The big-endian number in two's complement in the first eight bytes, and the rest. None where fewer are there.
pub fn take_i64(bytes: &[u8]) -> Option<(i64, &[u8])>
    ensures number { IfSome result (λ x. bytes.now ≡ to_be_bytes w64 (cast_unsigned w64 x.0) ++ x.1.now) }
    ensures range { IfSome result (λ x. FitsSigned w64 x.0) }
    ensures none { IsNone result ↔ (length bytes.now < 8) }
{
    match bytes {
        [a, b, c, d, e, f, g, h, rest @ ..] => {
            let number = i64::from_be_bytes([*a, *b, *c, *d, *e, *f, *g, *h]);
            Some((number, rest))
        }
        _ => None,
    }
}

/// The first `len` bytes, and the rest. None where fewer are there.
pub fn take_piece(bytes: &[u8], len: usize) -> Option<(&[u8], &[u8])>
    ensures piece { IfSome result (λ x. (bytes.now ≡ x.0.now ++ x.1.now) × (length x.0.now ≡ len)) }
    ensures none { IsNone result ↔ (length bytes.now < len) }
{
    if bytes.len() < len {
        None
    } else {
        Some(bytes.split_at(len))
    }
}
