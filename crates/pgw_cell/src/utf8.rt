ghost use Rattle.std.specs.Prelude.{◌≡◌};
ghost use Rattle.std.specs.Str.{is_utf8};

/// Whether the bytes are UTF-8.
#[inline(never)]
fn is_wide_text(bytes: &[u8]) -> bool
    ensures { result ≡ is_utf8 bytes.now }
{
    str::from_utf8(bytes).is_ok()
}

/// Whether the bytes are UTF-8. Most are ASCII, for which the test is short: it alone is inlined.
#[inline(always)]
pub(crate) fn is_text(bytes: &[u8]) -> bool
    ensures { result ≡ is_utf8 bytes.now }
{
    bytes.is_ascii() || is_wide_text(bytes)
}
