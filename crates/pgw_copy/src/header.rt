ghost use Rattle.std.specs.Prelude.{◌≡◌, ◌≢◌, ◌≤◌, length, List, ℕ, IfOk, IfErr, ⊤};
ghost use Rattle.pgw_copy.specs.Format.{IsFixedHeader, IsHeader};
ghost use Rattle.pgw_copy.specs.Reader.{Reads, HeaderError, FixedError};

use crate::filling::{fill, pass_over};
use crate::{CopyReadError, NEGATIVE_LENGTH};
use pgw_wire::{Source, take_piece, take_u32};

/// The bytes that every stream begins with.
const MAGIC: [u8; 11] = *b"PGCOPY\n\xff\r\n\0";

/// From here on a bit of the flags' high half is set.
const HIGH_HALF: u32 = 1 << 16;

/// How many bytes of extension follow these first 19 bytes of a header.
fn extension_of(fixed: &[u8; 19]) -> Result<usize, CopyReadError>
    ensures ok { IfOk result (λ extension. IsFixedHeader fixed.now extension) }
    ensures err { IfErr result (λ e. FixedError e fixed.now) }
{
    let (magic, rest) = take_piece(fixed, MAGIC.len()).unwrap();
    let (flags, rest) = take_u32(rest).unwrap();
    let (extension, _) = take_u32(rest).unwrap();
    if magic != MAGIC.as_slice() {
        Err(CopyReadError::BadHeader)
    } else if flags >= HIGH_HALF {
        Err(CopyReadError::BadFlags(flags))
    } else if extension >= NEGATIVE_LENGTH {
        Err(CopyReadError::BadHeader)
    } else {
        Ok(extension as usize)
    }
}

/// Takes the header of a stream.
pub(crate) fn take_header<S: Source>(source: &mut S) -> Result<(), CopyReadError>
    ensures takes { Reads (S.state source.old) (S.state source.new) result (λ _ taken. IsHeader taken) HeaderError }
{
    let mut fixed = [0; 19];
    fill(source, &mut fixed)?;
    let extension = extension_of(&fixed)?;
    pass_over(source, extension)
}
