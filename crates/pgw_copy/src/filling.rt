ghost use Rattle.std.specs.Prelude.{◌≡◌, ◌<◌, ◌≤◌, length};
ghost use Rattle.pgw_copy.specs.Reader.{Reads, CutError, IsShort};

use crate::CopyReadError;
use pgw_wire::Source;

/// How many bytes are passed over at once where they are many.
const CHUNK: usize = 512;

/// Fills the buffer with the next bytes of the source, by as many reads as it wants.
fn fill_by_reads<S: Source>(source: &mut S, buf: &mut [u8]) -> Result<(), CopyReadError>
    ensures takes { Reads (S.state source.old) (S.state source.new) result (λ _ taken. taken ≡ buf.new) (CutError (IsShort (length buf.old))) }
{
    let mut filled = 0;
    while filled < buf.len() {
        match source.read(&mut buf[filled..]) {
            Ok(0) => return Err(CopyReadError::Truncated),
            Ok(n) => filled += n,
            Err(_) => return Err(CopyReadError::ReadFault),
        }
    }
    Ok(())
}

/// Fills the buffer, which is not empty, with the next bytes of the source.
///
/// Mostly one read does. Where this is inlined, and the buffer's length is known there, so is that of what is copied.
#[inline(always)]
pub(crate) fn fill<S: Source>(source: &mut S, buf: &mut [u8]) -> Result<(), CopyReadError>
    requires { 0 < length buf.old }
    ensures takes { Reads (S.state source.old) (S.state source.new) result (λ _ taken. taken ≡ buf.new) (CutError (IsShort (length buf.old))) }
{
    match source.read(buf) {
        Ok(n) if n == buf.len() => Ok(()),
        Ok(0) => Err(CopyReadError::Truncated),
        Ok(n) => fill_by_reads(source, &mut buf[n..]),
        Err(_) => Err(CopyReadError::ReadFault),
    }
}

/// Takes the next `len` bytes and keeps none of them.
pub(crate) fn pass_over<S: Source>(source: &mut S, len: usize) -> Result<(), CopyReadError>
    ensures takes { Reads (S.state source.old) (S.state source.new) result (λ _ taken. length taken ≡ len) (CutError (IsShort len)) }
{
    let mut chunk = [0; CHUNK];
    let chunk = &mut chunk[..];
    let mut left = len;
    while left > 0 {
        let next = left.min(CHUNK);
        fill(source, &mut chunk[..next])?;
        left -= next;
    }
    Ok(())
}
