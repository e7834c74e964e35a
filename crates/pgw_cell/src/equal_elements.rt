ghost use Rattle.std.specs.Prelude.{◌≡◌, ◌≤◌, ◌+◌, IfSome};
ghost use Rattle.std.specs.Int.{abs_diff};
ghost use Rattle.pgw_cell.specs.Equal.{AreEqualFields, length_word};

use pgw_wire::take_piece;

/// How far the length is from the size that a field begins with, which has more than four bytes.
#[inline(always)]
fn difference<const N: usize>(size: u32, field: &[u8; N]) -> u32
    requires { 4 ≤ N }
    ensures { result ≡ abs_diff (length_word field.now) size }
{
    u32::from_be_bytes([field[0], field[1], field[2], field[3]]).abs_diff(size)
}

/// What stands behind so many fields at the front, where each is a length of this size and as many bytes, `N` together.
// All lengths are looked at, and the largest difference is asked for once, so that several are looked at in one step.
#[inline(always)]
pub(crate) fn behind_equal<const N: usize>(size: u32, count: u32, bytes: &[u8]) -> Option<&[u8]>
    requires size { N ≡ 4 + size }
    requires small { size ≤ 16 }
    ensures { IfSome result (λ rest. AreEqualFields size count bytes.now rest.now) }
{
    let (fields, rest) = take_piece(bytes, count as usize * N)?;
    let (elements, _) = fields.as_chunks::<N>();
    let mut most = 0;
    for element in elements {
        most = most.max(difference(size, element));
    }
    if most == 0 { Some(rest) } else { None }
}
