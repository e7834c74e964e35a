ghost use Rattle.std.specs.Prelude.{◌≡◌, ◌+◌, ◌-◌, ◌≤◌, ◌++◌, [], ◌∷◌, length};
ghost use Rattle.std.specs.Int.{to_be_bytes, w32};
ghost use Rattle.pgw_wire.specs.Room.{overwritten};
ghost use Rattle.pgw_nested.specs.Array.{array_head};
ghost use Rattle.pgw_nested.specs.Marks.{null_length};
ghost use Rattle.pgw_nested.specs.RangeWritten.{flags_of_kinds};

use crate::BoundKind;
use crate::range_writing::{lower_bits, upper_bits};
use pgw_wire::ByteBuffer;

/// Begins an array as `begin_array` does, in room that was made for its 20 bytes, with at most 2147483647 elements. The
/// answer is the place of its flags. It takes no memory.
#[tactic(auto, unfolding(crate::specs::Array::array_head))]
pub fn place_array(out: &mut ByteBuffer, element_oid: u32, count: u32) -> usize
    requires room { 20 ≤ out.old.spare }
    requires count { count ≤ 2147483647 }
    ensures bytes { out.new.bytes ≡ out.old.bytes ++ array_head 0 element_oid count 1 }
    ensures spare { out.new.spare + 20 ≡ out.old.spare }
    ensures place { result ≡ length out.old.bytes + 4 }
{
    let [a, b, c, d] = element_oid.to_be_bytes();
    let [e, f, g, h] = count.to_be_bytes();
    out.push_reserved(&[0, 0, 0, 1, 0, 0, 0, 0, a, b, c, d, e, f, g, h, 0, 0, 0, 1]);
    out.len() - 16
}

/// Begins a range as `begin_range` does, in room that was made for the byte of its flags. It takes no memory.
pub fn place_range(out: &mut ByteBuffer, lower_kind: BoundKind, upper_kind: BoundKind)
    requires { 1 ≤ out.old.spare }
    ensures bytes { out.new.bytes ≡ out.old.bytes ++ (flags_of_kinds lower_kind upper_kind ∷ []) }
    ensures spare { out.new.spare + 1 ≡ out.old.spare }
{
    out.push_reserved(&[lower_bits(lower_kind) + upper_bits(upper_kind)]);
}

/// Begins a piece as `begin_piece` does, in room that was made for the 4 bytes of its length. The answer is their
/// place. It takes no memory.
pub fn place_length(out: &mut ByteBuffer) -> usize
    requires { 4 ≤ out.old.spare }
    ensures bytes { out.new.bytes ≡ out.old.bytes ++ null_length }
    ensures spare { out.new.spare + 4 ≡ out.old.spare }
    ensures place { result ≡ length out.old.bytes }
{
    let place = out.len();
    out.push_reserved(&[255; 4]);
    place
}

/// Ends a piece, which is all that stands behind the 4 bytes at `place`, at most 2147483647 bytes: these four become
/// their number. It takes no memory.
pub fn close_length(out: &mut ByteBuffer, place: usize)
    requires there { place + 4 ≤ length out.old.bytes }
    requires fits { length out.old.bytes - (place + 4) ≤ 2147483647 }
    ensures bytes { out.new.bytes
        ≡ overwritten out.old.bytes place (to_be_bytes w32 (length out.old.bytes - (place + 4))) }
    ensures spare { out.new.spare ≡ out.old.spare }
{
    let len = out.len() - (place + 4);
    out.patch_u32(place, len as u32);
}
