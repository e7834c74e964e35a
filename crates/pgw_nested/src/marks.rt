ghost use Rattle.std.specs.Prelude.{◌≡◌, ◌+◌, ◌-◌, ◌<◌, ◌≤◌, ◌++◌, length, take, OnOk, OnErr, IfOk, IfErr};
ghost use Rattle.std.specs.Int.{to_be_bytes, w32};
ghost use Rattle.pgw_wire.specs.Output.{IsSameOutput, StartsWithin};
ghost use Rattle.pgw_wire.specs.Room.{overwritten};
ghost use Rattle.pgw_meta.specs.declared.serialize.WriteError.TheVariants.{TooMany as too_many, NoMemory as no_memory};
ghost use Rattle.pgw_nested.specs.Array.{array_head};
ghost use Rattle.pgw_nested.specs.Marks.{null_length, IsWritten, bytes_behind, RefusesCount};

use pgw_meta::serialize::WriteError;
use pgw_wire::Output;

/// The greatest length of a piece, and the greatest count of elements and of ranges.
pub(crate) const GREATEST: usize = 2147483647;

/// Where the flags of an array stand, counted from where the output began.
#[derive(Drop)]
pub struct ArrayMark {
    pub place: usize,
}

/// Where the length of a piece stands, counted from where the output began.
#[derive(Drop)]
pub struct PieceMark {
    pub place: usize,
}

/// Begins an array of one dimension without nulls, with so many elements of the type of this oid. Five numbers of 4
/// bytes are appended: 1, the flags 0, the oid, the count, and 1, the index of the first element. `TooMany` exactly
/// where the count is above 2147483647.
#[tactic(auto, unfolding(crate::specs::Array::array_head))]
pub fn begin_array<L>(
    out: &mut Output<'_, L>,
    element_oid: u32,
    count: usize,
) -> Result<ArrayMark, WriteError>
    ensures same { IsSameOutput out.old out.new }
    ensures lookup { out.new.lookup.now ≡ out.old.lookup.now }
    ensures ok { OnOk result ((count < 2147483648)
        × (out.new.out.now.bytes ≡ out.old.out.now.bytes ++ array_head 0 element_oid count 1)) }
    ensures mark { StartsWithin out.old
        → IfOk result (λ mark. out.old.start + mark.place ≡ length out.old.out.now.bytes + 4) }
    ensures err { IfErr result (λ e. RefusesCount count e) }
    ensures kept { OnErr result (out.new.out.now ≡ out.old.out.now) }
{
    if count > GREATEST {
        return Err(WriteError::TooMany);
    }
    let [a, b, c, d] = element_oid.to_be_bytes();
    let [e, f, g, h] = (count as u32).to_be_bytes();
    out.write_all(&[0, 0, 0, 1, 0, 0, 0, 0, a, b, c, d, e, f, g, h, 0, 0, 0, 1])?;
    Ok(ArrayMark {
        place: out.written().saturating_sub(16),
    })
}

/// Says in the flags of an array that it has a null. It takes no memory.
pub fn null_flag<L>(out: &mut Output<'_, L>, mark: &ArrayMark)
    requires { IsWritten out.old mark.now.place }
    ensures same { IsSameOutput out.old out.new }
    ensures lookup { out.new.lookup.now ≡ out.old.lookup.now }
    ensures bytes { out.new.out.now.bytes
        ≡ overwritten out.old.out.now.bytes (out.old.start + mark.now.place) (to_be_bytes w32 1) }
{
    out.patch(mark.place, 1);
}

/// Begins a piece, whose length is not known yet: 4 bytes FF are appended in its place.
pub fn begin_piece<L>(out: &mut Output<'_, L>) -> Result<PieceMark, WriteError>
    ensures same { IsSameOutput out.old out.new }
    ensures lookup { out.new.lookup.now ≡ out.old.lookup.now }
    ensures ok { OnOk result (out.new.out.now.bytes ≡ out.old.out.now.bytes ++ null_length) }
    ensures mark { IfOk result (λ mark. mark.place ≡ length out.old.out.now.bytes - out.old.start) }
    ensures err { IfErr result (λ e. e ≡ no_memory) }
    ensures kept { OnErr result (out.new.out.now ≡ out.old.out.now) }
{
    let place = out.written();
    out.write_all(&[255; 4])?;
    Ok(PieceMark { place })
}

/// Ends a piece, which is all that stands behind its length: that becomes the number of its bytes. `TooMany` exactly
/// where there are more than 2147483647. It takes no memory.
pub fn end_piece<L>(out: &mut Output<'_, L>, mark: PieceMark) -> Result<(), WriteError>
    requires { IsWritten out.old mark.place }
    ensures same { IsSameOutput out.old out.new }
    ensures lookup { out.new.lookup.now ≡ out.old.lookup.now }
    ensures ok { OnOk result ((bytes_behind out.old mark.place < 2147483648)
        × (out.new.out.now.bytes ≡ overwritten out.old.out.now.bytes (out.old.start + mark.place)
        (to_be_bytes w32 (bytes_behind out.old mark.place)))) }
    ensures err { IfErr result (λ e. (e ≡ too_many) × (2147483648 ≤ bytes_behind out.old mark.place)) }
    ensures kept { OnErr result (out.new.out.now ≡ out.old.out.now) }
{
    let len = out.written() - (mark.place + 4);
    if len > GREATEST {
        return Err(WriteError::TooMany);
    }
    out.patch(mark.place, len as u32);
    Ok(())
}

/// Makes a piece a null: what stands behind its length is taken back, and that becomes -1. It takes no memory.
pub fn null_piece<L>(out: &mut Output<'_, L>, mark: PieceMark)
    requires { IsWritten out.old mark.place }
    ensures same { IsSameOutput out.old out.new }
    ensures lookup { out.new.lookup.now ≡ out.old.lookup.now }
    ensures bytes { out.new.out.now.bytes ≡ overwritten (take (out.old.start + mark.place + 4) out.old.out.now.bytes)
        (out.old.start + mark.place) null_length }
{
    let _written = out.written();
    let end = mark.place + 4;
    out.take_back(end);
    out.patch(mark.place, 0xffff_ffff);
}
