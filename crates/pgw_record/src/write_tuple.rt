ghost use Rattle.std.specs.Prelude.{◌≡◌, ◌≤◌, ◌++◌, ℕ, List, Some, Err};
ghost use Rattle.pgw_wire.specs.Outside.{HasFailed};
ghost use Rattle.pgw_wire.specs.Output.{IsSameOutput, StartsWithin};
ghost use Rattle.pgw_meta.specs.Known.{Known, known};
ghost use Rattle.pgw_meta.specs.Writing.{Writes, Wrote};
ghost use Rattle.pgw_meta.specs.declared.serialize.WriteError.TheVariants.{LookupFailed as lookup_failed};
ghost use Rattle.pgw_record.specs.Written.{WritesRecord, member, no_member};

use crate::record_writing::begin_tuple;
use crate::written_members::{
    write_eight, write_five, write_four, write_one, write_seven, write_six, write_three, write_two,
};
use pgw_meta::serialize::{Result, ToSql};
use pgw_meta::{HasSqlType, Pg, PgMetadataLookup};
use pgw_wire::{IsNull, Output};

/// A tuple that can be written as a record whose components have the types of `ST`, a tuple of as many markers.
pub trait WriteTuple<ST> {
    /// What it is written as, and each implementation states that: under what a lookup knows, the value is answered so,
    /// with these bytes appended.
    ghost writes: { Writes Self };

    /// Appends how many members there are, in 4 bytes, and then each: the oid of its type, in 4 bytes, its length, in 4
    /// bytes, and its bytes. A member that is null is written as the length -1. The answer is `No`. The start of the
    /// output has to lie in its buffer.
    ///
    /// The first refusal in the order of these bytes is the error: of each member `UnknownType` where the key of its
    /// type is not known, what it is refused with, and `TooMany` with more than 2147483647 bytes. `LookupFailed` comes
    /// only where the lookup's count of faults rises. The bytes that stood before the call stand there behind it, and
    /// those that a refused call appended are for the caller to take back. No call changes what is known.
    fn write_tuple<L: PgMetadataLookup>(&self, out: &mut Output<'_, L>) -> Result
        requires { StartsWithin out.old }
        ensures wrote { (bytes : List ℕ) × (out.new.out.now.bytes ≡ out.old.out.now.bytes ++ bytes)
            × ((k : Known) → known (L.state out.old.lookup.now) ≡ Some k → Wrote writes k self.now bytes result) }
        ensures failed { result ≡ Err lookup_failed → HasFailed (L.state out.old.lookup.now) (L.state out.new.lookup.now) }
        ensures same { IsSameOutput out.old out.new }
        ensures told { (L.state out.new.lookup.now).told ≡ (L.state out.old.lookup.now).told }
        ensures faults { (L.state out.old.lookup.now).fault_count ≤ (L.state out.new.lookup.now).fault_count };
}

impl<ST1, A: ToSql<ST1>> WriteTuple<(ST1,)> for (A,)
where
    Pg: HasSqlType<ST1>,
{
    ghost writes = { λ k v. WritesRecord (member ⟦<Pg as HasSqlType<ST1>>⟧.names A.writes k v.0 no_member) };

    #[tactic(auto, using(crate::proofs::MembersWritten::not_told))]
    fn write_tuple<L: PgMetadataLookup>(&self, out: &mut Output<'_, L>) -> Result {
        begin_tuple(1, out)?;
        write_one::<ST1, A, L>(&self.0, out)?;
        Ok(IsNull::No)
    }
}

impl<ST1, ST2, A: ToSql<ST1>, B: ToSql<ST2>> WriteTuple<(ST1, ST2)> for (A, B)
where
    Pg: HasSqlType<ST1>,
    Pg: HasSqlType<ST2>,
{
    ghost writes = { λ k v. WritesRecord (member ⟦<Pg as HasSqlType<ST1>>⟧.names A.writes k v.0
        (member ⟦<Pg as HasSqlType<ST2>>⟧.names B.writes k v.1 no_member)) };

    #[tactic(auto, using(crate::proofs::MembersWritten::not_told))]
    fn write_tuple<L: PgMetadataLookup>(&self, out: &mut Output<'_, L>) -> Result {
        begin_tuple(2, out)?;
        write_two::<ST1, ST2, A, B, L>(&self.0, &self.1, out)?;
        Ok(IsNull::No)
    }
}

impl<ST1, ST2, ST3, A: ToSql<ST1>, B: ToSql<ST2>, C: ToSql<ST3>> WriteTuple<(ST1, ST2, ST3)>
    for (A, B, C)
where
    Pg: HasSqlType<ST1>,
    Pg: HasSqlType<ST2>,
    Pg: HasSqlType<ST3>,
{
    ghost writes = { λ k v. WritesRecord (member ⟦<Pg as HasSqlType<ST1>>⟧.names A.writes k v.0
        (member ⟦<Pg as HasSqlType<ST2>>⟧.names B.writes k v.1
        (member ⟦<Pg as HasSqlType<ST3>>⟧.names C.writes k v.2 no_member))) };

    #[tactic(auto, using(crate::proofs::MembersWritten::not_told))]
    fn write_tuple<L: PgMetadataLookup>(&self, out: &mut Output<'_, L>) -> Result {
        begin_tuple(3, out)?;
        write_three::<ST1, ST2, ST3, A, B, C, L>(&self.0, &self.1, &self.2, out)?;
        Ok(IsNull::No)
    }
}

impl<ST1, ST2, ST3, ST4, A: ToSql<ST1>, B: ToSql<ST2>, C: ToSql<ST3>, D: ToSql<ST4>> WriteTuple<
    (ST1, ST2, ST3, ST4),
> for (A, B, C, D)
where
    Pg: HasSqlType<ST1>,
    Pg: HasSqlType<ST2>,
    Pg: HasSqlType<ST3>,
    Pg: HasSqlType<ST4>,
{
    ghost writes = { λ k v. WritesRecord (member ⟦<Pg as HasSqlType<ST1>>⟧.names A.writes k v.0
        (member ⟦<Pg as HasSqlType<ST2>>⟧.names B.writes k v.1
        (member ⟦<Pg as HasSqlType<ST3>>⟧.names C.writes k v.2
        (member ⟦<Pg as HasSqlType<ST4>>⟧.names D.writes k v.3 no_member)))) };

    #[tactic(auto, using(crate::proofs::MembersWritten::not_told))]
    fn write_tuple<L: PgMetadataLookup>(&self, out: &mut Output<'_, L>) -> Result {
        begin_tuple(4, out)?;
        write_four::<ST1, ST2, ST3, ST4, A, B, C, D, L>(&self.0, &self.1, &self.2, &self.3, out)?;
        Ok(IsNull::No)
    }
}

impl<
    ST1,
    ST2,
    ST3,
    ST4,
    ST5,
    A: ToSql<ST1>,
    B: ToSql<ST2>,
    C: ToSql<ST3>,
    D: ToSql<ST4>,
    E: ToSql<ST5>,
> WriteTuple<(ST1, ST2, ST3, ST4, ST5)> for (A, B, C, D, E)
where
    Pg: HasSqlType<ST1>,
    Pg: HasSqlType<ST2>,
    Pg: HasSqlType<ST3>,
    Pg: HasSqlType<ST4>,
    Pg: HasSqlType<ST5>,
{
    ghost writes = { λ k v. WritesRecord (member ⟦<Pg as HasSqlType<ST1>>⟧.names A.writes k v.0
        (member ⟦<Pg as HasSqlType<ST2>>⟧.names B.writes k v.1
        (member ⟦<Pg as HasSqlType<ST3>>⟧.names C.writes k v.2
        (member ⟦<Pg as HasSqlType<ST4>>⟧.names D.writes k v.3
        (member ⟦<Pg as HasSqlType<ST5>>⟧.names E.writes k v.4 no_member))))) };

    #[tactic(auto, using(crate::proofs::MembersWritten::not_told))]
    fn write_tuple<L: PgMetadataLookup>(&self, out: &mut Output<'_, L>) -> Result {
        begin_tuple(5, out)?;
        write_five::<ST1, ST2, ST3, ST4, ST5, A, B, C, D, E, L>(
            &self.0, &self.1, &self.2, &self.3, &self.4, out,
        )?;
        Ok(IsNull::No)
    }
}

impl<
    ST1,
    ST2,
    ST3,
    ST4,
    ST5,
    ST6,
    A: ToSql<ST1>,
    B: ToSql<ST2>,
    C: ToSql<ST3>,
    D: ToSql<ST4>,
    E: ToSql<ST5>,
    F: ToSql<ST6>,
> WriteTuple<(ST1, ST2, ST3, ST4, ST5, ST6)> for (A, B, C, D, E, F)
where
    Pg: HasSqlType<ST1>,
    Pg: HasSqlType<ST2>,
    Pg: HasSqlType<ST3>,
    Pg: HasSqlType<ST4>,
    Pg: HasSqlType<ST5>,
    Pg: HasSqlType<ST6>,
{
    ghost writes = { λ k v. WritesRecord (member ⟦<Pg as HasSqlType<ST1>>⟧.names A.writes k v.0
        (member ⟦<Pg as HasSqlType<ST2>>⟧.names B.writes k v.1
        (member ⟦<Pg as HasSqlType<ST3>>⟧.names C.writes k v.2
        (member ⟦<Pg as HasSqlType<ST4>>⟧.names D.writes k v.3
        (member ⟦<Pg as HasSqlType<ST5>>⟧.names E.writes k v.4
        (member ⟦<Pg as HasSqlType<ST6>>⟧.names F.writes k v.5 no_member)))))) };

    #[tactic(auto, using(crate::proofs::MembersWritten::not_told))]
    fn write_tuple<L: PgMetadataLookup>(&self, out: &mut Output<'_, L>) -> Result {
        begin_tuple(6, out)?;
        write_six::<ST1, ST2, ST3, ST4, ST5, ST6, A, B, C, D, E, F, L>(
            &self.0, &self.1, &self.2, &self.3, &self.4, &self.5, out,
        )?;
        Ok(IsNull::No)
    }
}

impl<
    ST1,
    ST2,
    ST3,
    ST4,
    ST5,
    ST6,
    ST7,
    A: ToSql<ST1>,
    B: ToSql<ST2>,
    C: ToSql<ST3>,
    D: ToSql<ST4>,
    E: ToSql<ST5>,
    F: ToSql<ST6>,
    G: ToSql<ST7>,
> WriteTuple<(ST1, ST2, ST3, ST4, ST5, ST6, ST7)> for (A, B, C, D, E, F, G)
where
    Pg: HasSqlType<ST1>,
    Pg: HasSqlType<ST2>,
    Pg: HasSqlType<ST3>,
    Pg: HasSqlType<ST4>,
    Pg: HasSqlType<ST5>,
    Pg: HasSqlType<ST6>,
    Pg: HasSqlType<ST7>,
{
    ghost writes = { λ k v. WritesRecord (member ⟦<Pg as HasSqlType<ST1>>⟧.names A.writes k v.0
        (member ⟦<Pg as HasSqlType<ST2>>⟧.names B.writes k v.1
        (member ⟦<Pg as HasSqlType<ST3>>⟧.names C.writes k v.2
        (member ⟦<Pg as HasSqlType<ST4>>⟧.names D.writes k v.3
        (member ⟦<Pg as HasSqlType<ST5>>⟧.names E.writes k v.4
        (member ⟦<Pg as HasSqlType<ST6>>⟧.names F.writes k v.5
        (member ⟦<Pg as HasSqlType<ST7>>⟧.names G.writes k v.6 no_member))))))) };

    #[tactic(auto, using(crate::proofs::MembersWritten::not_told))]
    fn write_tuple<L: PgMetadataLookup>(&self, out: &mut Output<'_, L>) -> Result {
        begin_tuple(7, out)?;
        write_seven::<ST1, ST2, ST3, ST4, ST5, ST6, ST7, A, B, C, D, E, F, G, L>(
            &self.0, &self.1, &self.2, &self.3, &self.4, &self.5, &self.6, out,
        )?;
        Ok(IsNull::No)
    }
}

impl<
    ST1,
    ST2,
    ST3,
    ST4,
    ST5,
    ST6,
    ST7,
    ST8,
    A: ToSql<ST1>,
    B: ToSql<ST2>,
    C: ToSql<ST3>,
    D: ToSql<ST4>,
    E: ToSql<ST5>,
    F: ToSql<ST6>,
    G: ToSql<ST7>,
    H: ToSql<ST8>,
> WriteTuple<(ST1, ST2, ST3, ST4, ST5, ST6, ST7, ST8)> for (A, B, C, D, E, F, G, H)
where
    Pg: HasSqlType<ST1>,
    Pg: HasSqlType<ST2>,
    Pg: HasSqlType<ST3>,
    Pg: HasSqlType<ST4>,
    Pg: HasSqlType<ST5>,
    Pg: HasSqlType<ST6>,
    Pg: HasSqlType<ST7>,
    Pg: HasSqlType<ST8>,
{
    ghost writes = { λ k v. WritesRecord (member ⟦<Pg as HasSqlType<ST1>>⟧.names A.writes k v.0
        (member ⟦<Pg as HasSqlType<ST2>>⟧.names B.writes k v.1
        (member ⟦<Pg as HasSqlType<ST3>>⟧.names C.writes k v.2
        (member ⟦<Pg as HasSqlType<ST4>>⟧.names D.writes k v.3
        (member ⟦<Pg as HasSqlType<ST5>>⟧.names E.writes k v.4
        (member ⟦<Pg as HasSqlType<ST6>>⟧.names F.writes k v.5
        (member ⟦<Pg as HasSqlType<ST7>>⟧.names G.writes k v.6
        (member ⟦<Pg as HasSqlType<ST8>>⟧.names H.writes k v.7 no_member)))))))) };

    #[tactic(auto, using(crate::proofs::MembersWritten::not_told))]
    fn write_tuple<L: PgMetadataLookup>(&self, out: &mut Output<'_, L>) -> Result {
        begin_tuple(8, out)?;
        write_eight::<ST1, ST2, ST3, ST4, ST5, ST6, ST7, ST8, A, B, C, D, E, F, G, H, L>(
            &self.0, &self.1, &self.2, &self.3, &self.4, &self.5, &self.6, &self.7, out,
        )?;
        Ok(IsNull::No)
    }
}
