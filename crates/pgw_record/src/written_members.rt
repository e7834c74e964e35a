ghost use Rattle.std.specs.Prelude.{◌≡◌, ◌≤◌, ◌++◌, ℕ, List, Some, Err};
ghost use Rattle.pgw_wire.specs.Outside.{HasFailed};
ghost use Rattle.pgw_wire.specs.Output.{IsSameOutput, StartsWithin};
ghost use Rattle.pgw_meta.specs.Known.{Known, known};
ghost use Rattle.pgw_meta.specs.declared.serialize.WriteError.TheVariants.{LookupFailed as lookup_failed};
ghost use Rattle.pgw_record.specs.Written.{no_member, member, WroteMembers};

use crate::record_writing::write_component;
use pgw_meta::serialize::{ToSql, WriteError};
use pgw_meta::{HasSqlType, Pg, PgMetadataLookup};
use pgw_wire::Output;

/// Writes one member.
pub(crate) fn write_one<ST1, A: ToSql<ST1>, L: PgMetadataLookup>(
    a: &A,
    out: &mut Output<'_, L>,
) -> Result<(), WriteError>
where
    Pg: HasSqlType<ST1>,
    requires { StartsWithin out.old }
    ensures wrote { (bytes : List ℕ) × (out.new.out.now.bytes ≡ out.old.out.now.bytes ++ bytes)
        × ((k : Known) → known (L.state out.old.lookup.now) ≡ Some k
        → WroteMembers (member ⟦<Pg as HasSqlType<ST1>>⟧.names A.writes k a.now no_member) bytes result) }
    ensures failed { result ≡ Err lookup_failed → HasFailed (L.state out.old.lookup.now) (L.state out.new.lookup.now) }
    ensures same { IsSameOutput out.old out.new }
    ensures told { (L.state out.new.lookup.now).told ≡ (L.state out.old.lookup.now).told }
    ensures faults { (L.state out.old.lookup.now).fault_count ≤ (L.state out.new.lookup.now).fault_count }
{
    write_component::<ST1, A, L>(a, out)?;
    Ok(())
}

/// Writes two members.
pub(crate) fn write_two<ST1, ST2, A: ToSql<ST1>, B: ToSql<ST2>, L: PgMetadataLookup>(
    a: &A,
    b: &B,
    out: &mut Output<'_, L>,
) -> Result<(), WriteError>
where
    Pg: HasSqlType<ST1>,
    Pg: HasSqlType<ST2>,
    requires { StartsWithin out.old }
    ensures wrote { (bytes : List ℕ) × (out.new.out.now.bytes ≡ out.old.out.now.bytes ++ bytes)
        × ((k : Known) → known (L.state out.old.lookup.now) ≡ Some k
        → WroteMembers (member ⟦<Pg as HasSqlType<ST1>>⟧.names A.writes k a.now
        (member ⟦<Pg as HasSqlType<ST2>>⟧.names B.writes k b.now no_member)) bytes result) }
    ensures failed { result ≡ Err lookup_failed → HasFailed (L.state out.old.lookup.now) (L.state out.new.lookup.now) }
    ensures same { IsSameOutput out.old out.new }
    ensures told { (L.state out.new.lookup.now).told ≡ (L.state out.old.lookup.now).told }
    ensures faults { (L.state out.old.lookup.now).fault_count ≤ (L.state out.new.lookup.now).fault_count }
{
    write_component::<ST1, A, L>(a, out)?;
    write_one::<ST2, B, L>(b, out)
}

/// Writes three members.
pub(crate) fn write_three<
    ST1,
    ST2,
    ST3,
    A: ToSql<ST1>,
    B: ToSql<ST2>,
    C: ToSql<ST3>,
    L: PgMetadataLookup,
>(a: &A, b: &B, c: &C, out: &mut Output<'_, L>) -> Result<(), WriteError>
where
    Pg: HasSqlType<ST1>,
    Pg: HasSqlType<ST2>,
    Pg: HasSqlType<ST3>,
    requires { StartsWithin out.old }
    ensures wrote { (bytes : List ℕ) × (out.new.out.now.bytes ≡ out.old.out.now.bytes ++ bytes)
        × ((k : Known) → known (L.state out.old.lookup.now) ≡ Some k
        → WroteMembers (member ⟦<Pg as HasSqlType<ST1>>⟧.names A.writes k a.now
        (member ⟦<Pg as HasSqlType<ST2>>⟧.names B.writes k b.now
        (member ⟦<Pg as HasSqlType<ST3>>⟧.names C.writes k c.now no_member))) bytes result) }
    ensures failed { result ≡ Err lookup_failed → HasFailed (L.state out.old.lookup.now) (L.state out.new.lookup.now) }
    ensures same { IsSameOutput out.old out.new }
    ensures told { (L.state out.new.lookup.now).told ≡ (L.state out.old.lookup.now).told }
    ensures faults { (L.state out.old.lookup.now).fault_count ≤ (L.state out.new.lookup.now).fault_count }
{
    write_component::<ST1, A, L>(a, out)?;
    write_two::<ST2, ST3, B, C, L>(b, c, out)
}

/// Writes four members.
pub(crate) fn write_four<
    ST1,
    ST2,
    ST3,
    ST4,
    A: ToSql<ST1>,
    B: ToSql<ST2>,
    C: ToSql<ST3>,
    D: ToSql<ST4>,
    L: PgMetadataLookup,
>(a: &A, b: &B, c: &C, d: &D, out: &mut Output<'_, L>) -> Result<(), WriteError>
where
    Pg: HasSqlType<ST1>,
    Pg: HasSqlType<ST2>,
    Pg: HasSqlType<ST3>,
    Pg: HasSqlType<ST4>,
    requires { StartsWithin out.old }
    ensures wrote { (bytes : List ℕ) × (out.new.out.now.bytes ≡ out.old.out.now.bytes ++ bytes)
        × ((k : Known) → known (L.state out.old.lookup.now) ≡ Some k
        → WroteMembers (member ⟦<Pg as HasSqlType<ST1>>⟧.names A.writes k a.now
        (member ⟦<Pg as HasSqlType<ST2>>⟧.names B.writes k b.now
        (member ⟦<Pg as HasSqlType<ST3>>⟧.names C.writes k c.now
        (member ⟦<Pg as HasSqlType<ST4>>⟧.names D.writes k d.now no_member)))) bytes result) }
    ensures failed { result ≡ Err lookup_failed → HasFailed (L.state out.old.lookup.now) (L.state out.new.lookup.now) }
    ensures same { IsSameOutput out.old out.new }
    ensures told { (L.state out.new.lookup.now).told ≡ (L.state out.old.lookup.now).told }
    ensures faults { (L.state out.old.lookup.now).fault_count ≤ (L.state out.new.lookup.now).fault_count }
{
    write_component::<ST1, A, L>(a, out)?;
    write_three::<ST2, ST3, ST4, B, C, D, L>(b, c, d, out)
}

/// Writes five members.
pub(crate) fn write_five<
    ST1,
    ST2,
    ST3,
    ST4,
    ST5,
    A: ToSql<ST1>,
    B: ToSql<ST2>,
    C: ToSql<ST3>,
    D: ToSql<ST4>,
    E: ToSql<ST5>,
    L: PgMetadataLookup,
>(a: &A, b: &B, c: &C, d: &D, e: &E, out: &mut Output<'_, L>) -> Result<(), WriteError>
where
    Pg: HasSqlType<ST1>,
    Pg: HasSqlType<ST2>,
    Pg: HasSqlType<ST3>,
    Pg: HasSqlType<ST4>,
    Pg: HasSqlType<ST5>,
    requires { StartsWithin out.old }
    ensures wrote { (bytes : List ℕ) × (out.new.out.now.bytes ≡ out.old.out.now.bytes ++ bytes)
        × ((k : Known) → known (L.state out.old.lookup.now) ≡ Some k
        → WroteMembers (member ⟦<Pg as HasSqlType<ST1>>⟧.names A.writes k a.now
        (member ⟦<Pg as HasSqlType<ST2>>⟧.names B.writes k b.now
        (member ⟦<Pg as HasSqlType<ST3>>⟧.names C.writes k c.now
        (member ⟦<Pg as HasSqlType<ST4>>⟧.names D.writes k d.now
        (member ⟦<Pg as HasSqlType<ST5>>⟧.names E.writes k e.now no_member))))) bytes result) }
    ensures failed { result ≡ Err lookup_failed → HasFailed (L.state out.old.lookup.now) (L.state out.new.lookup.now) }
    ensures same { IsSameOutput out.old out.new }
    ensures told { (L.state out.new.lookup.now).told ≡ (L.state out.old.lookup.now).told }
    ensures faults { (L.state out.old.lookup.now).fault_count ≤ (L.state out.new.lookup.now).fault_count }
{
    write_component::<ST1, A, L>(a, out)?;
    write_four::<ST2, ST3, ST4, ST5, B, C, D, E, L>(b, c, d, e, out)
}

/// Writes six members.
pub(crate) fn write_six<
    ST1,
    ST2,
    ST3,
    ST4,
    ST5,
    ST6,
    A: ToSql<ST1>,
    B: ToSql<ST2>,
    C: ToSql<ST3>,
    D: ToSql<ST4>,
    E: ToSql<ST5>,
    F: ToSql<ST6>,
    L: PgMetadataLookup,
>(a: &A, b: &B, c: &C, d: &D, e: &E, f: &F, out: &mut Output<'_, L>) -> Result<(), WriteError>
where
    Pg: HasSqlType<ST1>,
    Pg: HasSqlType<ST2>,
    Pg: HasSqlType<ST3>,
    Pg: HasSqlType<ST4>,
    Pg: HasSqlType<ST5>,
    Pg: HasSqlType<ST6>,
    requires { StartsWithin out.old }
    ensures wrote { (bytes : List ℕ) × (out.new.out.now.bytes ≡ out.old.out.now.bytes ++ bytes)
        × ((k : Known) → known (L.state out.old.lookup.now) ≡ Some k
        → WroteMembers (member ⟦<Pg as HasSqlType<ST1>>⟧.names A.writes k a.now
        (member ⟦<Pg as HasSqlType<ST2>>⟧.names B.writes k b.now
        (member ⟦<Pg as HasSqlType<ST3>>⟧.names C.writes k c.now
        (member ⟦<Pg as HasSqlType<ST4>>⟧.names D.writes k d.now
        (member ⟦<Pg as HasSqlType<ST5>>⟧.names E.writes k e.now
        (member ⟦<Pg as HasSqlType<ST6>>⟧.names F.writes k f.now no_member)))))) bytes result) }
    ensures failed { result ≡ Err lookup_failed → HasFailed (L.state out.old.lookup.now) (L.state out.new.lookup.now) }
    ensures same { IsSameOutput out.old out.new }
    ensures told { (L.state out.new.lookup.now).told ≡ (L.state out.old.lookup.now).told }
    ensures faults { (L.state out.old.lookup.now).fault_count ≤ (L.state out.new.lookup.now).fault_count }
{
    write_component::<ST1, A, L>(a, out)?;
    write_five::<ST2, ST3, ST4, ST5, ST6, B, C, D, E, F, L>(b, c, d, e, f, out)
}

/// Writes seven members.
pub(crate) fn write_seven<
    ST1,
    ST2,
    ST3,
    ST4,
    ST5,
    ST6,
    ST7,
    A: ToSql<ST1>,
    B: ToSql<ST2>,
    C: ToSql<ST3>,
    D: ToSql<ST4>,
    E: ToSql<ST5>,
    F: ToSql<ST6>,
    G: ToSql<ST7>,
    L: PgMetadataLookup,
>(
    a: &A,
    b: &B,
    c: &C,
    d: &D,
    e: &E,
    f: &F,
    g: &G,
    out: &mut Output<'_, L>,
) -> Result<(), WriteError>
where
    Pg: HasSqlType<ST1>,
    Pg: HasSqlType<ST2>,
    Pg: HasSqlType<ST3>,
    Pg: HasSqlType<ST4>,
    Pg: HasSqlType<ST5>,
    Pg: HasSqlType<ST6>,
    Pg: HasSqlType<ST7>,
    requires { StartsWithin out.old }
    ensures wrote { (bytes : List ℕ) × (out.new.out.now.bytes ≡ out.old.out.now.bytes ++ bytes)
        × ((k : Known) → known (L.state out.old.lookup.now) ≡ Some k
        → WroteMembers (member ⟦<Pg as HasSqlType<ST1>>⟧.names A.writes k a.now
        (member ⟦<Pg as HasSqlType<ST2>>⟧.names B.writes k b.now
        (member ⟦<Pg as HasSqlType<ST3>>⟧.names C.writes k c.now
        (member ⟦<Pg as HasSqlType<ST4>>⟧.names D.writes k d.now
        (member ⟦<Pg as HasSqlType<ST5>>⟧.names E.writes k e.now
        (member ⟦<Pg as HasSqlType<ST6>>⟧.names F.writes k f.now
        (member ⟦<Pg as HasSqlType<ST7>>⟧.names G.writes k g.now no_member))))))) bytes result) }
    ensures failed { result ≡ Err lookup_failed → HasFailed (L.state out.old.lookup.now) (L.state out.new.lookup.now) }
    ensures same { IsSameOutput out.old out.new }
    ensures told { (L.state out.new.lookup.now).told ≡ (L.state out.old.lookup.now).told }
    ensures faults { (L.state out.old.lookup.now).fault_count ≤ (L.state out.new.lookup.now).fault_count }
{
    write_component::<ST1, A, L>(a, out)?;
    write_six::<ST2, ST3, ST4, ST5, ST6, ST7, B, C, D, E, F, G, L>(b, c, d, e, f, g, out)
}

/// Writes eight members.
pub(crate) fn write_eight<
    ST1,
    ST2,
    ST3,
    ST4,
    ST5,
    ST6,
    ST7,
    ST8,
    A: ToSql<ST1>,
    B: ToSql<ST2>,
    C: ToSql<ST3>,
    D: ToSql<ST4>,
    E: ToSql<ST5>,
    F: ToSql<ST6>,
    G: ToSql<ST7>,
    H: ToSql<ST8>,
    L: PgMetadataLookup,
>(
    a: &A,
    b: &B,
    c: &C,
    d: &D,
    e: &E,
    f: &F,
    g: &G,
    h: &H,
    out: &mut Output<'_, L>,
) -> Result<(), WriteError>
where
    Pg: HasSqlType<ST1>,
    Pg: HasSqlType<ST2>,
    Pg: HasSqlType<ST3>,
    Pg: HasSqlType<ST4>,
    Pg: HasSqlType<ST5>,
    Pg: HasSqlType<ST6>,
    Pg: HasSqlType<ST7>,
    Pg: HasSqlType<ST8>,
    requires { StartsWithin out.old }
    ensures wrote { (bytes : List ℕ) × (out.new.out.now.bytes ≡ out.old.out.now.bytes ++ bytes)
        × ((k : Known) → known (L.state out.old.lookup.now) ≡ Some k
        → WroteMembers (member ⟦<Pg as HasSqlType<ST1>>⟧.names A.writes k a.now
        (member ⟦<Pg as HasSqlType<ST2>>⟧.names B.writes k b.now
        (member ⟦<Pg as HasSqlType<ST3>>⟧.names C.writes k c.now
        (member ⟦<Pg as HasSqlType<ST4>>⟧.names D.writes k d.now
        (member ⟦<Pg as HasSqlType<ST5>>⟧.names E.writes k e.now
        (member ⟦<Pg as HasSqlType<ST6>>⟧.names F.writes k f.now
        (member ⟦<Pg as HasSqlType<ST7>>⟧.names G.writes k g.now
        (member ⟦<Pg as HasSqlType<ST8>>⟧.names H.writes k h.now no_member)))))))) bytes result) }
    ensures failed { result ≡ Err lookup_failed → HasFailed (L.state out.old.lookup.now) (L.state out.new.lookup.now) }
    ensures same { IsSameOutput out.old out.new }
    ensures told { (L.state out.new.lookup.now).told ≡ (L.state out.old.lookup.now).told }
    ensures faults { (L.state out.old.lookup.now).fault_count ≤ (L.state out.new.lookup.now).fault_count }
{
    write_component::<ST1, A, L>(a, out)?;
    write_seven::<ST2, ST3, ST4, ST5, ST6, ST7, ST8, B, C, D, E, F, G, H, L>(
        b, c, d, e, f, g, h, out,
    )
}
