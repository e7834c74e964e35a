ghost use Rattle.std.specs.Prelude.{◌||◌, false};
ghost use Rattle.pgw_meta.specs.Reading.{ReadsPiece, RefusesPiece};
ghost use Rattle.pgw_record.specs.Record.{IsRecord, SpellsMember, SpellsNone};
ghost use Rattle.pgw_record.specs.Record.{RefusesRecord, RefusesMember, RefusesNone};

use crate::members::read_tuple;
use crate::sql_types::Record;
use pgw_meta::deserialize::{FromSql, Result};
use pgw_wire::PgValue;
use std::alloc::Global;

// A record is read as a tuple of as many members as it has components. The implementations differ in that number alone:
// each writes its members as pairs in pairs, of which `read_tuple` reads any number.

/// The field of a record of one component: the count 1, in 4 bytes, and the oid of the component's type, in 4 bytes,
/// its length, in 4 bytes, and its bytes.
impl<ST1, A: FromSql<ST1>> FromSql<Record<(ST1,)>> for (A,) {
    ghost reads = { ReadsPiece (λ piece v. IsRecord (SpellsMember A.reads v.0 SpellsNone) piece) };

    ghost refuses = { RefusesPiece (RefusesRecord 1 (RefusesMember A.reads A.refuses RefusesNone)) };

    ghost MEMORY = { A.MEMORY || false };

    /// The component, read as the member. The first fault from the left is the error: `ShortBuffer`, `TupleCount`,
    /// `ZeroOid`, `NegativeSize`, `ElementBytes` and `Surplus` as from `RecordPieces`, and what the member is refused
    /// with.
    fn from_sql(alloc: Global, value: PgValue<'_>) -> Result<(A,)> {
        <(A,) as FromSql<Record<(ST1,)>>>::from_nullable_sql(alloc, Some(value))
    }

    fn from_nullable_sql(alloc: Global, value: Option<PgValue<'_>>) -> Result<(A,)> {
        let (a, ()) = read_tuple::<(ST1, ()), (A, ())>(alloc, value, 1)?;
        Ok((a,))
    }
}

impl<ST1, ST2, A: FromSql<ST1>, B: FromSql<ST2>> FromSql<Record<(ST1, ST2)>> for (A, B) {
    ghost reads = { ReadsPiece (λ piece v. IsRecord (SpellsMember A.reads v.0 (SpellsMember B.reads v.1 SpellsNone))
        piece) };

    ghost refuses = { RefusesPiece (RefusesRecord 2 (RefusesMember A.reads A.refuses (RefusesMember B.reads B.refuses
        RefusesNone))) };

    ghost MEMORY = { A.MEMORY || (B.MEMORY || false) };

    fn from_sql(alloc: Global, value: PgValue<'_>) -> Result<(A, B)> {
        <(A, B) as FromSql<Record<(ST1, ST2)>>>::from_nullable_sql(alloc, Some(value))
    }

    fn from_nullable_sql(alloc: Global, value: Option<PgValue<'_>>) -> Result<(A, B)> {
        let (a, (b, ())) = read_tuple::<(ST1, (ST2, ())), (A, (B, ()))>(alloc, value, 2)?;
        Ok((a, b))
    }
}

impl<ST1, ST2, ST3, A: FromSql<ST1>, B: FromSql<ST2>, C: FromSql<ST3>> FromSql<
    Record<(ST1, ST2, ST3)>,
> for (A, B, C) {
    ghost reads = { ReadsPiece (λ piece v. IsRecord (SpellsMember A.reads v.0 (SpellsMember B.reads v.1 (SpellsMember
        C.reads v.2 SpellsNone))) piece) };

    ghost refuses = { RefusesPiece (RefusesRecord 3 (RefusesMember A.reads A.refuses (RefusesMember B.reads B.refuses
        (RefusesMember C.reads C.refuses RefusesNone)))) };

    ghost MEMORY = { A.MEMORY || (B.MEMORY || (C.MEMORY || false)) };

    fn from_sql(alloc: Global, value: PgValue<'_>) -> Result<(A, B, C)> {
        <(A, B, C) as FromSql<Record<(ST1, ST2, ST3)>>>::from_nullable_sql(alloc, Some(value))
    }

    fn from_nullable_sql(alloc: Global, value: Option<PgValue<'_>>) -> Result<(A, B, C)> {
        let (a, (b, (c, ()))) = read_tuple::<(ST1, (ST2, (ST3, ()))), (A, (B, (C, ())))>(
            alloc, value, 3,
        )?;
        Ok((a, b, c))
    }
}

impl<
    ST1,
    ST2,
    ST3,
    ST4,
    A: FromSql<ST1>,
    B: FromSql<ST2>,
    C: FromSql<ST3>,
    D: FromSql<ST4>,
> FromSql<Record<(ST1, ST2, ST3, ST4)>> for (A, B, C, D) {
    ghost reads = { ReadsPiece (λ piece v. IsRecord (SpellsMember A.reads v.0 (SpellsMember B.reads v.1 (SpellsMember
        C.reads v.2 (SpellsMember D.reads v.3 SpellsNone)))) piece) };

    ghost refuses = { RefusesPiece (RefusesRecord 4 (RefusesMember A.reads A.refuses (RefusesMember B.reads B.refuses
        (RefusesMember C.reads C.refuses (RefusesMember D.reads D.refuses RefusesNone))))) };

    ghost MEMORY = { A.MEMORY || (B.MEMORY || (C.MEMORY || (D.MEMORY || false))) };

    fn from_sql(alloc: Global, value: PgValue<'_>) -> Result<(A, B, C, D)> {
        <(A, B, C, D) as FromSql<Record<(ST1, ST2, ST3, ST4)>>>::from_nullable_sql(
            alloc,
            Some(value),
        )
    }

    fn from_nullable_sql(alloc: Global, value: Option<PgValue<'_>>) -> Result<(A, B, C, D)> {
        let (a, (b, (c, (d, ())))) = read_tuple::<
            (ST1, (ST2, (ST3, (ST4, ())))),
            (A, (B, (C, (D, ())))),
        >(alloc, value, 4)?;
        Ok((a, b, c, d))
    }
}

impl<
    ST1,
    ST2,
    ST3,
    ST4,
    ST5,
    A: FromSql<ST1>,
    B: FromSql<ST2>,
    C: FromSql<ST3>,
    D: FromSql<ST4>,
    E: FromSql<ST5>,
> FromSql<Record<(ST1, ST2, ST3, ST4, ST5)>> for (A, B, C, D, E) {
    ghost reads = { ReadsPiece (λ piece v. IsRecord (SpellsMember A.reads v.0 (SpellsMember B.reads v.1 (SpellsMember
        C.reads v.2 (SpellsMember D.reads v.3 (SpellsMember E.reads v.4 SpellsNone))))) piece) };

    ghost refuses = { RefusesPiece (RefusesRecord 5 (RefusesMember A.reads A.refuses (RefusesMember B.reads B.refuses
        (RefusesMember C.reads C.refuses (RefusesMember D.reads D.refuses (RefusesMember E.reads E.refuses
        RefusesNone)))))) };

    ghost MEMORY = { A.MEMORY || (B.MEMORY || (C.MEMORY || (D.MEMORY || (E.MEMORY || false)))) };

    fn from_sql(alloc: Global, value: PgValue<'_>) -> Result<(A, B, C, D, E)> {
        <(A, B, C, D, E) as FromSql<Record<(ST1, ST2, ST3, ST4, ST5)>>>::from_nullable_sql(
            alloc,
            Some(value),
        )
    }

    fn from_nullable_sql(alloc: Global, value: Option<PgValue<'_>>) -> Result<(A, B, C, D, E)> {
        let (a, (b, (c, (d, (e, ()))))) = read_tuple::<
            (ST1, (ST2, (ST3, (ST4, (ST5, ()))))),
            (A, (B, (C, (D, (E, ()))))),
        >(alloc, value, 5)?;
        Ok((a, b, c, d, e))
    }
}

impl<
    ST1,
    ST2,
    ST3,
    ST4,
    ST5,
    ST6,
    A: FromSql<ST1>,
    B: FromSql<ST2>,
    C: FromSql<ST3>,
    D: FromSql<ST4>,
    E: FromSql<ST5>,
    F: FromSql<ST6>,
> FromSql<Record<(ST1, ST2, ST3, ST4, ST5, ST6)>> for (A, B, C, D, E, F) {
    ghost reads = { ReadsPiece (λ piece v. IsRecord (SpellsMember A.reads v.0 (SpellsMember B.reads v.1 (SpellsMember
        C.reads v.2 (SpellsMember D.reads v.3 (SpellsMember E.reads v.4 (SpellsMember F.reads v.5 SpellsNone))))))
        piece) };

    ghost refuses = { RefusesPiece (RefusesRecord 6 (RefusesMember A.reads A.refuses (RefusesMember B.reads B.refuses
        (RefusesMember C.reads C.refuses (RefusesMember D.reads D.refuses (RefusesMember E.reads E.refuses
        (RefusesMember F.reads F.refuses RefusesNone))))))) };

    ghost MEMORY = { A.MEMORY || (B.MEMORY || (C.MEMORY || (D.MEMORY || (E.MEMORY || (F.MEMORY || false))))) };

    fn from_sql(alloc: Global, value: PgValue<'_>) -> Result<(A, B, C, D, E, F)> {
        <(A, B, C, D, E, F) as FromSql<Record<(ST1, ST2, ST3, ST4, ST5, ST6)>>>::from_nullable_sql(
            alloc,
            Some(value),
        )
    }

    fn from_nullable_sql(alloc: Global, value: Option<PgValue<'_>>) -> Result<(A, B, C, D, E, F)> {
        let (a, (b, (c, (d, (e, (f, ())))))) = read_tuple::<
            (ST1, (ST2, (ST3, (ST4, (ST5, (ST6, ())))))),
            (A, (B, (C, (D, (E, (F, ())))))),
        >(alloc, value, 6)?;
        Ok((a, b, c, d, e, f))
    }
}

impl<
    ST1,
    ST2,
    ST3,
    ST4,
    ST5,
    ST6,
    ST7,
    A: FromSql<ST1>,
    B: FromSql<ST2>,
    C: FromSql<ST3>,
    D: FromSql<ST4>,
    E: FromSql<ST5>,
    F: FromSql<ST6>,
    G: FromSql<ST7>,
> FromSql<Record<(ST1, ST2, ST3, ST4, ST5, ST6, ST7)>> for (A, B, C, D, E, F, G) {
    ghost reads = { ReadsPiece (λ piece v. IsRecord (SpellsMember A.reads v.0 (SpellsMember B.reads v.1 (SpellsMember
        C.reads v.2 (SpellsMember D.reads v.3 (SpellsMember E.reads v.4 (SpellsMember F.reads v.5 (SpellsMember
        G.reads v.6 SpellsNone))))))) piece) };

    ghost refuses = { RefusesPiece (RefusesRecord 7 (RefusesMember A.reads A.refuses (RefusesMember B.reads B.refuses
        (RefusesMember C.reads C.refuses (RefusesMember D.reads D.refuses (RefusesMember E.reads E.refuses
        (RefusesMember F.reads F.refuses (RefusesMember G.reads G.refuses RefusesNone)))))))) };

    ghost MEMORY = { A.MEMORY || (B.MEMORY || (C.MEMORY || (D.MEMORY || (E.MEMORY || (F.MEMORY || (G.MEMORY ||
        false)))))) };

    fn from_sql(alloc: Global, value: PgValue<'_>) -> Result<(A, B, C, D, E, F, G)> {
        <(A, B, C, D, E, F, G) as FromSql<
            Record<(ST1, ST2, ST3, ST4, ST5, ST6, ST7)>,
        >>::from_nullable_sql(alloc, Some(value))
    }

    fn from_nullable_sql(
        alloc: Global,
        value: Option<PgValue<'_>>,
    ) -> Result<(A, B, C, D, E, F, G)> {
        let (a, (b, (c, (d, (e, (f, (g, ()))))))) = read_tuple::<
            (ST1, (ST2, (ST3, (ST4, (ST5, (ST6, (ST7, ()))))))),
            (A, (B, (C, (D, (E, (F, (G, ()))))))),
        >(alloc, value, 7)?;
        Ok((a, b, c, d, e, f, g))
    }
}

impl<
    ST1,
    ST2,
    ST3,
    ST4,
    ST5,
    ST6,
    ST7,
    ST8,
    A: FromSql<ST1>,
    B: FromSql<ST2>,
    C: FromSql<ST3>,
    D: FromSql<ST4>,
    E: FromSql<ST5>,
    F: FromSql<ST6>,
    G: FromSql<ST7>,
    H: FromSql<ST8>,
> FromSql<Record<(ST1, ST2, ST3, ST4, ST5, ST6, ST7, ST8)>> for (A, B, C, D, E, F, G, H) {
    ghost reads = { ReadsPiece (λ piece v. IsRecord (SpellsMember A.reads v.0 (SpellsMember B.reads v.1 (SpellsMember
        C.reads v.2 (SpellsMember D.reads v.3 (SpellsMember E.reads v.4 (SpellsMember F.reads v.5 (SpellsMember
        G.reads v.6 (SpellsMember H.reads v.7 SpellsNone)))))))) piece) };

    ghost refuses = { RefusesPiece (RefusesRecord 8 (RefusesMember A.reads A.refuses (RefusesMember B.reads B.refuses
        (RefusesMember C.reads C.refuses (RefusesMember D.reads D.refuses (RefusesMember E.reads E.refuses
        (RefusesMember F.reads F.refuses (RefusesMember G.reads G.refuses (RefusesMember H.reads H.refuses
        RefusesNone))))))))) };

    ghost MEMORY = { A.MEMORY || (B.MEMORY || (C.MEMORY || (D.MEMORY || (E.MEMORY || (F.MEMORY || (G.MEMORY ||
        (H.MEMORY || false))))))) };

    fn from_sql(alloc: Global, value: PgValue<'_>) -> Result<(A, B, C, D, E, F, G, H)> {
        <(A, B, C, D, E, F, G, H) as FromSql<
            Record<(ST1, ST2, ST3, ST4, ST5, ST6, ST7, ST8)>,
        >>::from_nullable_sql(alloc, Some(value))
    }

    fn from_nullable_sql(
        alloc: Global,
        value: Option<PgValue<'_>>,
    ) -> Result<(A, B, C, D, E, F, G, H)> {
        let (a, (b, (c, (d, (e, (f, (g, (h, ())))))))) = read_tuple::<
            (ST1, (ST2, (ST3, (ST4, (ST5, (ST6, (ST7, (ST8, ())))))))),
            (A, (B, (C, (D, (E, (F, (G, (H, ())))))))),
        >(alloc, value, 8)?;
        Ok((a, b, c, d, e, f, g, h))
    }
}
