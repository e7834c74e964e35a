ghost use Rattle.std.specs.Prelude.{◌||◌, false};
ghost use Rattle.pgw_row.specs.Building.{ReadsMembers, ReadsNone, RefusesMembers, RefusesNone, RefusesTuple};

use crate::members::read_tuple;
use crate::{FromSqlRow, Row, StaticallySizedRow};
use pgw_meta::FromSql;
use pgw_meta::deserialize::Result;
use std::alloc::Global;

// A tuple is built from as many fields at the front of a row as it has members. The implementations differ in that
// number alone: each writes its members as pairs in pairs, of which `read_tuple` reads any number.

impl<ST1, A: FromSql<ST1>> FromSqlRow<(ST1,)> for (A,) {
    ghost reads_row = { λ cells v. ReadsMembers A.reads ReadsNone 0 cells (v.0, tt) };

    ghost refuses_row = { RefusesTuple 1 (RefusesMembers A.reads A.refuses RefusesNone) };

    ghost MEMORY = { A.MEMORY || false };

    fn build_from_row<R: Row>(alloc: Global, row: &R) -> Result<(A,)> {
        let (a, ()) = read_tuple::<(ST1, ()), (A, ()), R>(alloc, row, 1)?;
        Ok((a,))
    }
}

impl<ST1, A: FromSql<ST1>> StaticallySizedRow<(ST1,)> for (A,) {
    ghost FIELD_COUNT = { 1 };

    const FIELD_COUNT: usize = 1;
}

impl<ST1, ST2, A: FromSql<ST1>, B: FromSql<ST2>> FromSqlRow<(ST1, ST2)> for (A, B) {
    ghost reads_row = { λ cells v. ReadsMembers A.reads (ReadsMembers B.reads ReadsNone) 0 cells (v.0, (v.1, tt)) };

    ghost refuses_row = { RefusesTuple 2 (RefusesMembers A.reads A.refuses
        (RefusesMembers B.reads B.refuses RefusesNone)) };

    ghost MEMORY = { A.MEMORY || (B.MEMORY || false) };

    fn build_from_row<R: Row>(alloc: Global, row: &R) -> Result<(A, B)> {
        let (a, (b, ())) = read_tuple::<(ST1, (ST2, ())), (A, (B, ())), R>(alloc, row, 2)?;
        Ok((a, b))
    }
}

impl<ST1, ST2, A: FromSql<ST1>, B: FromSql<ST2>> StaticallySizedRow<(ST1, ST2)> for (A, B) {
    ghost FIELD_COUNT = { 2 };

    const FIELD_COUNT: usize = 2;
}

impl<ST1, ST2, ST3, A: FromSql<ST1>, B: FromSql<ST2>, C: FromSql<ST3>> FromSqlRow<(ST1, ST2, ST3)>
    for (A, B, C) {
    ghost reads_row = { λ cells v. ReadsMembers A.reads (ReadsMembers B.reads
        (ReadsMembers C.reads ReadsNone)) 0 cells (v.0, (v.1, (v.2, tt))) };

    ghost refuses_row = { RefusesTuple 3 (RefusesMembers A.reads A.refuses (RefusesMembers B.reads B.refuses
        (RefusesMembers C.reads C.refuses RefusesNone))) };

    ghost MEMORY = { A.MEMORY || (B.MEMORY || (C.MEMORY || false)) };

    fn build_from_row<R: Row>(alloc: Global, row: &R) -> Result<(A, B, C)> {
        let (a, (b, (c, ()))) = read_tuple::<(ST1, (ST2, (ST3, ()))), (A, (B, (C, ()))), R>(
            alloc, row, 3,
        )?;
        Ok((a, b, c))
    }
}

impl<ST1, ST2, ST3, A: FromSql<ST1>, B: FromSql<ST2>, C: FromSql<ST3>> StaticallySizedRow<
    (ST1, ST2, ST3),
> for (A, B, C) {
    ghost FIELD_COUNT = { 3 };

    const FIELD_COUNT: usize = 3;
}

impl<
    ST1,
    ST2,
    ST3,
    ST4,
    A: FromSql<ST1>,
    B: FromSql<ST2>,
    C: FromSql<ST3>,
    D: FromSql<ST4>,
> FromSqlRow<(ST1, ST2, ST3, ST4)> for (A, B, C, D) {
    ghost reads_row = { λ cells v. ReadsMembers A.reads (ReadsMembers B.reads (ReadsMembers C.reads
        (ReadsMembers D.reads ReadsNone))) 0 cells (v.0, (v.1, (v.2, (v.3, tt)))) };

    ghost refuses_row = { RefusesTuple 4 (RefusesMembers A.reads A.refuses (RefusesMembers B.reads B.refuses
        (RefusesMembers C.reads C.refuses (RefusesMembers D.reads D.refuses RefusesNone)))) };

    ghost MEMORY = { A.MEMORY || (B.MEMORY || (C.MEMORY || (D.MEMORY || false))) };

    fn build_from_row<R: Row>(alloc: Global, row: &R) -> Result<(A, B, C, D)> {
        let (a, (b, (c, (d, ())))) = read_tuple::<
            (ST1, (ST2, (ST3, (ST4, ())))),
            (A, (B, (C, (D, ())))),
            R,
        >(alloc, row, 4)?;
        Ok((a, b, c, d))
    }
}

impl<
    ST1,
    ST2,
    ST3,
    ST4,
    A: FromSql<ST1>,
    B: FromSql<ST2>,
    C: FromSql<ST3>,
    D: FromSql<ST4>,
> StaticallySizedRow<(ST1, ST2, ST3, ST4)> for (A, B, C, D) {
    ghost FIELD_COUNT = { 4 };

    const FIELD_COUNT: usize = 4;
}

impl<
    ST1,
    ST2,
    ST3,
    ST4,
    ST5,
    A: FromSql<ST1>,
    B: FromSql<ST2>,
    C: FromSql<ST3>,
    D: FromSql<ST4>,
    E: FromSql<ST5>,
> FromSqlRow<(ST1, ST2, ST3, ST4, ST5)> for (A, B, C, D, E) {
    ghost reads_row = { λ cells v. ReadsMembers A.reads (ReadsMembers B.reads (ReadsMembers C.reads
        (ReadsMembers D.reads (ReadsMembers E.reads ReadsNone)))) 0 cells (v.0, (v.1, (v.2, (v.3, (v.4, tt))))) };

    ghost refuses_row = { RefusesTuple 5 (RefusesMembers A.reads A.refuses (RefusesMembers B.reads B.refuses
        (RefusesMembers C.reads C.refuses (RefusesMembers D.reads D.refuses
        (RefusesMembers E.reads E.refuses RefusesNone))))) };

    ghost MEMORY = { A.MEMORY || (B.MEMORY || (C.MEMORY || (D.MEMORY || (E.MEMORY || false)))) };

    fn build_from_row<R: Row>(alloc: Global, row: &R) -> Result<(A, B, C, D, E)> {
        let (a, (b, (c, (d, (e, ()))))) = read_tuple::<
            (ST1, (ST2, (ST3, (ST4, (ST5, ()))))),
            (A, (B, (C, (D, (E, ()))))),
            R,
        >(alloc, row, 5)?;
        Ok((a, b, c, d, e))
    }
}

impl<
    ST1,
    ST2,
    ST3,
    ST4,
    ST5,
    A: FromSql<ST1>,
    B: FromSql<ST2>,
    C: FromSql<ST3>,
    D: FromSql<ST4>,
    E: FromSql<ST5>,
> StaticallySizedRow<(ST1, ST2, ST3, ST4, ST5)> for (A, B, C, D, E) {
    ghost FIELD_COUNT = { 5 };

    const FIELD_COUNT: usize = 5;
}

impl<
    ST1,
    ST2,
    ST3,
    ST4,
    ST5,
    ST6,
    A: FromSql<ST1>,
    B: FromSql<ST2>,
    C: FromSql<ST3>,
    D: FromSql<ST4>,
    E: FromSql<ST5>,
    F: FromSql<ST6>,
> FromSqlRow<(ST1, ST2, ST3, ST4, ST5, ST6)> for (A, B, C, D, E, F) {
    ghost reads_row = { λ cells v. ReadsMembers A.reads (ReadsMembers B.reads (ReadsMembers C.reads
        (ReadsMembers D.reads (ReadsMembers E.reads (ReadsMembers F.reads ReadsNone))))) 0 cells (
          v.0,
          (
            v.1,
            (
              v.2,
              (v.3, (v.4, (v.5, tt))),
            ),
          ),
        ) };

    ghost refuses_row = { RefusesTuple 6 (RefusesMembers A.reads A.refuses (RefusesMembers B.reads B.refuses
        (RefusesMembers C.reads C.refuses (RefusesMembers D.reads D.refuses (RefusesMembers E.reads E.refuses
        (RefusesMembers F.reads F.refuses RefusesNone)))))) };

    ghost MEMORY = { A.MEMORY || (B.MEMORY || (C.MEMORY || (D.MEMORY || (E.MEMORY || (F.MEMORY || false))))) };

    fn build_from_row<R: Row>(alloc: Global, row: &R) -> Result<(A, B, C, D, E, F)> {
        let (a, (b, (c, (d, (e, (f, ())))))) = read_tuple::<
            (ST1, (ST2, (ST3, (ST4, (ST5, (ST6, ())))))),
            (A, (B, (C, (D, (E, (F, ())))))),
            R,
        >(alloc, row, 6)?;
        Ok((a, b, c, d, e, f))
    }
}

impl<
    ST1,
    ST2,
    ST3,
    ST4,
    ST5,
    ST6,
    A: FromSql<ST1>,
    B: FromSql<ST2>,
    C: FromSql<ST3>,
    D: FromSql<ST4>,
    E: FromSql<ST5>,
    F: FromSql<ST6>,
> StaticallySizedRow<(ST1, ST2, ST3, ST4, ST5, ST6)> for (A, B, C, D, E, F) {
    ghost FIELD_COUNT = { 6 };

    const FIELD_COUNT: usize = 6;
}

impl<
    ST1,
    ST2,
    ST3,
    ST4,
    ST5,
    ST6,
    ST7,
    A: FromSql<ST1>,
    B: FromSql<ST2>,
    C: FromSql<ST3>,
    D: FromSql<ST4>,
    E: FromSql<ST5>,
    F: FromSql<ST6>,
    G: FromSql<ST7>,
> FromSqlRow<(ST1, ST2, ST3, ST4, ST5, ST6, ST7)> for (A, B, C, D, E, F, G) {
    ghost reads_row = { λ cells v. ReadsMembers A.reads (ReadsMembers B.reads (ReadsMembers C.reads
        (ReadsMembers D.reads (ReadsMembers E.reads (ReadsMembers F.reads
        (ReadsMembers G.reads ReadsNone)))))) 0 cells (v.0, (v.1, (v.2, (v.3, (v.4, (v.5, (v.6, tt))))))) };

    ghost refuses_row = { RefusesTuple 7 (RefusesMembers A.reads A.refuses (RefusesMembers B.reads B.refuses
        (RefusesMembers C.reads C.refuses (RefusesMembers D.reads D.refuses (RefusesMembers E.reads E.refuses
        (RefusesMembers F.reads F.refuses (RefusesMembers G.reads G.refuses RefusesNone))))))) };

    ghost MEMORY = { A.MEMORY || (B.MEMORY || (C.MEMORY || (D.MEMORY || (E.MEMORY || (F.MEMORY ||
        (G.MEMORY || false)))))) };

    fn build_from_row<R: Row>(alloc: Global, row: &R) -> Result<(A, B, C, D, E, F, G)> {
        let (a, (b, (c, (d, (e, (f, (g, ()))))))) = read_tuple::<
            (ST1, (ST2, (ST3, (ST4, (ST5, (ST6, (ST7, ()))))))),
            (A, (B, (C, (D, (E, (F, (G, ()))))))),
            R,
        >(alloc, row, 7)?;
        Ok((a, b, c, d, e, f, g))
    }
}

impl<
    ST1,
    ST2,
    ST3,
    ST4,
    ST5,
    ST6,
    ST7,
    A: FromSql<ST1>,
    B: FromSql<ST2>,
    C: FromSql<ST3>,
    D: FromSql<ST4>,
    E: FromSql<ST5>,
    F: FromSql<ST6>,
    G: FromSql<ST7>,
> StaticallySizedRow<(ST1, ST2, ST3, ST4, ST5, ST6, ST7)> for (A, B, C, D, E, F, G) {
    ghost FIELD_COUNT = { 7 };

    const FIELD_COUNT: usize = 7;
}

impl<
    ST1,
    ST2,
    ST3,
    ST4,
    ST5,
    ST6,
    ST7,
    ST8,
    A: FromSql<ST1>,
    B: FromSql<ST2>,
    C: FromSql<ST3>,
    D: FromSql<ST4>,
    E: FromSql<ST5>,
    F: FromSql<ST6>,
    G: FromSql<ST7>,
    H: FromSql<ST8>,
> FromSqlRow<(ST1, ST2, ST3, ST4, ST5, ST6, ST7, ST8)> for (A, B, C, D, E, F, G, H) {
    ghost reads_row = { λ cells v. ReadsMembers A.reads (ReadsMembers B.reads (ReadsMembers C.reads
        (ReadsMembers D.reads (ReadsMembers E.reads (ReadsMembers F.reads (ReadsMembers G.reads
        (ReadsMembers H.reads ReadsNone))))))) 0 cells (v.0, (v.1, (v.2, (v.3, (v.4, (v.5, (v.6, (v.7, tt)))))))) };

    ghost refuses_row = { RefusesTuple 8 (RefusesMembers A.reads A.refuses (RefusesMembers B.reads B.refuses
        (RefusesMembers C.reads C.refuses (RefusesMembers D.reads D.refuses (RefusesMembers E.reads E.refuses
        (RefusesMembers F.reads F.refuses (RefusesMembers G.reads G.refuses
        (RefusesMembers H.reads H.refuses RefusesNone)))))))) };

    ghost MEMORY = { A.MEMORY || (B.MEMORY || (C.MEMORY || (D.MEMORY || (E.MEMORY || (F.MEMORY || (G.MEMORY ||
        (H.MEMORY || false))))))) };

    fn build_from_row<R: Row>(alloc: Global, row: &R) -> Result<(A, B, C, D, E, F, G, H)> {
        let (a, (b, (c, (d, (e, (f, (g, (h, ())))))))) = read_tuple::<
            (ST1, (ST2, (ST3, (ST4, (ST5, (ST6, (ST7, (ST8, ())))))))),
            (A, (B, (C, (D, (E, (F, (G, (H, ())))))))),
            R,
        >(alloc, row, 8)?;
        Ok((a, b, c, d, e, f, g, h))
    }
}

impl<
    ST1,
    ST2,
    ST3,
    ST4,
    ST5,
    ST6,
    ST7,
    ST8,
    A: FromSql<ST1>,
    B: FromSql<ST2>,
    C: FromSql<ST3>,
    D: FromSql<ST4>,
    E: FromSql<ST5>,
    F: FromSql<ST6>,
    G: FromSql<ST7>,
    H: FromSql<ST8>,
> StaticallySizedRow<(ST1, ST2, ST3, ST4, ST5, ST6, ST7, ST8)> for (A, B, C, D, E, F, G, H) {
    ghost FIELD_COUNT = { 8 };

    const FIELD_COUNT: usize = 8;
}
