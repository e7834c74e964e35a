ghost use Rattle.std.specs.Prelude.{◌≡◌, false};

use crate::{FromSqlRow, FromStaticSqlRow, Queryable, Row};
use pgw_meta::FromSql;
use pgw_meta::deserialize::Result;
use std::alloc::Global;

// A tuple is a value by itself, which is read as `FromSqlRow` says.

impl<ST1, A: FromSql<ST1>> FromStaticSqlRow<(ST1,)> for (A,) {
    ghost reads_row = { ⟦<(A,) as FromSqlRow<(ST1,)>>⟧.reads_row };

    ghost refuses_row = { ⟦<(A,) as FromSqlRow<(ST1,)>>⟧.refuses_row };

    ghost MEMORY = { ⟦<(A,) as FromSqlRow<(ST1,)>>⟧.MEMORY };

    fn build_from_row<R: Row>(alloc: Global, row: &R) -> Result<(A,)> {
        <(A,) as FromSqlRow<(ST1,)>>::build_from_row(alloc, row)
    }
}

impl<ST1, A: FromSql<ST1>> Queryable<(ST1,)> for (A,) {
    type Row = (A,);

    ghost builds = { λ row v. v ≡ row };

    ghost refuses = { λ _ _. ⊥ };

    ghost MEMORY = { false };

    fn build(_alloc: Global, row: (A,)) -> Result<(A,)> {
        Ok(row)
    }
}

impl<ST1, ST2, A: FromSql<ST1>, B: FromSql<ST2>> FromStaticSqlRow<(ST1, ST2)> for (A, B) {
    ghost reads_row = { ⟦<(A, B) as FromSqlRow<(ST1, ST2)>>⟧.reads_row };

    ghost refuses_row = { ⟦<(A, B) as FromSqlRow<(ST1, ST2)>>⟧.refuses_row };

    ghost MEMORY = { ⟦<(A, B) as FromSqlRow<(ST1, ST2)>>⟧.MEMORY };

    fn build_from_row<R: Row>(alloc: Global, row: &R) -> Result<(A, B)> {
        <(A, B) as FromSqlRow<(ST1, ST2)>>::build_from_row(alloc, row)
    }
}

impl<ST1, ST2, A: FromSql<ST1>, B: FromSql<ST2>> Queryable<(ST1, ST2)> for (A, B) {
    type Row = (A, B);

    ghost builds = { λ row v. v ≡ row };

    ghost refuses = { λ _ _. ⊥ };

    ghost MEMORY = { false };

    fn build(_alloc: Global, row: (A, B)) -> Result<(A, B)> {
        Ok(row)
    }
}

impl<ST1, ST2, ST3, A: FromSql<ST1>, B: FromSql<ST2>, C: FromSql<ST3>> FromStaticSqlRow<
    (ST1, ST2, ST3),
> for (A, B, C) {
    ghost reads_row = { ⟦<(A, B, C) as FromSqlRow<(ST1, ST2, ST3)>>⟧.reads_row };

    ghost refuses_row = { ⟦<(A, B, C) as FromSqlRow<(ST1, ST2, ST3)>>⟧.refuses_row };

    ghost MEMORY = { ⟦<(A, B, C) as FromSqlRow<(ST1, ST2, ST3)>>⟧.MEMORY };

    fn build_from_row<R: Row>(alloc: Global, row: &R) -> Result<(A, B, C)> {
        <(A, B, C) as FromSqlRow<(ST1, ST2, ST3)>>::build_from_row(alloc, row)
    }
}

impl<ST1, ST2, ST3, A: FromSql<ST1>, B: FromSql<ST2>, C: FromSql<ST3>> Queryable<(ST1, ST2, ST3)>
    for (A, B, C) {
    type Row = (A, B, C);

    ghost builds = { λ row v. v ≡ row };

    ghost refuses = { λ _ _. ⊥ };

    ghost MEMORY = { false };

    fn build(_alloc: Global, row: (A, B, C)) -> Result<(A, B, C)> {
        Ok(row)
    }
}

impl<
    ST1,
    ST2,
    ST3,
    ST4,
    A: FromSql<ST1>,
    B: FromSql<ST2>,
    C: FromSql<ST3>,
    D: FromSql<ST4>,
> FromStaticSqlRow<(ST1, ST2, ST3, ST4)> for (A, B, C, D) {
    ghost reads_row = { ⟦<(A, B, C, D) as FromSqlRow<(ST1, ST2, ST3, ST4)>>⟧.reads_row };

    ghost refuses_row = { ⟦<(A, B, C, D) as FromSqlRow<(ST1, ST2, ST3, ST4)>>⟧.refuses_row };

    ghost MEMORY = { ⟦<(A, B, C, D) as FromSqlRow<(ST1, ST2, ST3, ST4)>>⟧.MEMORY };

    fn build_from_row<R: Row>(alloc: Global, row: &R) -> Result<(A, B, C, D)> {
        <(A, B, C, D) as FromSqlRow<(ST1, ST2, ST3, ST4)>>::build_from_row(alloc, row)
    }
}

impl<
    ST1,
    ST2,
    ST3,
    ST4,
    A: FromSql<ST1>,
    B: FromSql<ST2>,
    C: FromSql<ST3>,
    D: FromSql<ST4>,
> Queryable<(ST1, ST2, ST3, ST4)> for (A, B, C, D) {
    type Row = (A, B, C, D);

    ghost builds = { λ row v. v ≡ row };

    ghost refuses = { λ _ _. ⊥ };

    ghost MEMORY = { false };

    fn build(_alloc: Global, row: (A, B, C, D)) -> Result<(A, B, C, D)> {
        Ok(row)
    }
}

impl<
    ST1,
    ST2,
    ST3,
    ST4,
    ST5,
    A: FromSql<ST1>,
    B: FromSql<ST2>,
    C: FromSql<ST3>,
    D: FromSql<ST4>,
    E: FromSql<ST5>,
> FromStaticSqlRow<(ST1, ST2, ST3, ST4, ST5)> for (A, B, C, D, E) {
    ghost reads_row = { ⟦<(A, B, C, D, E) as FromSqlRow<(ST1, ST2, ST3, ST4, ST5)>>⟧.reads_row };

    ghost refuses_row = { ⟦<(A, B, C, D, E) as FromSqlRow<(ST1, ST2, ST3, ST4, ST5)>>⟧.refuses_row };

    ghost MEMORY = { ⟦<(A, B, C, D, E) as FromSqlRow<(ST1, ST2, ST3, ST4, ST5)>>⟧.MEMORY };

    fn build_from_row<R: Row>(alloc: Global, row: &R) -> Result<(A, B, C, D, E)> {
        <(A, B, C, D, E) as FromSqlRow<(ST1, ST2, ST3, ST4, ST5)>>::build_from_row(alloc, row)
    }
}

impl<
    ST1,
    ST2,
    ST3,
    ST4,
    ST5,
    A: FromSql<ST1>,
    B: FromSql<ST2>,
    C: FromSql<ST3>,
    D: FromSql<ST4>,
    E: FromSql<ST5>,
> Queryable<(ST1, ST2, ST3, ST4, ST5)> for (A, B, C, D, E) {
    type Row = (A, B, C, D, E);

    ghost builds = { λ row v. v ≡ row };

    ghost refuses = { λ _ _. ⊥ };

    ghost MEMORY = { false };

    fn build(_alloc: Global, row: (A, B, C, D, E)) -> Result<(A, B, C, D, E)> {
        Ok(row)
    }
}

impl<
    ST1,
    ST2,
    ST3,
    ST4,
    ST5,
    ST6,
    A: FromSql<ST1>,
    B: FromSql<ST2>,
    C: FromSql<ST3>,
    D: FromSql<ST4>,
    E: FromSql<ST5>,
    F: FromSql<ST6>,
> FromStaticSqlRow<(ST1, ST2, ST3, ST4, ST5, ST6)> for (A, B, C, D, E, F) {
    ghost reads_row = { ⟦<(A, B, C, D, E, F) as FromSqlRow<(ST1, ST2, ST3, ST4, ST5, ST6)>>⟧.reads_row };

    ghost refuses_row = { ⟦<(A, B, C, D, E, F) as FromSqlRow<(ST1, ST2, ST3, ST4, ST5, ST6)>>⟧.refuses_row };

    ghost MEMORY = { ⟦<(A, B, C, D, E, F) as FromSqlRow<(ST1, ST2, ST3, ST4, ST5, ST6)>>⟧.MEMORY };

    fn build_from_row<R: Row>(alloc: Global, row: &R) -> Result<(A, B, C, D, E, F)> {
        <(A, B, C, D, E, F) as FromSqlRow<(ST1, ST2, ST3, ST4, ST5, ST6)>>::build_from_row(
            alloc, row,
        )
    }
}

impl<
    ST1,
    ST2,
    ST3,
    ST4,
    ST5,
    ST6,
    A: FromSql<ST1>,
    B: FromSql<ST2>,
    C: FromSql<ST3>,
    D: FromSql<ST4>,
    E: FromSql<ST5>,
    F: FromSql<ST6>,
> Queryable<(ST1, ST2, ST3, ST4, ST5, ST6)> for (A, B, C, D, E, F) {
    type Row = (A, B, C, D, E, F);

    ghost builds = { λ row v. v ≡ row };

    ghost refuses = { λ _ _. ⊥ };

    ghost MEMORY = { false };

    fn build(_alloc: Global, row: (A, B, C, D, E, F)) -> Result<(A, B, C, D, E, F)> {
        Ok(row)
    }
}

impl<
    ST1,
    ST2,
    ST3,
    ST4,
    ST5,
    ST6,
    ST7,
    A: FromSql<ST1>,
    B: FromSql<ST2>,
    C: FromSql<ST3>,
    D: FromSql<ST4>,
    E: FromSql<ST5>,
    F: FromSql<ST6>,
    G: FromSql<ST7>,
> FromStaticSqlRow<(ST1, ST2, ST3, ST4, ST5, ST6, ST7)> for (A, B, C, D, E, F, G) {
    ghost reads_row = { ⟦<(A, B, C, D, E, F, G) as FromSqlRow<(ST1, ST2, ST3, ST4, ST5, ST6, ST7)>>⟧.reads_row };

    ghost refuses_row = { ⟦<(A, B, C, D, E, F, G) as FromSqlRow<(ST1, ST2, ST3, ST4, ST5, ST6, ST7)>>⟧.refuses_row };

    ghost MEMORY = { ⟦<(A, B, C, D, E, F, G) as FromSqlRow<(ST1, ST2, ST3, ST4, ST5, ST6, ST7)>>⟧.MEMORY };

    fn build_from_row<R: Row>(alloc: Global, row: &R) -> Result<(A, B, C, D, E, F, G)> {
        <(A, B, C, D, E, F, G) as FromSqlRow<(ST1, ST2, ST3, ST4, ST5, ST6, ST7)>>::build_from_row(
            alloc, row,
        )
    }
}

impl<
    ST1,
    ST2,
    ST3,
    ST4,
    ST5,
    ST6,
    ST7,
    A: FromSql<ST1>,
    B: FromSql<ST2>,
    C: FromSql<ST3>,
    D: FromSql<ST4>,
    E: FromSql<ST5>,
    F: FromSql<ST6>,
    G: FromSql<ST7>,
> Queryable<(ST1, ST2, ST3, ST4, ST5, ST6, ST7)> for (A, B, C, D, E, F, G) {
    type Row = (A, B, C, D, E, F, G);

    ghost builds = { λ row v. v ≡ row };

    ghost refuses = { λ _ _. ⊥ };

    ghost MEMORY = { false };

    fn build(_alloc: Global, row: (A, B, C, D, E, F, G)) -> Result<(A, B, C, D, E, F, G)> {
        Ok(row)
    }
}

impl<
    ST1,
    ST2,
    ST3,
    ST4,
    ST5,
    ST6,
    ST7,
    ST8,
    A: FromSql<ST1>,
    B: FromSql<ST2>,
    C: FromSql<ST3>,
    D: FromSql<ST4>,
    E: FromSql<ST5>,
    F: FromSql<ST6>,
    G: FromSql<ST7>,
    H: FromSql<ST8>,
> FromStaticSqlRow<(ST1, ST2, ST3, ST4, ST5, ST6, ST7, ST8)> for (A, B, C, D, E, F, G, H) {
    ghost reads_row = { ⟦<(A, B, C, D, E, F, G, H) as FromSqlRow<(ST1, ST2, ST3, ST4, ST5, ST6, ST7, ST8)>>⟧.reads_row };

    ghost refuses_row = { ⟦<(A, B, C, D, E, F, G, H) as FromSqlRow<(ST1, ST2, ST3, ST4, ST5, ST6, ST7, ST8)>>⟧.refuses_row };

    ghost MEMORY = { ⟦<(A, B, C, D, E, F, G, H) as FromSqlRow<(ST1, ST2, ST3, ST4, ST5, ST6, ST7, ST8)>>⟧.MEMORY };

    fn build_from_row<R: Row>(alloc: Global, row: &R) -> Result<(A, B, C, D, E, F, G, H)> {
        <(A, B, C, D, E, F, G, H) as FromSqlRow<
            (ST1, ST2, ST3, ST4, ST5, ST6, ST7, ST8),
        >>::build_from_row(alloc, row)
    }
}

impl<
    ST1,
    ST2,
    ST3,
    ST4,
    ST5,
    ST6,
    ST7,
    ST8,
    A: FromSql<ST1>,
    B: FromSql<ST2>,
    C: FromSql<ST3>,
    D: FromSql<ST4>,
    E: FromSql<ST5>,
    F: FromSql<ST6>,
    G: FromSql<ST7>,
    H: FromSql<ST8>,
> Queryable<(ST1, ST2, ST3, ST4, ST5, ST6, ST7, ST8)> for (A, B, C, D, E, F, G, H) {
    type Row = (A, B, C, D, E, F, G, H);

    ghost builds = { λ row v. v ≡ row };

    ghost refuses = { λ _ _. ⊥ };

    ghost MEMORY = { false };

    fn build(_alloc: Global, row: (A, B, C, D, E, F, G, H)) -> Result<(A, B, C, D, E, F, G, H)> {
        Ok(row)
    }
}
