use pgw_meta::{Dummy, HasSqlType, Pg};
use pgw_tree::sql_types::{
    Datemultirange, Daterange, Int4multirange, Int4range, Int8multirange, Int8range, Nummultirange,
    Numrange, Tsmultirange, Tsrange, Tstzmultirange, Tstzrange,
};
use std::alloc::Global;
use std::test::Fail;

/// The oids of the types of two markers, and of their arrays.
fn oids<R, M>(alloc: Global) -> Result<[Option<(u32, u32)>; 2], Fail>
where
    Pg: HasSqlType<R> + HasSqlType<M>,
{
    let range = <Pg as HasSqlType<R>>::metadata(alloc, &mut Dummy)?;
    let multirange = <Pg as HasSqlType<M>>::metadata(alloc, &mut Dummy)?;
    Ok([range.into_oids().ok(), multirange.into_oids().ok()])
}

// As PostgreSQL's catalog has them.
#[test]
fn markers_of_ranges_have_their_oids(rt: HostRuntime) -> Result<(), Fail> {
    let alloc = rt.alloc();
    let expected = [
        [Some((3904, 3905)), Some((4451, 6150))],
        [Some((3926, 3927)), Some((4536, 6157))],
        [Some((3906, 3907)), Some((4532, 6151))],
        [Some((3912, 3913)), Some((4535, 6155))],
        [Some((3908, 3909)), Some((4533, 6152))],
        [Some((3910, 3911)), Some((4534, 6153))],
    ];
    let found = [
        oids::<Int4range, Int4multirange>(alloc)?,
        oids::<Int8range, Int8multirange>(alloc)?,
        oids::<Numrange, Nummultirange>(alloc)?,
        oids::<Daterange, Datemultirange>(alloc)?,
        oids::<Tsrange, Tsmultirange>(alloc)?,
        oids::<Tstzrange, Tstzmultirange>(alloc)?,
    ];
    assert!(rt; found == expected);
    Ok(())
}
