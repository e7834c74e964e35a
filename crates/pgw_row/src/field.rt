ghost use Rattle.std.specs.Prelude.{◌≡◌, ◌↔◌, IfSome, IsTrue, None};
ghost use Rattle.pgw_meta.specs.Keys.{text_of};
ghost use Rattle.pgw_meta.specs.Reading.{cell_of_value};
ghost use Rattle.pgw_row.specs.Rows.{FieldParts, field_of};

use pgw_wire::{PgValue, RawCell, TypeOidLookup};
use std::num::NonZeroU32;

/// A field of a row: the name of its column and its value.
pub trait Field {
    /// The column's name, the cell, and the oid of its type.
    ghost parts: { Self → FieldParts };

    /// The name of the field's column. None where it has none.
    fn field_name(&self) -> Option<&str>
        ensures { text_of result ≡ (parts self.now).name };

    /// The field's bytes, with the oid of its type. None where it is null.
    fn value(&self) -> Option<PgValue<'_>>
        ensures cell { cell_of_value result ≡ (parts self.now).cell }
        ensures oid { IfSome result (λ v. v.type_oid ≡ (parts self.now).oid) };

    /// Whether the field is null.
    fn is_null(&self) -> bool
        ensures { IsTrue result ↔ ((parts self.now).cell ≡ None) }
    {
        self.value().is_none()
    }
}

/// A field of one of PostgreSQL's rows, which borrows its name and its bytes.
#[derive(Clone, Copy)]
pub struct PgField<'a> {
    name: Option<&'a str>,
    cell: RawCell<'a>,
    oid: NonZeroU32,
}

impl<'a> PgField<'a> {
    /// The field of a column of this name, where it has one, and of this type.
    pub fn new(name: Option<&'a str>, cell: RawCell<'a>, oid: NonZeroU32) -> PgField<'a>
        ensures name { result.name ≡ name.entry }
        ensures cell { result.cell ≡ cell.entry }
        ensures oid { result.oid ≡ oid }
    {
        PgField { name, cell, oid }
    }
}

impl Field for PgField<'_> {
    ghost parts = { field_of };

    fn field_name(&self) -> Option<&str> {
        self.name
    }

    fn value(&self) -> Option<PgValue<'_>> {
        match self.cell {
            RawCell::Null => None,
            RawCell::Piece(bytes) => Some(PgValue::new(bytes, self.oid)),
        }
    }
}

impl TypeOidLookup for PgField<'_> {
    ghost type_oid = { λ field. field.oid };

    fn lookup(&self) -> NonZeroU32 {
        self.oid
    }
}
