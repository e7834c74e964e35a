ghost use Rattle.std.specs.Prelude.{◌≡◌, ◌⊎◌, ◌≤◌, None, Some, Err, IfOk, IsOk, OnOk, if◌then◌else◌};
ghost use Rattle.std.specs.Result.{result_err};
ghost use Rattle.pgw_meta.specs.Types.{shape, shapes, column_shapes, types_of};
ghost use Rattle.pgw_meta.specs.Schema.{IsValidSchema, schema_fault, fault_number, fault_at, width_fault, is_nullable, is_array, without_null, has_ranges, may_be_named};
ghost use Rattle.pgw_meta.specs.Walk.{type_fault, parts_fault};
ghost use Rattle.pgw_meta.specs.Needs.{needed_keys, needs_of};
ghost use Rattle.pgw_meta.specs.declared.schema.SchemaError.TheVariants.{NoMemory as no_memory};

use crate::needs::needs_of_columns;
use crate::{NeedList, PgType, TypeList};
use pgw_wire::NoMemory as NoMemoryLeft;
use std::alloc::Global;
use std::marker::Model;
use thiserror::Error;

/// How many columns a row may have, and components a record: a row's count of fields is a signed number of 16 bits.
const COLUMNS_MAX: usize = i16::MAX as usize;

/// How many types of a column may stand one in the other.
const DEPTH_MAX: usize = 32;

/// Why types are not those of the columns of a schema. Columns are counted from 0.
#[derive(Clone, Copy, Debug, PartialEq, Eq, Error)]
pub enum SchemaError {
    /// There is no column.
    #[error("no columns")]
    NoColumns,
    /// There are more than 32767 columns.
    #[error("more than 32767 columns")]
    TooManyColumns,
    /// A nullable of a nullable.
    #[error("column {column}: a nullable of a nullable")]
    NestedNullable {
        /// The column.
        column: usize,
    },
    /// An array whose elements are arrays, or arrays or null.
    #[error("column {column}: an array of arrays")]
    NestedArray {
        /// The column.
        column: usize,
    },
    /// A range or a multirange over another type than `int4`, `int8`, `numeric`, `date`, `timestamp` and `timestamptz`.
    #[error("column {column}: a range over a type that has no ranges")]
    BadRange {
        /// The column.
        column: usize,
    },
    /// A record without components.
    #[error("column {column}: a record without components")]
    EmptyRecord {
        /// The column.
        column: usize,
    },
    /// A record of more than 32767 components.
    #[error("column {column}: a record of more than 32767 components")]
    WideRecord {
        /// The column.
        column: usize,
    },
    /// A named type over another type than `text` and records.
    #[error("column {column}: a named type over neither text nor a record")]
    BadNamed {
        /// The column.
        column: usize,
    },
    /// A type inside 32 others.
    #[error("column {column}: more than 32 types, one in the other")]
    TooDeep {
        /// The column.
        column: usize,
    },
    /// Memory was asked for and refused.
    #[error("out of memory")]
    NoMemory,
}

impl From<NoMemoryLeft> for SchemaError {
    ghost use Rattle.std.specs.Prelude.{◌≡◌};
    ghost use Rattle.pgw_meta.specs.declared.schema.SchemaError.TheVariants.{NoMemory};

    ghost from_gives = { λ _ error. error ≡ NoMemory };

    fn from(_: NoMemoryLeft) -> SchemaError {
        SchemaError::NoMemory
    }
}

impl SchemaError {
    /// The error's number, from 1, in the order of the variants.
    pub fn number(&self) -> u8
        ensures { result ≡ fault_number self.now }
    {
        match self {
            SchemaError::NoColumns => 1,
            SchemaError::TooManyColumns => 2,
            SchemaError::NestedNullable { .. } => 3,
            SchemaError::NestedArray { .. } => 4,
            SchemaError::BadRange { .. } => 5,
            SchemaError::EmptyRecord { .. } => 6,
            SchemaError::WideRecord { .. } => 7,
            SchemaError::BadNamed { .. } => 8,
            SchemaError::TooDeep { .. } => 9,
            SchemaError::NoMemory => 10,
        }
    }
}

/// The types of the columns of a stream, and what they need of named types. They are valid wherever there is one:
/// contracts see the list of the types, and `columns` tells that it is valid.
#[derive(Debug, Drop)]
pub struct Schema {
    columns: TypeList,
    needs: NeedList,
}

impl Model for Schema {
    ghost use Rattle.std.specs.Prelude.{◌≡◌, List};
    ghost use Rattle.pgw_meta.specs.Needs.{needed_keys, needs_of};
    ghost use Rattle.pgw_meta.specs.declared.types.PgType.{PgType as Tree};
    ghost use Rattle.pgw_meta.specs.contracts.types.PgType as tree;
    ghost use Rattle.pgw_meta.specs.Types.{types_of, column_shapes};
    ghost use Rattle.pgw_meta.specs.Schema.{IsValidSchema};
    ghost use Rattle.std.specs.Coded.{codes};

    ghost Value = { List Tree };

    ghost coded = { Prim.hlevel (codes, tree.the_row.coded) };

    ghost view = { λ s. types_of s.columns };

    ghost invariant = { λ s. IsValidSchema (column_shapes (types_of s.columns))
        × (needed_keys s.needs ≡ needs_of (column_shapes (types_of s.columns))) };
}

impl Schema {
    /// The schema of these columns, where they are valid. Else the first fault: that there is no column, that there are
    /// too many, or the first in the order of the columns, where that of a type comes before those of its parts.
    /// Of the faults of one type `TooDeep` is the first. Memory is asked for what valid columns need of named types.
    #[tactic(auto, using(crate::proofs::Faults::valid_without_fault, crate::proofs::Faults::no_fault_where_valid))]
    pub fn new(alloc: Global, columns: TypeList) -> Result<Schema, SchemaError>
        ensures columns { IfOk result (λ schema. schema ≡ types_of columns) }
        ensures valid { IsOk result → IsValidSchema (column_shapes (types_of columns)) }
        ensures fault { (result_err result ≡ schema_fault (column_shapes (types_of columns)))
            ⊎ ((result ≡ Err no_memory) × IsValidSchema (column_shapes (types_of columns))) }
    {
        check_columns(columns.as_slice())?;
        let needs = needs_of_columns(alloc, columns.as_slice())?;
        Ok(Schema { columns, needs })
    }

    /// The types of the columns.
    pub fn columns(&self) -> &TypeList
        ensures types { types_of result.now ≡ self.now }
        ensures valid { IsValidSchema (column_shapes self.now) }
    {
        &self.columns
    }

    /// What the columns need of named types, in the order in which their fields hold it, and each key once. A field of an
    /// array holds the oid of its elements, and one of a record that of each component.
    pub fn needs(&self) -> &NeedList
        ensures { needed_keys result.now ≡ needs_of (column_shapes self.now) }
    {
        &self.needs
    }
}

fn check_columns(columns: &[PgType]) -> Result<(), SchemaError>
    ensures { result_err result ≡ schema_fault (column_shapes columns.now) }
{
    if columns.is_empty() {
        return Err(SchemaError::NoColumns);
    }
    if columns.len() > COLUMNS_MAX {
        return Err(SchemaError::TooManyColumns);
    }
    for (column, t) in columns.iter().enumerate() {
        check_type(column, 1, t)?;
    }
    Ok(())
}

// The first fault of a type at this depth, by itself and else in its parts.
#[cycle(check)]
fn check_type(column: usize, depth: usize, t: &PgType) -> Result<(), SchemaError>
    ensures { result_err result ≡ type_fault column depth (shape t.now) }
{
    check_one(column, depth, t)?;
    match t {
        PgType::Nullable(part)
        | PgType::Array(part)
        | PgType::Range(part)
        | PgType::Multirange(part)
        | PgType::Named(_, part) => check_type(column, depth + 1, part),
        PgType::Record(parts) => check_parts(column, depth + 1, parts.as_slice()),
        _ => Ok(()),
    }
}

#[cycle(check)]
fn check_parts(column: usize, depth: usize, parts: &[PgType]) -> Result<(), SchemaError>
    ensures { result_err result ≡ parts_fault column depth (shapes parts.now) }
{
    for part in parts {
        check_type(column, depth, part)?;
    }
    Ok(())
}

// The fault of a type by itself.
fn check_one(column: usize, depth: usize, t: &PgType) -> Result<(), SchemaError>
    ensures fault { result_err result ≡ fault_at column (record { depth = depth; tree = shape t.now }) }
    ensures shallow { OnOk result (depth ≤ 32) }
{
    if depth > DEPTH_MAX {
        return Err(SchemaError::TooDeep { column });
    }
    match t {
        PgType::Nullable(part) => check_that(
            !is_nullable(part),
            SchemaError::NestedNullable { column },
        ),
        PgType::Array(part) => check_that(
            !is_array_element(part),
            SchemaError::NestedArray { column },
        ),
        PgType::Range(part) | PgType::Multirange(part) => {
            check_that(is_range_part(part), SchemaError::BadRange { column })
        }
        PgType::Record(parts) => check_width(column, parts.len()),
        PgType::Named(_, part) => check_that(is_named_part(part), SchemaError::BadNamed { column }),
        _ => Ok(()),
    }
}

// The fault, unless something holds.
fn check_that(holds: bool, fault: SchemaError) -> Result<(), SchemaError>
    ensures { result_err result ≡ if holds then None else Some fault }
{
    if holds { Ok(()) } else { Err(fault) }
}

// The fault of a record with so many components.
fn check_width(column: usize, components: usize) -> Result<(), SchemaError>
    ensures { result_err result ≡ width_fault column components }
{
    match components {
        0 => Err(SchemaError::EmptyRecord { column }),
        1..=COLUMNS_MAX => Ok(()),
        _ => Err(SchemaError::WideRecord { column }),
    }
}

fn is_nullable(t: &PgType) -> bool
    ensures { result ≡ is_nullable (shape t.now) }
{
    matches!(t, PgType::Nullable(_))
}

fn is_array(t: &PgType) -> bool
    ensures { result ≡ is_array (shape t.now) }
{
    matches!(t, PgType::Array(_))
}

// an array, or an array or null
fn is_array_element(t: &PgType) -> bool
    ensures { result ≡ is_array (without_null (shape t.now)) }
{
    match t {
        PgType::Nullable(part) => is_array(part),
        _ => is_array(t),
    }
}

// a type that has ranges
fn is_range_part(t: &PgType) -> bool
    ensures { result ≡ has_ranges (shape t.now) }
{
    matches!(
        t,
        PgType::Int4
            | PgType::Int8
            | PgType::Numeric
            | PgType::Date
            | PgType::Timestamp
            | PgType::Timestamptz
    )
}

fn is_named_part(t: &PgType) -> bool
    ensures { result ≡ may_be_named (shape t.now) }
{
    matches!(t, PgType::Text | PgType::Record(_))
}
