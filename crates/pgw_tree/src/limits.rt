ghost use Rattle.std.specs.Prelude.{◌≡◌, ◌↔◌, ◌<◌, ◌≤◌, IfSome, IsNone};

use std::marker::Model;

/// The longest field that PostgreSQL's format can state.
pub const FIELD_MAX: u32 = i32::MAX as u32;

/// How much is copied at most.
#[derive(Clone, Copy, Debug, PartialEq, Eq)]
pub struct Limits {
    rows_max: u64,
    field_max: u32,
}

impl Model for Limits {
    ghost use Rattle.std.specs.Prelude.{◌≤◌};
    ghost use Rattle.pgw_tree.specs.Limits.{Limits as Bounds, limits_code};

    ghost Value = { Bounds };

    ghost coded = { limits_code };

    ghost view = { λ l. record { rows_max = l.rows_max; field_max = l.field_max } };

    ghost inverse = { λ l. record { rows_max = l.rows_max; field_max = l.field_max } };

    ghost invariant = { λ l. l.field_max ≤ 2147483647 };
}

impl Limits {
    /// At most `rows_max` rows, and canonical fields of at most `field_max` bytes. None exactly where `field_max` passes
    /// 2147483647, the longest field that the format can state.
    pub fn new(rows_max: u64, field_max: u32) -> Option<Limits>
        ensures some { IfSome result (λ limits. limits ≡ record { rows_max = rows_max; field_max = field_max }) }
        ensures none { IsNone result ↔ (2147483647 < field_max) }
    {
        if field_max > FIELD_MAX {
            None
        } else {
            Some(Limits {
                rows_max,
                field_max,
            })
        }
    }

    /// How many rows are copied at most.
    pub fn rows_max(&self) -> u64
        ensures { result ≡ self.now.rows_max }
    {
        self.rows_max
    }

    /// How many bytes a canonical field has at most.
    pub fn field_max(&self) -> u32
        ensures value { result ≡ self.now.field_max }
        ensures most { result ≤ 2147483647 }
    {
        self.field_max
    }
}
