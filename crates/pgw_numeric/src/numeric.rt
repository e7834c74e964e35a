use pgw_meta::Defaultable;

/// A `numeric` by its digits to the base 10000. A number is the sum of its digits, of which the first counts 10000 to
/// the power of the weight, and each further one 10000 times less; `scale` is how many decimal digits are shown behind
/// the point. The digits may be any `i16`, and none is left out or added: values with different digits are different.
/// The default is `NaN`.
#[derive(Debug, PartialEq, Eq, Drop, Default)]
pub enum PgNumeric {
    /// A number of 0 or above.
    Positive {
        weight: i16,
        scale: u16,
        digits: Vec<i16>,
    },
    /// A number below 0.
    Negative {
        weight: i16,
        scale: u16,
        digits: Vec<i16>,
    },
    /// Not a number.
    #[default]
    NaN,
}

impl Defaultable for PgNumeric {
    ghost use Rattle.pgw_numeric.specs.declared.numeric.PgNumeric.TheVariants.{NaN as not_a_number};

    ghost DEFAULT = { not_a_number };

    fn default_value() -> PgNumeric {
        PgNumeric::NaN
    }
}
