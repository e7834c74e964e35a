ghost use Rattle.std.specs.Prelude.{◌≡◌, [], ◌∷◌, ◌++◌, OnOk, OnErr, length, slice_get};
ghost use Rattle.std.specs.Option.{option_copied};

use pgw_wire::NoMemory;
use std::alloc::Global;
use std::marker::Model;

/// The digits of a numeric to the base 10000, the first of them first. Contracts see their list.
#[derive(Debug, Drop)]
pub struct DigitList {
    digits: Vec<i16>,
}

impl Model for DigitList {
    ghost use Rattle.std.specs.Prelude.{List, ℤ};

    ghost Value = { List ℤ };

    ghost view = { λ l. l.digits.items };
}

impl DigitList {
    /// No digits. It takes no memory.
    pub fn new(alloc: Global) -> DigitList
        ensures { result ≡ [] }
    {
        DigitList {
            digits: Vec::new(alloc),
        }
    }

    /// These digits.
    pub(crate) fn from_vec(digits: Vec<i16>) -> DigitList
        ensures { result ≡ digits.items }
    {
        DigitList { digits }
    }

    /// Appends a digit. Where memory is refused, the list is as before.
    pub fn push(&mut self, item: i16) -> Result<(), NoMemory>
        ensures ok { OnOk result (self.new ≡ self.old ++ (item ∷ [])) }
        ensures err { OnErr result (self.new ≡ self.old) }
    {
        self.digits.push(item)?;
        Ok(())
    }

    /// How many digits there are.
    pub fn len(&self) -> usize
        ensures { result ≡ length self.now }
    {
        self.digits.len()
    }

    /// The digit at a place, counted from 0. None past the last.
    pub fn get(&self, place: usize) -> Option<&i16>
        ensures { option_copied result ≡ slice_get self.now place }
    {
        self.digits.get(place)
    }

    /// The digits.
    pub fn as_slice(&self) -> &[i16]
        ensures { result.now ≡ self.now }
    {
        self.digits.as_slice()
    }
}
