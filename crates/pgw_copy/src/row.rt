ghost use Rattle.std.specs.Prelude.{◌≡◌, ◌≤◌, ◌+◌, [], ◌∷◌, ◌++◌, List, ℕ, length, option_map, None, Some, OnOk};
ghost use Rattle.std.specs.Int.{to_be_bytes, w16};
ghost use Rattle.std.specs.List.{slice_get};
ghost use Rattle.pgw_wire.specs.Cell.{Cell, cell_of};
ghost use Rattle.pgw_copy.specs.State.{cells_of, bytes_of};
ghost use Rattle.pgw_copy.specs.Format.{IsField, AreFields};
ghost use Rattle.pgw_copy.specs.Reader.{Reads, KeptError, IsShort, HasSize, IsCutField, IsWholeField, AreCutFields, AreWholeFields};

use crate::taken::TakenBytes;
use crate::{CopyReadError, NEGATIVE_LENGTH};
use pgw_wire::{RawCell, Source};
use std::alloc::{AllocError, Global};
use std::marker::Model;

/// Where the cell of a field lies among the bytes of its row.
#[derive(Clone, Copy)]
pub(crate) enum Place {
    Null,
    Piece { start: usize, end: usize },
}

/// A row, lent by the reader that read it: its cells, one for each field, and its bytes as they were taken.
#[derive(Clone, Copy)]
pub struct RawRow<'a> {
    pub(crate) row: &'a RowBuffer,
}

impl RawRow<'_> {
    /// How many fields the row has.
    pub fn len(&self) -> usize
        ensures { result ≡ length (cells_of self.now) }
    {
        self.row.len()
    }

    /// The cell of a field, counted from 0. None past the last.
    pub fn get(&self, place: usize) -> Option<RawCell<'_>>
        ensures { option_map cell_of result ≡ slice_get (cells_of self.now) place }
    {
        self.row.get(place)
    }

    /// The row as it was taken: its count in two bytes, big-endian, and its fields.
    pub fn as_bytes(&self) -> &[u8]
        ensures { result.now ≡ bytes_of self.now }
    {
        self.row.as_bytes()
    }
}

/// The row that a reader keeps: its bytes as they were taken, and where each cell lies among them. Contracts see its cells
/// and its bytes.
#[derive(Drop)]
pub(crate) struct RowBuffer {
    bytes: TakenBytes,
    places: Vec<Place>,
}

impl Model for RowBuffer {
    ghost use Rattle.std.specs.Prelude.{length};
    ghost use Rattle.pgw_copy.specs.Places.{cells_at, AllLieIn, KeptRow, kept_row_code};

    ghost Value = { KeptRow };

    ghost coded = { kept_row_code };

    ghost view = { λ r. record { cells = cells_at r.bytes r.places.items; bytes = r.bytes } };

    ghost invariant = { λ r. AllLieIn (length r.bytes) r.places.items };
}

impl RowBuffer {
    /// No row.
    pub(crate) fn new(alloc: Global) -> RowBuffer
        ensures { result ≡ record { cells = []; bytes = [] } }
    {
        RowBuffer {
            bytes: TakenBytes::new(alloc),
            places: Vec::new(alloc),
        }
    }

    /// Puts the beginning of a row, its count, in place of the row before, whose room it keeps.
    fn begin(&mut self, count: u16) -> Result<(), AllocError>
        ensures ok { OnOk result (self.new ≡ record { cells = []; bytes = to_be_bytes w16 count }) }
    {
        self.places.clear();
        self.bytes.begin(count)
    }

    /// Takes the next `len` bytes, and keeps them as the piece of a cell behind the others.
    fn take_piece<S: Source>(&mut self, len: usize, source: &mut S) -> Result<(), CopyReadError>
        ensures takes { Reads (S.state source.old) (S.state source.new) result
            (λ _ taken. (length taken ≡ len) × (self.new.cells ≡ self.old.cells ++ (Some taken ∷ []))
            × (self.new.bytes ≡ self.old.bytes ++ taken))
            (KeptError (IsShort len) (HasSize len)) }
        ensures many { OnOk result (length self.new.cells ≡ length self.old.cells + 1) }
    {
        let start = self.bytes.len();
        self.bytes.take(source, len)?;
        let end = self.bytes.len();
        self.places.push(Place::Piece { start, end })?;
        Ok(())
    }

    /// Takes a field, and keeps its cell behind the others.
    pub(crate) fn take_field<S: Source>(&mut self, source: &mut S) -> Result<(), CopyReadError>
        ensures takes { Reads (S.state source.old) (S.state source.new) result
            (λ _ taken. (cell : Cell) × IsField cell taken × (self.new.cells ≡ self.old.cells ++ (cell ∷ []))
            × (self.new.bytes ≡ self.old.bytes ++ taken))
            (KeptError IsCutField IsWholeField) }
        ensures many { OnOk result (length self.new.cells ≡ length self.old.cells + 1) }
    {
        let length = self.bytes.take_length(source)?;
        if length < NEGATIVE_LENGTH {
            self.take_piece(length as usize, source)
        } else {
            self.places.push(Place::Null)?;
            Ok(())
        }
    }

    /// Takes a row's fields, of which there are this many, in place of the row before.
    pub(crate) fn take_fields<S: Source>(
        &mut self,
        count: u16,
        source: &mut S,
    ) -> Result<(), CopyReadError>
        ensures takes { Reads (S.state source.old) (S.state source.new) result
            (λ _ taken. AreFields self.new.cells taken × (self.new.bytes ≡ to_be_bytes w16 count ++ taken))
            (KeptError (AreCutFields count) (AreWholeFields count)) }
        ensures many { OnOk result (length self.new.cells ≡ count) }
    {
        self.begin(count)?;
        for _field in 0..count {
            self.take_field(source)?;
        }
        Ok(())
    }

    /// How many cells there are.
    fn len(&self) -> usize
        ensures { result ≡ length self.now.cells }
    {
        self.places.len()
    }

    /// The cell at a place, counted from 0. None past the last.
    fn get(&self, place: usize) -> Option<RawCell<'_>>
        ensures { option_map cell_of result ≡ slice_get self.now.cells place }
    {
        match self.places.get(place)? {
            Place::Null => Some(RawCell::Null),
            Place::Piece { start, end } => Some(RawCell::Piece(self.bytes.piece(*start, *end))),
        }
    }

    /// The bytes of the row.
    fn as_bytes(&self) -> &[u8]
        ensures { result.now ≡ self.now.bytes }
    {
        self.bytes.as_bytes()
    }
}
