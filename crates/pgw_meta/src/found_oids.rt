ghost use Rattle.std.specs.Prelude.{◌≡◌, [], ◌∷◌, ◌++◌, OnOk, OnErr, IfOk, length, slice_get};
ghost use Rattle.std.specs.Option.{option_copied, option_map};
ghost use Rattle.pgw_meta.specs.Keys.{key_of, text_of};
ghost use Rattle.pgw_meta.specs.Metadata.{metadata_of, found, oids_of};
ghost use Rattle.pgw_meta.specs.NamedOids.{known_of};

use crate::{
    InnerPgTypeMetadata, LookupError, PgMetadataCacheKey, PgMetadataLookup, PgTypeMetadata, TypeKey,
};
use pgw_wire::NoMemory;
use std::alloc::Global;
use std::marker::Model;

/// The oids that were found for a key.
#[derive(Debug, Drop)]
pub struct Found {
    /// What was looked up.
    pub key: TypeKey,
    /// The oid of the type.
    pub oid: u32,
    /// The oid of the type of its arrays.
    pub array_oid: u32,
}

/// The oids of types that were found by their keys, in order. Of two entries of one key the first counts.
#[derive(Debug, Drop)]
pub struct FoundOids {
    entries: Vec<Found>,
}

impl Model for FoundOids {
    ghost use Rattle.std.specs.Prelude.{List};
    ghost use Rattle.pgw_meta.specs.declared.found_oids.Found.{Found as Entry};

    ghost Value = { List Entry };

    ghost view = { λ l. l.entries.items };
}

impl FoundOids {
    /// No entries. It takes no memory.
    pub fn new(alloc: Global) -> FoundOids
        ensures { result ≡ [] }
    {
        FoundOids {
            entries: Vec::new(alloc),
        }
    }

    /// Appends an entry. Where memory is refused, the entry is dropped and the list is as before.
    pub fn push(&mut self, item: Found) -> Result<(), NoMemory>
        ensures ok { OnOk result (self.new ≡ self.old ++ (item ∷ [])) }
        ensures err { OnErr result (self.new ≡ self.old) }
    {
        self.entries.push(item)?;
        Ok(())
    }

    /// How many entries there are.
    pub fn len(&self) -> usize
        ensures { result ≡ length self.now }
    {
        self.entries.len()
    }

    /// The entry at a place, counted from 0. None past the last.
    pub fn get(&self, place: usize) -> Option<&Found>
        ensures { option_copied result ≡ slice_get self.now place }
    {
        self.entries.get(place)
    }

    /// The entries.
    pub fn as_slice(&self) -> &[Found]
        ensures { result.now ≡ self.now }
    {
        self.entries.as_slice()
    }
}

/// The oids of the first entry of a key. None where no entry has it. It takes no memory.
pub(crate) fn first_oids(
    entries: &[Found],
    key: &PgMetadataCacheKey<'_>,
) -> Option<InnerPgTypeMetadata>
    ensures { option_map oids_of result ≡ known_of entries.now (key_of key.now) }
{
    for entry in entries {
        if entry.key.is(key) {
            return Some(InnerPgTypeMetadata {
                oid: entry.oid,
                array_oid: entry.array_oid,
            });
        }
    }
    None
}

/// A list is a lookup that knows its entries. It never fails.
impl PgMetadataLookup for FoundOids {
    ghost use Rattle.std.specs.Prelude.{true, Some, refl};
    ghost use Rattle.pgw_meta.specs.NamedOids.{known_of};

    ghost state = { λ entries. record {
      told = record { known = Some (known_of entries); faultless = true };
      fault_count = 0;
      origin = tt;
    } };

    ghost quiet = { λ _ _. refl };

    fn lookup_type(
        &mut self,
        alloc: Global,
        type_name: &str,
        schema: Option<&str>,
    ) -> Result<PgTypeMetadata, LookupError> {
        let key = PgMetadataCacheKey::borrowed(schema, type_name);
        match first_oids(&self.entries, &key) {
            Some(oids) => Ok(PgTypeMetadata::new(oids.oid, oids.array_oid)),
            None => Ok(PgTypeMetadata::unknown(alloc, key)?),
        }
    }

    fn faults(&self) -> u64 {
        0
    }
}
