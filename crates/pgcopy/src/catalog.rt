ghost use Rattle.std.specs.Prelude.{◌≡◌, [], ◌∷◌, IfOk};
ghost use Rattle.pgw_wire.specs.Memory.{no_calls};
ghost use Rattle.pgcopy.specs.OidWords.{searched_schema, AreEntries};

use crate::oid_words::SEARCHED_SCHEMA;
use pgw_meta::{CatalogError, Found, MemoryCatalog};
use pgw_wire::NoMemory;
use std::alloc::Global;

/// The catalog of these entries, which searches a name without a schema in the schema `public`. None of its searches fails.
/// The error comes only for want of memory.
pub fn catalog_of(alloc: Global, entries: &[Found]) -> Result<MemoryCatalog, NoMemory>
    requires { AreEntries entries.now }
    ensures { IfOk result (λ catalog. catalog ≡ record {
      entries = entries.now;
      path = searched_schema ∷ [];
      searches = no_calls [];
    }) }
{
    let mut catalog = MemoryCatalog::new(alloc, Vec::new(alloc));
    catalog.push_path(SEARCHED_SCHEMA)?;
    for entry in entries {
        let key = entry.key.as_key();
        let schema = key.schema().unwrap_or(SEARCHED_SCHEMA);
        match catalog.add(schema, key.type_name(), entry.oid, entry.array_oid) {
            Ok(()) => {}
            Err(CatalogError::NoMemory) => return Err(NoMemory),
            Err(CatalogError::Repeated) => unreachable!("no two entries have one key"),
        }
    }
    Ok(catalog)
}
