ghost use Rattle.std.specs.Prelude.{◌≡◌, ◌≤◌, [], Ok, Err, Some, None, false, IfOk, IfErr};
ghost use Rattle.pgw_wire.specs.Outside.{HasFailed};
ghost use Rattle.pgw_meta.specs.Known.{Known, known};
ghost use Rattle.pgw_meta.specs.Keys.{owned_key};
ghost use Rattle.pgw_meta.specs.Metadata.{metadata_of, found};
ghost use Rattle.pgw_meta.specs.Needs.{needed_key, needed_keys};
ghost use Rattle.pgw_tree.specs.Lookups.{meets, is_met, IsFound, AreFound, IsFirstUnmet, LookupCause, first_unmet, HasFailedAsked};

use crate::CopyFault;
use pgw_meta::{Found, FoundOids, LookupError, Need, PgMetadataLookup, PgTypeMetadata, TypeKey};
use pgw_wire::NoMemory;
use std::alloc::Global;

/// Whether those of the two oids that are needed are not 0.
fn is_enough(need: &Need, oid: u32, array_oid: u32) -> bool
    ensures { result ≡ meets (needed_key need.now) (record { oid = oid; array_oid = array_oid }) }
{
    !(need.type_side && oid == 0) && !(need.array_side && array_oid == 0)
}

/// Asks for the type of a key.
fn ask<L: PgMetadataLookup>(
    alloc: Global,
    key: &TypeKey,
    lookup: &mut L,
) -> Result<PgTypeMetadata, LookupError>
    ensures found { IfOk result (λ metadata. (k : Known) → known (L.state lookup.old) ≡ Some k
        → metadata_of metadata ≡ found k (owned_key key.now)) }
    ensures failed { result ≡ Err LookupError.Failed → HasFailed (L.state lookup.old) (L.state lookup.new) }
    ensures told { (L.state lookup.new).told ≡ (L.state lookup.old).told }
    ensures faults { (L.state lookup.old).fault_count ≤ (L.state lookup.new).fault_count }
{
    let key = key.as_key();
    lookup.lookup_type(alloc, key.type_name(), key.schema())
}

/// Looks up the oids of what is needed.
fn look_up<L: PgMetadataLookup>(
    alloc: Global,
    need: &Need,
    lookup: &mut L,
) -> Result<Found, CopyFault>
    ensures found { IfOk result (IsFound (known (L.state lookup.old)) (needed_key need.now)) }
    ensures err { IfErr result (LookupCause
        (λ key. (key ≡ owned_key need.now.key)
        × ((k : Known) → known (L.state lookup.old) ≡ Some k → is_met k (needed_key need.now) ≡ false))
        (HasFailed (L.state lookup.old) (L.state lookup.new))) }
    ensures told { (L.state lookup.new).told ≡ (L.state lookup.old).told }
    ensures faults { (L.state lookup.old).fault_count ≤ (L.state lookup.new).fault_count }
{
    let metadata = ask(alloc, &need.key, lookup)?;
    let key = need.key.copy(alloc)?;
    match metadata.into_oids() {
        Ok((oid, array_oid)) => {
            if is_enough(need, oid, array_oid) {
                Ok(Found {
                    key,
                    oid,
                    array_oid,
                })
            } else {
                Err(CopyFault::UnknownType(key))
            }
        }
        Err(_unknown) => Err(CopyFault::UnknownType(key)),
    }
}

/// Looks up the oids of all that is needed, in order, up to the first need that is not met.
pub(crate) fn look_up_all<L: PgMetadataLookup>(
    alloc: Global,
    needs: &[Need],
    lookup: &mut L,
) -> Result<FoundOids, CopyFault>
    ensures found { IfOk result (AreFound (known (L.state lookup.old)) (needed_keys needs.now)) }
    ensures none_unmet { IfOk result (λ _. (k : Known) → known (L.state lookup.old) ≡ Some k
        → first_unmet k (needed_keys needs.now) ≡ None) }
    ensures err { IfErr result (LookupCause (IsFirstUnmet (known (L.state lookup.old)) (needed_keys needs.now))
        (HasFailedAsked (needed_keys needs.now) (L.state lookup.old) (L.state lookup.new))) }
    ensures no_needs { needed_keys needs.now ≡ [] → (result ≡ Ok []) × (lookup.new ≡ lookup.old) }
    ensures told { (L.state lookup.new).told ≡ (L.state lookup.old).told }
    ensures faults { (L.state lookup.old).fault_count ≤ (L.state lookup.new).fault_count }
{
    let mut oids = FoundOids::new(alloc);
    for need in needs {
        let found = look_up(alloc, need, lookup)?;
        oids.push(found)?;
    }
    Ok(oids)
}
