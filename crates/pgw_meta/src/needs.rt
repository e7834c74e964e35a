ghost use Rattle.std.specs.Prelude.{◌≡◌, [], ◌∷◌, ◌++◌, true, false, OnOk, OnErr, IfOk, IfSome, IfNone, length, slice_get};
ghost use Rattle.std.specs.Option.{option_copied};
ghost use Rattle.pgw_meta.specs.Types.{shape, shapes, column_shapes};
ghost use Rattle.pgw_meta.specs.Needs.{needed_keys, needs_of, with_need, with_needs, oid_needs, array_oid_needs, field_needs, components_needs};
ghost use Rattle.pgw_meta.specs.NeedPlaces.{IsFirstPlace, IsNewKey};
ghost use Rattle.pgw_meta.specs.Keys.{key_of, owned_key};

use crate::{PgMetadataCacheKey, PgType, TypeKey};
use pgw_wire::NoMemory;
use std::alloc::Global;
use std::marker::Model;

/// Oids of a named type that the written fields of columns hold, so that they have to be known.
#[derive(Debug, Drop)]
pub struct Need {
    /// What the type is looked up by.
    pub key: TypeKey,
    /// The oid of the type is needed.
    pub type_side: bool,
    /// The oid of the type of its arrays is needed.
    pub array_side: bool,
}

/// What is needed of named types, in order.
#[derive(Debug, Drop)]
pub struct NeedList {
    needs: Vec<Need>,
}

impl Model for NeedList {
    ghost use Rattle.std.specs.Prelude.{List};
    ghost use Rattle.pgw_meta.specs.declared.needs.Need.{Need as Entry};

    ghost Value = { List Entry };

    ghost view = { λ l. l.needs.items };
}

impl NeedList {
    /// No needs. It takes no memory.
    pub fn new(alloc: Global) -> NeedList
        ensures { result ≡ [] }
    {
        NeedList {
            needs: Vec::new(alloc),
        }
    }

    /// Appends a need. Where memory is refused, the need is dropped and the list is as before.
    pub fn push(&mut self, item: Need) -> Result<(), NoMemory>
        ensures ok { OnOk result (self.new ≡ self.old ++ (item ∷ [])) }
        ensures err { OnErr result (self.new ≡ self.old) }
    {
        self.needs.push(item)?;
        Ok(())
    }

    /// How many needs there are.
    pub fn len(&self) -> usize
        ensures { result ≡ length self.now }
    {
        self.needs.len()
    }

    /// The need at a place, counted from 0. None past the last.
    pub fn get(&self, place: usize) -> Option<&Need>
        ensures { option_copied result ≡ slice_get self.now place }
    {
        self.needs.get(place)
    }

    /// The needs.
    pub fn as_slice(&self) -> &[Need]
        ensures { result.now ≡ self.now }
    {
        self.needs.as_slice()
    }

    // Adds a need of a key, at the place of the first of that key where there is one.
    fn add(
        &mut self,
        alloc: Global,
        key: &TypeKey,
        type_side: bool,
        array_side: bool,
    ) -> Result<(), NoMemory>
        ensures { OnOk result (needed_keys self.new ≡ with_need (needed_keys self.old) (record {
          key = owned_key key.now;
          type_side = type_side;
          array_side = array_side;
        })) }
    {
        if let Some(place) = place_of(&self.needs, &key.as_key()) {
            let need = &mut self.needs[place];
            need.type_side |= type_side;
            need.array_side |= array_side;
            return Ok(());
        }
        self.needs.push(Need {
            key: key.copy(alloc)?,
            type_side,
            array_side,
        })?;
        Ok(())
    }
}

// The place of the first need of a key.
fn place_of(needs: &[Need], key: &PgMetadataCacheKey<'_>) -> Option<usize>
    ensures some { IfSome result (IsFirstPlace needs.now (key_of key.now)) }
    ensures none { IfNone result (IsNewKey needs.now (key_of key.now) (length needs.now)) }
{
    for (place, need) in needs.iter().enumerate() {
        if need.key.is(key) {
            return Some(place);
        }
    }
    None
}

/// What columns of these types need, in order and each key once.
pub(crate) fn needs_of_columns(alloc: Global, columns: &[PgType]) -> Result<NeedList, NoMemory>
    ensures { IfOk result (λ needs. needed_keys needs ≡ needs_of (column_shapes columns.now)) }
{
    let mut needs = NeedList::new(alloc);
    for t in columns {
        add_field_needs(alloc, t, &mut needs)?;
    }
    Ok(needs)
}

// Adds what a field of a type needs.
#[cycle(needs)]
fn add_field_needs(alloc: Global, t: &PgType, needs: &mut NeedList) -> Result<(), NoMemory>
    ensures { OnOk result (needed_keys needs.new ≡ with_needs (needed_keys needs.old) (field_needs (shape t.now))) }
{
    match t {
        PgType::Array(element) => {
            add_oid_needs(alloc, element, needs)?;
            add_field_needs(alloc, element, needs)
        }
        PgType::Record(components) => add_components_needs(alloc, components.as_slice(), needs),
        PgType::Nullable(part)
        | PgType::Range(part)
        | PgType::Multirange(part)
        | PgType::Named(_, part) => add_field_needs(alloc, part, needs),
        _ => Ok(()),
    }
}

#[cycle(needs)]
fn add_components_needs(
    alloc: Global,
    components: &[PgType],
    needs: &mut NeedList,
) -> Result<(), NoMemory>
    ensures { OnOk result (needed_keys needs.new
        ≡ with_needs (needed_keys needs.old) (components_needs (shapes components.now))) }
{
    for component in components {
        add_oid_needs(alloc, component, needs)?;
        add_field_needs(alloc, component, needs)?;
    }
    Ok(())
}

// Adds what the oid of a type needs.
fn add_oid_needs(alloc: Global, t: &PgType, needs: &mut NeedList) -> Result<(), NoMemory>
    ensures { OnOk result (needed_keys needs.new ≡ with_needs (needed_keys needs.old) (oid_needs (shape t.now))) }
{
    match t {
        PgType::Nullable(part) => add_oid_needs(alloc, part, needs),
        PgType::Array(element) => add_array_oid_needs(alloc, element, needs),
        PgType::Named(key, _) => needs.add(alloc, key, true, false),
        _ => Ok(()),
    }
}

// Adds what the oid of the arrays of a type needs.
fn add_array_oid_needs(alloc: Global, t: &PgType, needs: &mut NeedList) -> Result<(), NoMemory>
    ensures { OnOk result (needed_keys needs.new
        ≡ with_needs (needed_keys needs.old) (array_oid_needs (shape t.now))) }
{
    match t {
        PgType::Nullable(part) => add_array_oid_needs(alloc, part, needs),
        PgType::Named(key, _) => needs.add(alloc, key, false, true),
        _ => Ok(()),
    }
}
