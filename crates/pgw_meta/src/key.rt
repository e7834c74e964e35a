ghost use Rattle.std.specs.Prelude.{◌≡◌, IfOk};
ghost use Rattle.std.specs.Cow.{cow_str_bytes};
ghost use Rattle.pgw_meta.specs.Known.{Key};
ghost use Rattle.pgw_meta.specs.Keys.{key_of, owned_key, cow_text_of, text_of};
ghost use Rattle.pgw_meta.specs.Needs.{is_same_key};

use crate::NameText;
use pgw_wire::NoMemory;
use std::alloc::Global;
use std::borrow::CowStr;
use std::fmt::{self, Display, Formatter, Write};

/// What a type is looked up by: its name, and the schema that it stands in, where one is said. Two keys are equal where
/// their texts are, borrowed or owned.
#[derive(Debug, PartialEq, Eq, Hash, Drop)]
pub struct PgMetadataCacheKey<'a> {
    schema: Option<CowStr<'a>>,
    type_name: CowStr<'a>,
}

impl<'a> PgMetadataCacheKey<'a> {
    /// The key of a name in a schema, or in none that is said. It takes no memory.
    pub fn new(schema: Option<CowStr<'a>>, type_name: CowStr<'a>) -> Self
        ensures { key_of result ≡ record { schema = cow_text_of schema.entry; name = cow_str_bytes type_name.entry } }
    {
        PgMetadataCacheKey { schema, type_name }
    }

    /// The key that borrows these texts. It takes no memory.
    pub(crate) fn borrowed(schema: Option<&'a str>, type_name: &'a str) -> Self
        ensures { key_of result ≡ record { schema = text_of schema.entry; name = type_name.now } }
    {
        let schema = match schema {
            Some(schema) => Some(CowStr::Borrowed(schema)),
            None => None,
        };
        PgMetadataCacheKey {
            schema,
            type_name: CowStr::Borrowed(type_name),
        }
    }

    /// The name of the schema, where one is said.
    pub fn schema(&self) -> Option<&str>
        ensures { text_of result ≡ (key_of self.now).schema }
    {
        match &self.schema {
            Some(schema) => Some(schema.as_str()),
            None => None,
        }
    }

    /// The type's name.
    pub fn type_name(&self) -> &str
        ensures { result.now ≡ (key_of self.now).name }
    {
        self.type_name.as_str()
    }

    /// An equal key that owns its texts. Memory is taken for those that it borrows.
    pub fn into_owned(self, alloc: Global) -> Result<PgMetadataCacheKey<'static>, NoMemory>
        ensures { IfOk result (λ key. key_of key ≡ key_of self.entry) }
    {
        let PgMetadataCacheKey { schema, type_name } = self;
        let schema = match schema {
            Some(schema) => Some(CowStr::Owned(schema.into_owned(alloc)?)),
            None => None,
        };
        Ok(PgMetadataCacheKey {
            schema,
            type_name: CowStr::Owned(type_name.into_owned(alloc)?),
        })
    }
}

/// A key that owns its texts, for values that are kept.
#[derive(Debug, PartialEq, Eq, Drop)]
pub struct TypeKey {
    /// The schema that the type stands in, where one is said.
    pub schema: Option<NameText>,
    /// The type's name.
    pub name: NameText,
}

impl TypeKey {
    /// The key of these texts, each copied.
    pub fn new(alloc: Global, schema: Option<&str>, name: &str) -> Result<TypeKey, NoMemory>
        ensures { IfOk result (λ key. owned_key key ≡ record { schema = text_of schema.entry; name = name.now }) }
    {
        let schema = match schema {
            Some(schema) => Some(NameText::from_str(alloc, schema)?),
            None => None,
        };
        Ok(TypeKey {
            schema,
            name: NameText::from_str(alloc, name)?,
        })
    }

    /// The same key, which borrows its texts. It takes no memory.
    pub fn as_key(&self) -> PgMetadataCacheKey<'_>
        ensures { key_of result ≡ owned_key self.now }
    {
        let schema = match &self.schema {
            Some(schema) => Some(CowStr::Borrowed(schema.as_str())),
            None => None,
        };
        PgMetadataCacheKey {
            schema,
            type_name: CowStr::Borrowed(self.name.as_str()),
        }
    }

    /// The same key, with texts of its own. `NoMemory` only for want of memory.
    pub fn copy(&self, alloc: Global) -> Result<TypeKey, NoMemory>
        ensures { IfOk result (λ key. owned_key key ≡ owned_key self.now) }
    {
        let key = self.as_key();
        TypeKey::new(alloc, key.schema(), key.type_name())
    }

    /// Whether the key has these texts.
    pub(crate) fn is(&self, key: &PgMetadataCacheKey<'_>) -> bool
        ensures { result ≡ is_same_key (owned_key self.now) (key_of key.now) }
    {
        self.as_key() == *key
    }
}

/// The name, behind that of its schema and a point where one is said.
impl Display for TypeKey {
    fn fmt<W: Write>(&self, f: &mut Formatter<W>) -> fmt::Result {
        match &self.schema {
            Some(schema) => write!(f, "{}.{}", schema.as_str(), self.name.as_str()),
            None => write!(f, "{}", self.name.as_str()),
        }
    }
}
