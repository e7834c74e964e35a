ghost use Rattle.std.specs.Prelude.{◌≡◌, [], IfOk, length};

use pgw_wire::NoMemory;
use std::alloc::Global;
use std::marker::Model;

/// A name, or another text that a value owns. Contracts see its bytes.
#[derive(Debug, Drop)]
pub struct NameText {
    text: String,
}

impl Model for NameText {
    ghost use Rattle.std.specs.Prelude.{List, ℕ, string_bytes};

    ghost Value = { List ℕ };

    ghost view = { λ n. string_bytes n.text };
}

impl NameText {
    /// The same text, in memory of its own.
    pub fn from_str(alloc: Global, text: &str) -> Result<NameText, NoMemory>
        ensures { IfOk result (λ name. name ≡ text.now) }
    {
        Ok(NameText {
            text: text.to_string(alloc)?,
        })
    }

    /// An empty text. It takes no memory.
    pub fn new(alloc: Global) -> NameText
        ensures { result ≡ [] }
    {
        NameText {
            text: String::new(alloc),
        }
    }

    /// How many bytes it has.
    pub fn len(&self) -> usize
        ensures { result ≡ length self.now }
    {
        self.text.len()
    }

    /// The text.
    pub fn as_str(&self) -> &str
        ensures { result.now ≡ self.now }
    {
        self.text.as_str()
    }
}

/// Two are equal where their bytes are.
impl PartialEq for NameText {
    ghost use Rattle.std.specs.Str.{bytes_eq};
    ghost use Rattle.std.specs.Cmp.{partial_equiv_from_equiv};
    ghost use Rattle.std.specs.Cmp.Lexicographic.{nat_list_eq_equiv};

    ghost eq = { bytes_eq };

    ghost laws = { partial_equiv_from_equiv nat_list_eq_equiv };

    fn eq(&self, other: &NameText) -> bool {
        self.as_str() == other.as_str()
    }
}

impl Eq for NameText {
    ghost use Rattle.std.specs.Cmp.Lexicographic.{nat_list_eq_equiv};

    ghost laws = { nat_list_eq_equiv };
}
