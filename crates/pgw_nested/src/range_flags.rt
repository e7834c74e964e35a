ghost use Rattle.std.specs.Prelude.{◌≡◌};
ghost use Rattle.pgw_nested.specs.Flags.{has};

use bitflags::{Flag, Flags, bitflag_items};

/// The flags of a range. Bits that none of these has are kept, and do not count.
#[derive(Clone, Copy, PartialEq, Eq, Debug, Drop)]
pub struct RangeFlags(u8);

bitflag_items! {
    impl RangeFlags: u8 {
        const EMPTY = 1;
        const LB_INC = 2;
        const UB_INC = 4;
        const LB_INF = 8;
        const UB_INF = 16;
    }
}

impl Flags for RangeFlags {
    ghost use Rattle.std.specs.Prelude.{⊤, [], ◌∷◌, codes};

    type Bits = u8;

    ghost exact = { ⊤ };

    ghost table = { (codes "EMPTY", 1) ∷ (codes "LB_INC", 2) ∷ (codes "UB_INC", 4) ∷ (codes "LB_INF", 8)
        ∷ (codes "UB_INF", 16) ∷ [] };

    ghost set_of = { λ flags. flags.0 };

    fn flags<'a>() -> &'a [Flag<RangeFlags>] {
        RangeFlags::FLAGS
    }

    fn bits(&self) -> u8 {
        self.0
    }

    fn from_bits_retain(bits: u8) -> RangeFlags {
        RangeFlags(bits)
    }
}

impl RangeFlags {
    /// Whether this flag is set.
    #[tactic(auto, unfolding(crate::specs::Flags::has))]
    pub(crate) fn has(self, flag: RangeFlags) -> bool
        ensures { result ≡ has self.0 flag.0 }
    {
        self.contains(flag)
    }
}
