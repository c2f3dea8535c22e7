//! The faults of a certificate.

ghost use Rattle.std.specs.Prelude.{refl};
ghost use Rattle.strategy_check.specs.Checks.{index_faults};
ghost use Rattle.strategy_check.specs.declared.why.Why.TheVariants.{Rest as LeftOver};

use certificate_walks::WalkFault;

/// The first fault of a certificate.
#[derive(Clone, Copy, Debug, PartialEq, Eq)]
pub enum Why {
    /// The claimed move is not legal.
    NoSuchMove,
    /// An index is not below the number of moves.
    BadIndex,
    /// A leaf does not meet its claim.
    LeafFails,
    /// An index is missing.
    TooShort,
    /// Something is left over.
    Rest,
}

impl WalkFault for Why {
    ghost kinds = { index_faults };

    ghost rest = { LeftOver };

    ghost rest_is_met = { λ claim. tt };

    fn left_over() -> Why {
        Why::Rest
    }

    ghost rest_is_below = { tt };

    ghost rest_is_seen = { refl };
}
