//! Why costs are refused.
ghost use Rattle.std.specs.Prelude.{◌≡◌};
ghost use Rattle.lrpar_parse_cpctplus.specs.declared.fault.CostFault.TheVariants.{Memory};

use std::alloc::AllocError;
use thiserror::Error;

/// Why costs of tokens are refused.
#[derive(Clone, Copy, Debug, PartialEq, Eq, Error)]
pub enum CostFault {
    /// This token, by its number, would cost nothing.
    #[error("token {0} costs nothing")]
    CostsNothing(usize),
    /// Out of memory: an allocation failed.
    #[error("out of memory")]
    Memory,
}

impl From<AllocError> for CostFault {
    ghost from_gives = { λ _ fault. fault ≡ Memory };

    fn from(_: AllocError) -> CostFault {
        CostFault::Memory
    }
}
