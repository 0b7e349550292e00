//! A law of `combine`.
ghost use Rattle.cov_joins.specs.Left.{CombineLeavesLaw};

use cov_outside::Shelf;
use cov_vault::Vault;

/// However `combine` ends, also after `VaultFault` or `NoMemory`, nothing but the data file and its
/// inputs has changed. It does nothing when it runs.
pub fn combine_leaves<H: Shelf, V: Vault>()
    ensures { CombineLeavesLaw H.Shelf V.Vault }
{}
