//! Data of several runs as one.
ghost use Rattle.std.specs.Prelude.{◌≡◌, ◌<◌, ◌∷◌, ◌++◌, List, true, not, length, IsPermutation, IfOk, IfErr, IsErrOf};
ghost use Rattle.cov_data.specs.DataSet.{DataSet};
ghost use Rattle.cov_combine.specs.Aliases.{alias_of};
ghost use Rattle.cov_combine.specs.Combined.{with_renamed, flag_of, has_both_kinds, combined, HaveSameMembers, HasOwnAliases, HoldsAlike, IsMixture};
ghost use Rattle.cov_combine.specs.Pointwise.{HoldsInputs, PointwiseLaw};

use crate::NoMemory;
use crate::aliases::AliasRules;
use cov_data::Data;
use std::alloc::{AllocError, Global};

/// Why data were not combined.
#[derive(Debug, PartialEq, Drop)]
pub enum CombineError {
    /// Some hold arcs and some lines: whether the first holds arcs, and the other flag.
    Mixed { first: bool, other: bool },
    NoMemory,
}

impl From<AllocError> for CombineError {
    ghost use Rattle.cov_combine.specs.declared.combining.CombineError.TheVariants.{NoMemory};

    ghost from_gives = { λ _ e. e ≡ NoMemory };

    fn from(_e: AllocError) -> CombineError {
        CombineError::NoMemory
    }
}

/// The union of the inputs, each path under its alias. The counts of rows that become one are
/// added.
pub fn combine(alloc: Global, inputs: &[Data], rules: &AliasRules) -> Result<Data, CombineError>
    requires { 0 < length inputs.now }
    ensures ok { IfOk result (λ all. all ≡ combined (alias_of rules.now) inputs.now) }
    ensures pointwise { IfOk result (HoldsInputs (alias_of rules.now) inputs.now) }
    ensures mixed { has_both_kinds inputs.now ≡ true
        → IsErrOf result (CombineError.Mixed (flag_of inputs.now) (not (flag_of inputs.now))) }
    ensures refused { IfErr result (IsMixture inputs.now) }

    // The order of the inputs does not matter, repeats change no more than counts, and a
    // combination may be combined with further inputs where its paths are their own aliases.
    ensures any_order { IfOk result (λ all.
        (others : List DataSet) → IsPermutation inputs.now others
        → all ≡ combined (alias_of rules.now) others) }
    ensures repeats { IfOk result (λ all.
        (others : List DataSet) → HaveSameMembers inputs.now others
        → HoldsAlike all (combined (alias_of rules.now) others)) }
    ensures groups { IfOk result (λ all.
        (more : List DataSet) → HasOwnAliases (alias_of rules.now) all
        → combined (alias_of rules.now) (all ∷ more)
        ≡ combined (alias_of rules.now) (inputs.now ++ more)) }
{
    let first = inputs[0].is_arcs();
    for input in inputs {
        if input.is_arcs() != first {
            return Err(CombineError::Mixed {
                first,
                other: !first,
            });
        }
    }
    let mut all = Data::new(alloc, first);
    for input in inputs {
        all = with_renamed(all, input, rules)?;
    }
    Ok(all)
}

/// Adds the paths and rows of `input`, each path under its alias.
fn with_renamed(all: Data, input: &Data, rules: &AliasRules) -> Result<Data, NoMemory>
    requires { all.arcs ≡ input.now.arcs }
    ensures { IfOk result (λ more. more ≡ with_renamed (alias_of rules.now) all input.now) }
{
    let mut more = all;
    for path in &input.paths()? {
        let alias = rules.alias(path.as_str())?;
        more = more.with_file(alias.as_str(), input, path.as_str())?;
    }
    Ok(more)
}

/// A law: combined data hold the paths and rows of their inputs, each path under its alias, and no
/// others. It does nothing when it runs.
pub fn combined_holds_inputs()
    ensures { PointwiseLaw }
{}
