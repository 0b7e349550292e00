//! What a hook means, over the trees of its script: laws over what `Hook` of `cov_hook` answers.
//! The function below does nothing, and stands for the law that its contract states.
#![tactic(auto)]

ghost use Rattle.cov_hook_laws.specs.Laws.{HooksMean};

use py_compile::units_are_faithful;
use py_compile_laws::traces_kept;

/// A hook of faithful code begins and answers as its trees mean it, and has the functions that
/// these define.
pub fn hooks_mean()
    ensures { HooksMean }
{
    units_are_faithful();
    traces_kept();
}
