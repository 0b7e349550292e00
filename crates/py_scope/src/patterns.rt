// Patterns: what they bind, and what they may be blamed for.

ghost use Rattle.std.specs.Prelude.{◌≡◌, [], ◌∷◌, ◌++◌, true, false, ◌||◌, OnOk};
ghost use Rattle.py_syntax.specs.View.{plain_pattern, plain_patterns};
ghost use Rattle.py_syntax.specs.Names.{pattern_names, patterns_names};
ghost use Rattle.py_syntax.specs.Tree.{p_or};
ghost use Rattle.py_scope.specs.PatternFacts.{facts_of, simple_facts, items_facts, either};

use py_syntax::Pattern;
use py_text::{NoMemory, Text};

/// What is told of a pattern at one look.
#[derive(Clone, Copy, Drop)]
pub(crate) struct PatternFacts {
    /// It matches everything.
    pub irrefutable: bool,
    /// Somewhere in it an irrefutable alternative stands before the last of its list.
    pub early: bool,
    /// It binds a name.
    pub binds: bool,
    /// Somewhere in it an alternative binds a name.
    pub alternative_binds: bool,
}

/// What is told of a pattern with no other in it.
fn simple(irrefutable: bool, binds: bool) -> PatternFacts
    ensures { result ≡ simple_facts irrefutable binds }
{
    PatternFacts {
        irrefutable,
        early: false,
        binds,
        alternative_binds: false,
    }
}

#[cycle(facts)]
pub(crate) fn pattern_facts(pattern: &Pattern) -> PatternFacts
    ensures { result ≡ facts_of (plain_pattern pattern.now) }
{
    match pattern {
        Pattern::Literal { minus: _, value: _ } => simple(false, false),
        Pattern::Capture(_) => simple(true, true),
        Pattern::Wild => simple(true, false),
        Pattern::Member(_, _) => simple(false, false),
        Pattern::Sequence {
            brackets: _,
            items,
            comma: _,
        } => PatternFacts {
            irrefutable: false,
            ..items_facts(items)
        },
        Pattern::Or(alternatives) => alternatives_facts(alternatives),
        Pattern::As(inner, _) => either(simple(false, true), pattern_facts(inner)),
        Pattern::Paren(inner) => pattern_facts(inner),
    }
}

/// What is told of the items of a sequence.
#[cycle(facts)]
fn items_facts(items: &[Pattern]) -> PatternFacts
    ensures { result ≡ items_facts (plain_patterns items.now) }
{
    let mut all = simple(false, false);
    for item in items {
        all = either(all, pattern_facts(item));
    }
    all
}

/// What is told of alternatives.
#[cycle(facts)]
fn alternatives_facts(alternatives: &[Pattern]) -> PatternFacts
    ensures { result ≡ facts_of (p_or (plain_patterns alternatives.now)) }
{
    let mut all = simple(false, false);
    for alternative in alternatives {
        all = either(before_another(all), pattern_facts(alternative));
    }
    PatternFacts {
        irrefutable: all.irrefutable,
        early: all.early,
        binds: all.binds,
        alternative_binds: all.binds,
    }
}

/// What is told of alternatives where another one follows.
fn before_another(facts: PatternFacts) -> PatternFacts
    ensures { result ≡ record facts { early = facts.early || facts.irrefutable } }
{
    PatternFacts {
        early: facts.early || facts.irrefutable,
        ..facts
    }
}

/// What is told of one pattern or the other.
fn either(a: PatternFacts, b: PatternFacts) -> PatternFacts
    ensures { result ≡ either a b }
{
    PatternFacts {
        irrefutable: a.irrefutable || b.irrefutable,
        early: a.early || b.early,
        binds: a.binds || b.binds,
        alternative_binds: a.alternative_binds || b.alternative_binds,
    }
}

/// Adds the names that the pattern binds, in the order of the text.
#[cycle(names)]
pub(crate) fn push_names(names: &mut Vec<Text>, pattern: &Pattern) -> Result<(), NoMemory>
    ensures { OnOk result (names.new.items ≡ names.old.items
        ++ pattern_names (plain_pattern pattern.now)) }
{
    match pattern {
        Pattern::Literal { minus: _, value: _ } => Ok(()),
        Pattern::Capture(x) => push_name(names, x),
        Pattern::Wild => Ok(()),
        Pattern::Member(_, _) => Ok(()),
        Pattern::Sequence {
            brackets: _,
            items,
            comma: _,
        } => push_all_names(names, items),
        Pattern::Or(alternatives) => push_all_names(names, alternatives),
        Pattern::As(inner, x) => {
            push_names(names, inner)?;
            push_name(names, x)
        }
        Pattern::Paren(inner) => push_names(names, inner),
    }
}

#[cycle(names)]
fn push_all_names(names: &mut Vec<Text>, patterns: &[Pattern]) -> Result<(), NoMemory>
    ensures { OnOk result (names.new.items ≡ names.old.items
        ++ patterns_names (plain_patterns patterns.now)) }
{
    for pattern in patterns {
        push_names(names, pattern)?;
    }
    Ok(())
}

fn push_name(names: &mut Vec<Text>, x: &Text) -> Result<(), NoMemory>
    ensures { OnOk result (names.new.items ≡ names.old.items ++ x.now ∷ []) }
{
    let copy = x.copy()?;
    names.push(copy)?;
    Ok(())
}
