// Emission of patterns: each takes the value on top, and leaves the values of the names that it
// captures.

ghost use Rattle.std.specs.Prelude.{◌≡◌, ◌+◌, length, [], ◌∷◌, ◌++◌, IfOk, OnOk};
ghost use Rattle.std.specs.Prelude.{neg_ℤ};
ghost use Rattle.py_syntax.specs.Tree.{literal, member};
ghost use Rattle.py_code.specs.declared.unit.Constant.TheVariants.{Int as IntConstant};
ghost use Rattle.py_compile_expr.specs.Pieces.{alternative_size, alternative_code, choice_code, none_code};
ghost use Rattle.py_syntax.specs.View.{plain_constant, plain_pattern, plain_patterns};
ghost use Rattle.py_compile_expr.specs.CellView.{plain_guard, plain_site};
ghost use Rattle.py_compile_expr.specs.Patterns.{kept_constant, constant_question, captured, captured_each, pattern_size, pattern_code, items_size, items_code, one_size, one_code, names_size, names_code};

use crate::cells::{Builder, Guard, Op, sum};
use crate::operators::number;
use crate::site::{Site, with_captured, with_waiting};
use crate::texts::run_together;
use py_code::{Constant, Instr, Question};
use py_syntax::{Constant as Literal, Pattern};
use py_text::{NoMemory, Text};
use std::alloc::{AllocError, Global};

/// The constant of a literal pattern. No text has a number below zero without its minus.
fn kept_constant(alloc: Global, minus: bool, value: &Literal) -> Result<Constant, NoMemory>
    ensures { IfOk result (λ k. k ≡ kept_constant minus (plain_constant value.now)) }
{
    match value {
        Literal::Int(n) => {
            if minus {
                negated(*n)
            } else {
                Ok(Constant::Int(*n))
            }
        }
        Literal::Str(pieces) => Ok(Constant::Str(run_together(alloc, pieces)?)),
        Literal::None => Ok(Constant::None),
        Literal::Bool(b) => Ok(Constant::Bool(*b)),
    }
}

fn negated(n: i64) -> Result<Constant, NoMemory>
    ensures { IfOk result (λ k. k ≡ IntConstant (neg_ℤ n)) }
{
    match n.checked_neg() {
        Some(n) => Ok(Constant::Int(n)),
        None => Err(AllocError),
    }
}

/// Numbers and strings match by `==`; None, True and False as that value.
fn constant_question(value: &Literal) -> Question
    ensures { result ≡ constant_question (plain_constant value.now) }
{
    match value {
        Literal::Int(_) => Question::Eq,
        Literal::Str(_) => Question::Eq,
        Literal::None => Question::Is,
        Literal::Bool(_) => Question::Is,
    }
}

/// Adds the names that a pattern captures.
#[cycle(captured)]
pub fn push_captured(names: &mut Vec<Text>, pattern: &Pattern) -> Result<(), NoMemory>
    ensures { OnOk result (names.new.items
        ≡ names.old.items ++ captured (plain_pattern pattern.now)) }
{
    match pattern {
        Pattern::Literal { minus: _, value: _ } => Ok(()),
        Pattern::Capture(name) => push_name(names, name),
        Pattern::Wild => Ok(()),
        Pattern::Member(_, _) => Ok(()),
        Pattern::Sequence {
            brackets: _,
            items,
            comma: _,
        } => push_captured_each(names, items),
        Pattern::Or(_) => Ok(()),
        Pattern::As(inner, name) => {
            push_captured(names, inner)?;
            push_name(names, name)
        }
        Pattern::Paren(inner) => push_captured(names, inner),
    }
}

#[cycle(captured)]
fn push_captured_each(names: &mut Vec<Text>, items: &[Pattern]) -> Result<(), NoMemory>
    ensures { OnOk result (names.new.items
        ≡ names.old.items ++ captured_each (plain_patterns items.now)) }
{
    for item in items {
        push_captured(names, item)?;
    }
    Ok(())
}

fn push_name(names: &mut Vec<Text>, name: &Text) -> Result<(), NoMemory>
    ensures { OnOk result (names.new.items ≡ names.old.items ++ name.now ∷ []) }
{
    let name = name.copy()?;
    names.push(name)?;
    Ok(())
}

/// How many names a pattern captures.
#[cycle(captures)]
pub fn captures(pattern: &Pattern) -> Result<u32, NoMemory>
    ensures { IfOk result (λ n. n ≡ length (captured (plain_pattern pattern.now))) }
{
    match pattern {
        Pattern::Literal { minus: _, value: _ } => Ok(0),
        Pattern::Capture(_) => Ok(1),
        Pattern::Wild => Ok(0),
        Pattern::Member(_, _) => Ok(0),
        Pattern::Sequence {
            brackets: _,
            items,
            comma: _,
        } => captures_each(items),
        Pattern::Or(_) => Ok(0),
        Pattern::As(inner, _) => sum(captures(inner)?, 1),
        Pattern::Paren(inner) => captures(inner),
    }
}

#[cycle(captures)]
fn captures_each(items: &[Pattern]) -> Result<u32, NoMemory>
    ensures { IfOk result (λ n. n ≡ length (captured_each (plain_patterns items.now))) }
{
    let mut count = 0;
    for item in items {
        count = sum(count, captures(item)?)?;
    }
    Ok(count)
}

/// How many instructions a pattern takes.
#[cycle(pattern_sizes)]
pub fn pattern_size(pattern: &Pattern) -> Result<u32, NoMemory>
    ensures { IfOk result (λ n. n ≡ pattern_size (plain_pattern pattern.now)) }
{
    match pattern {
        Pattern::Literal { minus: _, value: _ } => Ok(3),
        Pattern::Capture(_) => Ok(1),
        Pattern::Wild => Ok(1),
        Pattern::Member(_, _) => Ok(4),
        Pattern::Sequence {
            brackets: _,
            items,
            comma: _,
        } => sum(items_size(items)?, 1),
        Pattern::Or(items) => one_size(items),
        Pattern::As(inner, _) => sum(pattern_size(inner)?, 2),
        Pattern::Paren(inner) => pattern_size(inner),
    }
}

#[cycle(pattern_sizes)]
fn items_size(items: &[Pattern]) -> Result<u32, NoMemory>
    ensures { IfOk result (λ n. n ≡ items_size (plain_patterns items.now)) }
{
    let mut size = 0;
    for item in items {
        size = sum(size, pattern_size(item)?)?;
    }
    Ok(size)
}

/// Each alternative but the last takes three instructions more.
#[cycle(pattern_sizes)]
fn one_size(items: &[Pattern]) -> Result<u32, NoMemory>
    ensures { IfOk result (λ n. n ≡ one_size (plain_patterns items.now)) }
{
    if items.is_empty() {
        return Ok(3);
    }
    let mut size = 0;
    for i in 0..items.len() {
        let own = pattern_size(&items[i])?;
        size = sum(size, alternative_size(own, items.len() - i)?)?;
    }
    Ok(size)
}

/// The size of an alternative whose pattern takes so many instructions, where so many are left,
/// this one among them.
fn alternative_size(own: u32, left: usize) -> Result<u32, NoMemory>
    ensures { IfOk result (λ n. n ≡ alternative_size own left) }
{
    if left == 1 { Ok(own) } else { sum(own, 3) }
}

/// Adds the code of a pattern.
#[cycle(patterns)]
pub fn put_pattern(
    out: &mut Builder,
    site: Site,
    at: u32,
    pattern: &Pattern,
) -> Result<u32, NoMemory>
    ensures cells { OnOk result (out.new
        ≡ out.old ++ pattern_code (plain_site site) at (plain_pattern pattern.now)) }
    ensures place { IfOk result (λ n. n ≡ at + pattern_size (plain_pattern pattern.now)) }
{
    match pattern {
        Pattern::Literal { minus, value } => put_literal(out, site, at, *minus, value),
        Pattern::Capture(_) => out.put(site.guard, at, Op::Plain(Instr::Sink(site.waiting))),
        Pattern::Wild => out.put(site.guard, at, Op::Plain(Instr::Pop)),
        Pattern::Member(of, name) => put_member(out, site, at, of, name),
        Pattern::Sequence {
            brackets: _,
            items,
            comma: _,
        } => {
            let size = number(items.len())?;
            let instr = Instr::Sequence(size, site.extra, site.fail);
            let at = out.put(site.guard, at, Op::Plain(instr))?;
            put_items(out, site, at, items)
        }
        Pattern::Or(items) => {
            let end = sum(at, one_size(items)?)?;
            put_one(out, site, at, end, items)
        }
        Pattern::As(inner, _) => {
            let inside = with_waiting(1, site)?;
            let at = out.put(site.guard, at, Op::Plain(Instr::Copy(0)))?;
            let at = put_pattern(out, inside, at, inner)?;
            out.put(site.guard, at, Op::Plain(Instr::Sink(site.waiting)))
        }
        Pattern::Paren(inner) => put_pattern(out, site, at, inner),
    }
}

fn put_literal(
    out: &mut Builder,
    site: Site,
    at: u32,
    minus: bool,
    value: &Literal,
) -> Result<u32, NoMemory>
    ensures cells { OnOk result (out.new
        ≡ out.old ++ pattern_code (plain_site site) at (literal minus (plain_constant value.now))) }
    ensures place { IfOk result (λ n. n ≡ at + 3) }
{
    let question = constant_question(value);
    let constant = kept_constant(out.alloc(), minus, value)?;
    let at = out.put(site.guard, at, Op::Constant(constant))?;
    let at = out.put(site.guard, at, Op::Plain(Instr::Compare(question)))?;
    out.put(
        site.guard,
        at,
        Op::Plain(Instr::Unless(site.extra, site.fail)),
    )
}

fn put_member(
    out: &mut Builder,
    site: Site,
    at: u32,
    of: &Text,
    name: &Text,
) -> Result<u32, NoMemory>
    ensures cells { OnOk result (out.new
        ≡ out.old ++ pattern_code (plain_site site) at (member of.now name.now)) }
    ensures place { IfOk result (λ n. n ≡ at + 4) }
{
    let of = of.copy()?;
    let at = out.put(site.guard, at, Op::Load(of))?;
    let name = name.copy()?;
    let at = out.put(site.guard, at, Op::Attribute(name))?;
    let at = out.put(site.guard, at, Op::Plain(Instr::Compare(Question::Eq)))?;
    out.put(
        site.guard,
        at,
        Op::Plain(Instr::Unless(site.extra, site.fail)),
    )
}

/// The items of a sequence. The first one is on top, and the others wait.
#[cycle(patterns)]
fn put_items(out: &mut Builder, site: Site, at: u32, items: &[Pattern]) -> Result<u32, NoMemory>
    ensures cells { OnOk result (out.new
        ≡ out.old ++ items_code (plain_site site) at (plain_patterns items.now)) }
    ensures place { IfOk result (λ n. n ≡ at + items_size (plain_patterns items.now)) }
{
    let mut to = at;
    let mut here = site;
    for i in 0..items.len() {
        let waiting = number(items.len() - i - 1)?;
        let inside = with_waiting(waiting, here)?;
        let item = &items[i];
        let next = with_captured(captures(item)?, here)?;
        to = put_pattern(out, inside, to, item)?;
        here = next;
    }
    Ok(to)
}

/// Alternatives. Each but the last matches a copy.
#[cycle(patterns)]
fn put_one(
    out: &mut Builder,
    site: Site,
    at: u32,
    end: u32,
    items: &[Pattern],
) -> Result<u32, NoMemory>
    ensures cells { OnOk result (out.new
        ≡ out.old ++ one_code (plain_site site) at end (plain_patterns items.now)) }
    ensures place { IfOk result (λ n. n ≡ at + one_size (plain_patterns items.now)) }
{
    if items.is_empty() {
        return put_none(out, site, at);
    }
    let mut to = at;
    for i in 0..items.len() {
        to = put_choice(out, site, to, end, items.len() - i, &items[i])?;
    }
    Ok(to)
}

/// An alternative, where so many are left, this one among them.
#[cycle(patterns)]
fn put_choice(
    out: &mut Builder,
    site: Site,
    at: u32,
    end: u32,
    left: usize,
    pattern: &Pattern,
) -> Result<u32, NoMemory>
    ensures cells { OnOk result (out.new
        ≡ out.old ++ choice_code (plain_site site) at end left (plain_pattern pattern.now)) }
    ensures place { IfOk result (λ n.
        n ≡ at + alternative_size (pattern_size (plain_pattern pattern.now)) left) }
{
    if left == 1 {
        put_pattern(out, site, at, pattern)
    } else {
        put_alternative(out, site, at, end, pattern)
    }
}

/// No alternative matches.
fn put_none(out: &mut Builder, site: Site, at: u32) -> Result<u32, NoMemory>
    ensures cells { OnOk result (out.new ≡ out.old ++ none_code (plain_site site)) }
    ensures place { IfOk result (λ n. n ≡ at + 3) }
{
    let at = out.put(site.guard, at, Op::Plain(Instr::Pop))?;
    let at = out.put(site.guard, at, Op::Constant(Constant::Bool(false)))?;
    out.put(
        site.guard,
        at,
        Op::Plain(Instr::Unless(site.extra, site.fail)),
    )
}

/// An alternative that others follow.
#[cycle(patterns)]
fn put_alternative(
    out: &mut Builder,
    site: Site,
    at: u32,
    end: u32,
    pattern: &Pattern,
) -> Result<u32, NoMemory>
    ensures cells { OnOk result (out.new
        ≡ out.old ++ alternative_code (plain_site site) at end (plain_pattern pattern.now)) }
    ensures place { IfOk result (λ n. n ≡ at + pattern_size (plain_pattern pattern.now) + 3) }
{
    let waiting = sum(1, site.waiting)?;
    let fail = sum(sum(at, pattern_size(pattern)?)?, 3)?;
    let inside = Site {
        guard: site.guard,
        waiting,
        fail,
        extra: 0,
    };
    let at = out.put(site.guard, at, Op::Plain(Instr::Copy(0)))?;
    let at = put_pattern(out, inside, at, pattern)?;
    let at = out.put(site.guard, at, Op::Plain(Instr::Pop))?;
    out.put(site.guard, at, Op::Plain(Instr::Goto(end)))
}

/// Binds the names of a match, whose values stand on top, the last name's highest.
pub fn put_names(
    out: &mut Builder,
    guard: Option<Guard>,
    at: u32,
    names: &[Text],
) -> Result<u32, NoMemory>
    ensures cells { OnOk result (out.new ≡ out.old ++ names_code (plain_guard guard) names.now) }
    ensures place { IfOk result (λ n. n ≡ at + names_size names.now) }
{
    let mut to = at;
    for i in 0..names.len() {
        let above = number(names.len() - i - 1)?;
        to = out.put(guard, to, Op::Plain(Instr::Roll(above)))?;
        let name = names[i].copy()?;
        to = out.put(guard, to, Op::Store(name))?;
    }
    Ok(to)
}
