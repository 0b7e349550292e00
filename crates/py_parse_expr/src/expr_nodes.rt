// Expressions with their heights.

ghost use Rattle.std.specs.Prelude.{◌≡◌, suc, max, true, false, ◌&&◌, IfOk};
ghost use Rattle.py_syntax.specs.Tree.{name, tuple, dict, paren, not', unary, compare, cond, index, slice, attr, no_exprs, no_pairs, no_links};
ghost use Rattle.std.specs.Option.{option_map};
ghost use Rattle.py_syntax.specs.Normal.{is_target, height, height_bound};
ghost use Rattle.py_syntax.specs.View.{plain_expr, opt_of};
ghost use Rattle.py_grammar.specs.TokenClasses.{joined};
ghost use Rattle.py_grammar.specs.Machine.{snoc, snoc_pair, snoc_link, made};
ghost use Rattle.py_parse_fields.specs.Frames.{view_operator};
ghost use Rattle.py_parse_expr.specs.ExprViews.{view_measured, view_row, view_entries, view_links, view_opener, view_bound, capped, IsMeasured, AreMeasured, AreEntries, IsChain, ValidOpener, ValidBound, Makes};

use py_parse_fields::operators::BinaryOperator;
use py_syntax::{Comparison, Expr, FormatPart, Fragment, HEIGHT_LIMIT, Link, Pair, Sign};
use py_text::{NoMemory, Text};
use std::alloc::Global;

/// The greatest height that is told from greater ones.
const CAP: usize = HEIGHT_LIMIT + 1;

/// An expression, its height, and whether it has the form of a target. It stands in a box, so that
/// it moves at little cost.
#[derive(Drop)]
pub struct Measured {
    pub expr: Box<Expr>,
    pub height: usize,
    pub target: bool,
}

/// Expressions, the greatest of their heights, and whether all have the form of targets.
#[derive(Drop)]
pub struct Row {
    pub items: Vec<Expr>,
    pub height: usize,
    pub targets: bool,
}

/// The entries of a dict, and the greatest of their heights.
#[derive(Drop)]
pub struct Entries {
    pub pairs: Vec<Pair>,
    pub height: usize,
}

/// A chain of comparisons, and the greatest height of an operand.
#[derive(Drop)]
pub struct Chain {
    pub first: Box<Expr>,
    pub links: Vec<Link>,
    pub height: usize,
}

/// What stands in an f-string, and the greatest height of a field.
#[derive(Drop)]
pub struct Fields {
    pub parts: Vec<FormatPart>,
    pub height: usize,
}

/// Neighbouring strings: plain ones, or some with an f-string among them and the greatest height of
/// a field.
#[derive(Drop)]
pub enum Strings {
    Plain(Vec<Text>),
    Mixed(Vec<Fragment>, usize),
}

/// What opened a bracket that holds items.
#[derive(Drop)]
pub enum Opener {
    Call(Measured),
    List,
}

/// The greater of two numbers.
pub fn higher(one: usize, other: usize) -> usize
    ensures { result ≡ max one other }
{
    if one < other { other } else { one }
}

pub fn both(one: bool, other: bool) -> bool
    ensures { result ≡ (one && other) }
{
    one && other
}

/// The height of a node over parts of that height.
pub fn over(height: usize) -> usize
    ensures { result ≡ capped (suc height) }
{
    if height < CAP { height + 1 } else { CAP }
}

impl Measured {
    pub fn new(alloc: Global, expr: Expr, height: usize, target: bool) -> Result<Measured, NoMemory>
        ensures expr { IfOk result (λ t. t.expr.value ≡ expr) }
        ensures height { IfOk result (λ t. t.height ≡ height) }
        ensures target { IfOk result (λ t. t.target ≡ target) }
    {
        let expr = Box::new(alloc, expr)?;
        Ok(Measured {
            expr,
            height,
            target,
        })
    }

    /// What has the height of a name and isn't one.
    pub fn low(alloc: Global, expr: Expr) -> Result<Measured, NoMemory>
        requires height { height (plain_expr expr) ≡ 1 }
        requires target { is_target (plain_expr expr) ≡ false }
        ensures { IfOk result (Makes (plain_expr expr)) }
    {
        Measured::new(alloc, expr, 1, false)
    }

    pub fn name(alloc: Global, text: Text) -> Result<Measured, NoMemory>
        ensures { IfOk result (Makes (name text)) }
    {
        Measured::new(alloc, Expr::Name(text), 1, true)
    }
}

impl Row {
    pub fn new(alloc: Global) -> Row
        ensures none { view_row result ≡ no_exprs }
        ensures are { AreMeasured result }
    {
        Row {
            items: Vec::new(alloc),
            height: 0,
            targets: true,
        }
    }

    /// The same with one more at the end.
    pub fn with(self, measured: Measured) -> Result<Row, NoMemory>
        requires are { AreMeasured self }
        requires is { IsMeasured measured }
        ensures items { IfOk result
            (λ r. view_row r ≡ snoc (view_row self) (view_measured measured)) }
        ensures are { IfOk result AreMeasured }
    {
        let mut row = self;
        row.height = higher(row.height, measured.height);
        row.targets = both(row.targets, measured.target);
        row.items.push(Box::into_inner(measured.expr))?;
        Ok(row)
    }
}

impl Entries {
    pub fn new(alloc: Global) -> Entries
        ensures none { view_entries result ≡ no_pairs }
        ensures are { AreEntries result }
    {
        Entries {
            pairs: Vec::new(alloc),
            height: 0,
        }
    }

    /// The same with one more at the end.
    pub fn with(self, key: Measured, value: Measured) -> Result<Entries, NoMemory>
        requires are { AreEntries self }
        requires key { IsMeasured key }
        requires value { IsMeasured value }
        ensures pairs { IfOk result (λ r. view_entries r
            ≡ snoc_pair (view_entries self) (view_measured key) (view_measured value)) }
        ensures are { IfOk result AreEntries }
    {
        let mut entries = self;
        entries.height = higher(entries.height, higher(key.height, value.height));
        entries.pairs.push(Pair {
            key: Box::into_inner(key.expr),
            value: Box::into_inner(value.expr),
        })?;
        Ok(entries)
    }
}

impl Chain {
    /// A chain that begins with this operand.
    pub fn new(alloc: Global, first: Measured) -> Chain
        requires { IsMeasured first }
        ensures first { plain_expr result.first.value ≡ view_measured first }
        ensures links { view_links result ≡ no_links }
        ensures is { IsChain result }
    {
        Chain {
            first: first.expr,
            links: Vec::new(alloc),
            height: first.height,
        }
    }

    /// The same with one more comparison at the end.
    pub fn with(self, op: Comparison, right: Measured) -> Result<Chain, NoMemory>
        requires is { IsChain self }
        requires right { IsMeasured right }
        ensures first { IfOk result (λ r. plain_expr r.first.value ≡ plain_expr self.first.value) }
        ensures links { IfOk result
            (λ r. view_links r ≡ snoc_link (view_links self) op (view_measured right)) }
        ensures is { IfOk result IsChain }
    {
        let mut chain = self;
        chain.height = higher(chain.height, right.height);
        chain.links.push(Link {
            op,
            right: Box::into_inner(right.expr),
        })?;
        Ok(chain)
    }
}

pub fn tuple(alloc: Global, items: Row, comma: bool) -> Result<Measured, NoMemory>
    requires { AreMeasured items }
    ensures { IfOk result (Makes (tuple (view_row items) comma)) }
{
    let expr = Expr::Tuple {
        items: items.items,
        comma,
    };
    Measured::new(alloc, expr, over(items.height), items.targets)
}

/// A call, or a list.
pub fn made(alloc: Global, opener: Opener, items: Row, comma: bool) -> Result<Measured, NoMemory>
    requires opener { ValidOpener opener }
    requires items { AreMeasured items }
    ensures { IfOk result (Makes (made (view_opener opener) (view_row items) comma)) }
{
    match opener {
        Opener::Call(callee) => {
            let height = over(higher(callee.height, items.height));
            let expr = Expr::Call {
                callee: callee.expr,
                args: items.items,
                comma,
            };
            Measured::new(alloc, expr, height, false)
        }
        Opener::List => {
            let expr = Expr::List {
                items: items.items,
                comma,
            };
            Measured::new(alloc, expr, over(items.height), items.targets)
        }
    }
}

pub fn dict(alloc: Global, entries: Entries, comma: bool) -> Result<Measured, NoMemory>
    requires { AreEntries entries }
    ensures { IfOk result (Makes (dict (view_entries entries) comma)) }
{
    let expr = Expr::Dict {
        items: entries.pairs,
        comma,
    };
    Measured::new(alloc, expr, over(entries.height), false)
}

pub fn paren(alloc: Global, inner: Measured) -> Result<Measured, NoMemory>
    requires { IsMeasured inner }
    ensures { IfOk result (Makes (paren (view_measured inner))) }
{
    Measured::new(
        alloc,
        Expr::Paren(inner.expr),
        over(inner.height),
        inner.target,
    )
}

pub fn negation(alloc: Global, operand: Measured) -> Result<Measured, NoMemory>
    requires { IsMeasured operand }
    ensures { IfOk result (Makes (not' (view_measured operand))) }
{
    Measured::new(alloc, Expr::Not(operand.expr), over(operand.height), false)
}

pub fn unary(alloc: Global, sign: Sign, operand: Measured) -> Result<Measured, NoMemory>
    requires { IsMeasured operand }
    ensures { IfOk result (Makes (unary sign (view_measured operand))) }
{
    let height = over(operand.height);
    Measured::new(alloc, Expr::Unary(sign, operand.expr), height, false)
}

pub fn joined(
    alloc: Global,
    operator: BinaryOperator,
    left: Measured,
    right: Measured,
) -> Result<Measured, NoMemory>
    requires left { IsMeasured left }
    requires right { IsMeasured right }
    ensures { IfOk result
        (Makes (joined (view_operator operator) (view_measured left) (view_measured right))) }
{
    let height = over(higher(left.height, right.height));
    match operator {
        BinaryOperator::Or => Measured::new(alloc, Expr::Or(left.expr, right.expr), height, false),
        BinaryOperator::And => Measured::new(
            alloc,
            Expr::And(left.expr, right.expr),
            height,
            false,
        ),
        BinaryOperator::Op(op) => Measured::new(
            alloc,
            Expr::Binary(op, left.expr, right.expr),
            height,
            false,
        ),
    }
}

pub fn comparison(alloc: Global, chain: Chain) -> Result<Measured, NoMemory>
    requires { IsChain chain }
    ensures { IfOk result (Makes (compare (plain_expr chain.first.value) (view_links chain))) }
{
    let height = over(chain.height);
    Measured::new(
        alloc,
        Expr::Compare(chain.first, chain.links),
        height,
        false,
    )
}

pub fn conditional(
    alloc: Global,
    body: Measured,
    test: Measured,
    orelse: Measured,
) -> Result<Measured, NoMemory>
    requires body { IsMeasured body }
    requires test { IsMeasured test }
    requires orelse { IsMeasured orelse }
    ensures { IfOk result
        (Makes (cond (view_measured body) (view_measured test) (view_measured orelse))) }
{
    let height = over(higher(body.height, higher(test.height, orelse.height)));
    let expr = Expr::Cond {
        body: body.expr,
        test: test.expr,
        orelse: orelse.expr,
    };
    Measured::new(alloc, expr, height, false)
}

pub fn index(alloc: Global, of: Measured, at: Measured) -> Result<Measured, NoMemory>
    requires of { IsMeasured of }
    requires at { IsMeasured at }
    ensures { IfOk result (Makes (index (view_measured of) (view_measured at))) }
{
    let height = over(higher(of.height, at.height));
    Measured::new(alloc, Expr::Index(of.expr, at.expr), height, true)
}

/// The height of a bound of a slice.
pub fn bound_height(bound: &Option<Measured>) -> usize
    requires { ValidBound bound.now }
    ensures { result ≡ capped (height_bound (view_bound bound.now)) }
{
    match bound {
        None => 0,
        Some(measured) => measured.height,
    }
}

fn boxed(bound: Option<Measured>) -> Option<Box<Expr>>
    ensures { opt_of (option_map (λ x. plain_expr x.value) result) ≡ view_bound bound }
{
    match bound {
        None => None,
        Some(measured) => Some(measured.expr),
    }
}

pub fn slice(
    alloc: Global,
    of: Measured,
    from: Option<Measured>,
    to: Option<Measured>,
) -> Result<Measured, NoMemory>
    requires of { IsMeasured of }
    requires from { ValidBound from }
    requires to { ValidBound to }
    ensures { IfOk result (Makes (slice (view_measured of) (view_bound from) (view_bound to))) }
{
    let height = over(higher(of.height, higher(bound_height(&from), bound_height(&to))));
    let expr = Expr::Slice {
        of: of.expr,
        from: boxed(from),
        to: boxed(to),
    };
    Measured::new(alloc, expr, height, false)
}

pub fn attribute(alloc: Global, of: Measured, name: Text) -> Result<Measured, NoMemory>
    requires { IsMeasured of }
    ensures { IfOk result (Makes (attr (view_measured of) name)) }
{
    let height = over(of.height);
    Measured::new(alloc, Expr::Attr(of.expr, name), height, false)
}
