// The search over what stands at the marks of statements.

ghost use Rattle.std.specs.Prelude.{◌≡◌, IfOk};
ghost use Rattle.std.specs.Option.{option_map};
ghost use Rattle.py_syntax.specs.View.{plain_expr, plain_exprs};
ghost use Rattle.py_changes.specs.Mutants.{at_mark, augmented_change, expr_mutants};
ghost use Rattle.py_changes.specs.Mutants.{exprs_mutants, maybe_mutants};
ghost use Rattle.cov_mutants_expr.specs.Search.{Copied};
ghost use Rattle.cov_mutants_expr.specs.SearchView.{seen};
ghost use Rattle.cov_mutants.specs.MarksView.{line_at, marked};

use cov_mutants_expr::{Search, expressions};
use py_operator::BinOp;
use py_syntax::Expr;
use py_text::NoMemory;
use std::alloc::Global;

/// A search, and the line of the mark that it stands at: that of what it reached, once it did.
#[derive(Clone, Copy)]
pub(crate) struct Marks {
    pub(crate) search: Search,
    pub(crate) line: u32,
}

impl Marks {
    /// Comes to a mark of this line.
    fn come_to(&mut self, line: u32)
        ensures search { self.new.search ≡ self.old.search }
        ensures line { self.new.line ≡ line_at self.old.line line (seen self.old.search) }
    {
        match self.search {
            Search::Left(_) => self.line = line,
            Search::Found(_) => (),
        }
    }

    pub(crate) fn augmented(&mut self, line: u32, op: BinOp) -> BinOp
        ensures { Copied (λ o. at_mark line (augmented_change o)) (marked self.old)
            (marked self.new) op result }
    {
        self.come_to(line);
        self.search.augmented(op)
    }

    /// A copy of an expression at the mark of a line.
    pub(crate) fn expr(&mut self, alloc: Global, line: u32, e: &Expr) -> Result<Box<Expr>, NoMemory>
        ensures { IfOk result (λ b. Copied (λ x. at_mark line (expr_mutants x)) (marked self.old)
            (marked self.new) (plain_expr e.now) (plain_expr b.value)) }
    {
        self.come_to(line);
        expressions::expr(alloc, e, &mut self.search)
    }

    pub(crate) fn exprs(
        &mut self,
        alloc: Global,
        line: u32,
        items: &[Expr],
    ) -> Result<Vec<Expr>, NoMemory>
        ensures { IfOk result (λ out. Copied (λ es. at_mark line (exprs_mutants es))
            (marked self.old) (marked self.new) (plain_exprs items.now) (plain_exprs out.items)) }
    {
        self.come_to(line);
        expressions::exprs(alloc, items, &mut self.search)
    }

    /// A copy of an expression that may be missing.
    pub(crate) fn maybe(
        &mut self,
        alloc: Global,
        line: u32,
        e: &Option<Expr>,
    ) -> Result<Option<Expr>, NoMemory>
        ensures { IfOk result (λ o. Copied (λ x. at_mark line (maybe_mutants x))
            (marked self.old) (marked self.new) (option_map plain_expr e.now)
            (option_map plain_expr o)) }
    {
        match e {
            None => Ok(None),
            Some(e) => Ok(Some(Box::into_inner(self.expr(alloc, line, e)?))),
        }
    }
}
