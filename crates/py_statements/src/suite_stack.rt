// Open suites, with the statements that were read in them.

ghost use Rattle.std.specs.Prelude.{◌≡◌, IfOk};
ghost use Rattle.py_syntax.specs.Tree.{no_stmts};
ghost use Rattle.py_syntax.specs.View.{plain_stmts};
ghost use Rattle.py_statements.specs.Open.{inside, add};
ghost use Rattle.py_statements.specs.Machine.{onward, close};
ghost use Rattle.py_statements.specs.ViewSuiteOf.{boxed_kind, boxed_suite_of};
ghost use Rattle.py_statements.specs.ViewStates.{view_span, view_state, view_suites, Opens};
ghost use Rattle.py_statements.specs.ViewStates.{SharesLine, is_closable, is_top};

use crate::places::State;
use crate::suite_of::SuiteOf;
use py_syntax::{LineEnd, Stmt, StmtKind, Suite};
use py_text::NoMemory;
use std::alloc::Global;

/// The first lines of a statement and of the part of it that is read, and the last line of that
/// part so far.
#[derive(Clone, Copy)]
pub struct Span {
    pub begun: u32,
    pub first: u32,
    pub last: u32,
}

impl Span {
    /// With one token more.
    pub fn onward(self, last: u32) -> Span
        ensures { view_span result ≡ onward (view_span self) last }
    {
        Span {
            begun: self.begun,
            first: self.first,
            last,
        }
    }
}

/// A suite that is open, with the lines of its header and the first line of its statement; and the
/// statements in front of that one.
#[derive(Drop)]
pub struct Open {
    pub inline: bool,
    pub span: Span,
    pub suite_of: Box<SuiteOf>,
    pub outer: Vec<Stmt>,
}

/// The statements of the innermost suite so far, and the suites that are open, the innermost last.
pub struct SuiteStack {
    pub body: Vec<Stmt>,
    pub open: Vec<Open>,
}

// As of `Suite`: letting them go is one call.
impl Drop for SuiteStack {
    fn drop(self) {
        let SuiteStack { body, open } = self;
        drop(body);
        drop(open)
    }
}

/// The innermost of the suites that are open.
pub fn innermost(body: &[Stmt], others: &mut Vec<Open>) -> Option<Open>
    ensures { Opens (plain_stmts body.now) others.old.items others.new.items result }
{
    others.pop()
}

impl SuiteStack {
    /// A statement more in the innermost suite.
    pub(crate) fn add(
        self,
        first: u32,
        last: u32,
        kind: Box<StmtKind>,
        end: LineEnd,
    ) -> Result<SuiteStack, NoMemory>
        ensures { IfOk result (λ b.
            view_suites b ≡ add (view_suites self) first last (boxed_kind kind) end) }
    {
        let SuiteStack { body, open } = self;
        let mut body = body;
        let kind = Box::into_inner(kind);
        body.push(Stmt {
            first,
            last,
            kind,
            end,
        })?;
        Ok(SuiteStack { body, open })
    }

    /// A suite opens.
    pub(crate) fn opened(
        self,
        alloc: Global,
        inline: bool,
        span: Span,
        suite_of: Box<SuiteOf>,
    ) -> Result<SuiteStack, NoMemory>
        ensures { IfOk result (λ b. view_suites b ≡ inside no_stmts inline
            span.first span.last span.begun (boxed_suite_of suite_of) (view_suites self)) }
    {
        let SuiteStack { body, open } = self;
        let mut open = open;
        open.push(Open {
            inline,
            span,
            suite_of,
            outer: body,
        })?;
        Ok(SuiteStack {
            body: Vec::new(alloc),
            open,
        })
    }

    /// A suite ends with a token whose last line is this.
    pub(crate) fn close(self, alloc: Global, last: u32) -> Result<State, NoMemory>
        ensures { IfOk result (λ s. view_state s ≡ close (view_suites self) last) }
    {
        let SuiteStack { body, open } = self;
        let mut open = open;
        let Some(inner) = innermost(&body, &mut open) else {
            return Ok(State::Line(SuiteStack { body, open }));
        };
        let Open {
            inline,
            span,
            suite_of,
            outer,
        } = inner;
        let suite = Suite {
            first: span.first,
            last: span.last,
            inline,
            body,
        };
        let outer = SuiteStack { body: outer, open };
        Box::into_inner(suite_of).over_suite(alloc, suite, span.begun, last, outer)
    }

    /// The statements of the innermost suite.
    pub(crate) fn into_body(self) -> Vec<Stmt>
        ensures { result ≡ self.body }
    {
        let SuiteStack { body, open } = self;
        drop(open);
        body
    }

    /// Whether the innermost suite stands on the line of its header.
    pub fn shares_line(&self) -> bool
        ensures { SharesLine (view_suites self.now) result }
    {
        match self.open.last() {
            Some(open) => open.inline,
            None => false,
        }
    }

    /// Whether the innermost suite is a block with a statement.
    pub fn ends(&self) -> bool
        ensures { result ≡ is_closable (view_suites self.now) }
    {
        match self.open.last() {
            Some(open) => !open.inline && !self.body.is_empty(),
            None => false,
        }
    }

    /// Whether no suite is open.
    pub fn is_top(&self) -> bool
        ensures { result ≡ is_top (view_suites self.now) }
    {
        self.open.is_empty()
    }
}
