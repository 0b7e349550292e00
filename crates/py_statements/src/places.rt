// Places in the text of a module, with what was read in front of them.

ghost use Rattle.std.specs.Prelude.{◌≡◌, IfOk};
ghost use Rattle.py_statements.specs.Levels.{begins_at, level};
ghost use Rattle.py_statements.specs.Machine.{plain_step};
ghost use Rattle.py_statements.specs.Listed.{listed, with_name};
ghost use Rattle.py_statements.specs.ViewStates.{view_listed, view_place, view_state, IsDone};
ghost use Rattle.py_statements.specs.ViewStates.{Rests, ActsAt, Steps};
ghost use Rattle.py_statements.specs.ViewSuiteOf.{boxed_kind};

use crate::after_expression::after_param;
use crate::in_statement::{
    after_except, after_leaving, after_listed, after_module, after_semicolon, at_block, at_bound,
    at_clause_name, at_function, at_match_block, at_match_line, at_module, at_name, at_param,
    at_params, at_suite, turn, turned,
};
use crate::kinds::boxed;
use crate::names::after_name;
use crate::purposes::Continuation;
use crate::statement_end::{end_header, end_simple};
use crate::statement_start::line;
use crate::steps::{after, choose, put};
use crate::suite_of::{PartialMatch, PartialTry, Signature, SuiteOf};
use crate::suite_stack::{Span, SuiteStack};
use py_syntax::{Alias, Expr, Stmt, StmtKind};
use py_text::{NoMemory, Text};
use py_token::Token;
use std::alloc::Global;

/// What names are listed for.
pub enum Listed {
    Globals(Vec<Text>),
    Imports(Vec<Alias>),
    Froms(Text, Vec<Alias>),
}

impl Drop for Listed {
    fn drop(self) {
        match self {
            Listed::Globals(names) => drop(names),
            Listed::Imports(names) => drop(names),
            Listed::Froms(source, names) => {
                drop(source);
                drop(names)
            }
        }
    }
}

/// A place inside a statement or a header.
pub enum Place {
    /// An expression begins.
    Wanted(Continuation),
    /// The pattern of a `case` begins.
    PatternWanted(Box<PartialMatch>),
    /// After a simple statement that takes no more.
    Simple(Box<StmtKind>),
    /// After its semicolon.
    Semicolon(Box<StmtKind>),
    /// After `return` or `raise`.
    Leaving(bool),
    NameWanted(Listed),
    NameRead(Listed, Text),
    /// After the `as` of a listed name.
    BoundWanted(Listed, Text),
    BoundRead(Listed),
    /// After `from`.
    ModuleWanted,
    ImportWanted(Text),
    /// After `def`.
    FunctionWanted,
    ParamsWanted(Text),
    /// Where a parameter may come.
    ParamWanted(Signature),
    ParamRead(Signature, Text),
    Except(PartialTry),
    /// After the `as` of a clause.
    ClauseBound(PartialTry, Box<Expr>),
    ColonWanted(Box<SuiteOf>),
    SuiteWanted(Box<SuiteOf>),
    IndentWanted(Box<SuiteOf>),
    /// After the colon of a `match` header.
    MatchLine(Box<Expr>, u32),
    MatchBlock(Box<Expr>, u32),
}

impl Drop for Place {
    fn drop(self) {
        match self {
            Place::Wanted(purpose) => drop(purpose),
            Place::PatternWanted(partial_match) => drop(partial_match),
            Place::Simple(kind) => drop(kind),
            Place::Semicolon(kind) => drop(kind),
            Place::Leaving(_) => (),
            Place::NameWanted(names) => drop(names),
            Place::NameRead(names, name) => {
                drop(names);
                drop(name)
            }
            Place::BoundWanted(names, name) => {
                drop(names);
                drop(name)
            }
            Place::BoundRead(names) => drop(names),
            Place::ModuleWanted => (),
            Place::ImportWanted(name) => drop(name),
            Place::FunctionWanted => (),
            Place::ParamsWanted(name) => drop(name),
            Place::ParamWanted(signature) => drop(signature),
            Place::ParamRead(signature, param) => {
                drop(signature);
                drop(param)
            }
            Place::Except(partial_try) => drop(partial_try),
            Place::ClauseBound(partial_try, kind) => {
                drop(partial_try);
                drop(kind)
            }
            Place::ColonWanted(suite_of) => drop(suite_of),
            Place::SuiteWanted(suite_of) => drop(suite_of),
            Place::IndentWanted(suite_of) => drop(suite_of),
            Place::MatchLine(subject, _) => drop(subject),
            Place::MatchBlock(subject, _) => drop(subject),
        }
    }
}

pub enum State {
    /// A statement begins on a new line, or its block ends.
    Line(SuiteStack),
    At(Place, Span, SuiteStack),
    /// After a suite of a statement that may go on, which has these first and last lines.
    After(Box<StmtKind>, u32, u32, SuiteStack),
    /// Between the cases of a `match`, which has this first line.
    Choosing(Box<PartialMatch>, u32, SuiteStack),
    /// After the end of the module.
    Over(Vec<Stmt>),
}

impl Drop for State {
    fn drop(self) {
        match self {
            State::Line(suites) => drop(suites),
            State::At(place, _, suites) => {
                drop(place);
                drop(suites)
            }
            State::After(kind, _, _, suites) => {
                drop(kind);
                drop(suites)
            }
            State::Choosing(partial_match, _, suites) => {
                drop(partial_match);
                drop(suites)
            }
            State::Over(body) => drop(body),
        }
    }
}

/// What a token does.
pub enum Turn {
    Next(State),
    Stuck,
    /// An expression begins with the token, which isn't taken.
    Reads(Continuation, Span, SuiteStack),
    /// A pattern begins with it.
    Matches(Box<PartialMatch>, Span, SuiteStack),
}

impl Listed {
    /// The statement with these names.
    pub fn listed(self, alloc: Global) -> Result<Box<StmtKind>, NoMemory>
        ensures { IfOk result (λ k. boxed_kind k ≡ listed (view_listed self)) }
    {
        match self {
            Listed::Globals(names) => boxed(alloc, StmtKind::Global(names)),
            Listed::Imports(names) => boxed(alloc, StmtKind::Import(names)),
            Listed::Froms(source, names) => boxed(alloc, StmtKind::From(source, names)),
        }
    }

    /// A name more, with what it is bound to where `as` says so.
    pub fn with_name(self, name: Text, bound: Option<Text>) -> Result<Listed, NoMemory>
        ensures { IfOk result (λ l. view_listed l ≡ with_name (view_listed self) name bound) }
    {
        match self {
            Listed::Globals(names) => {
                drop(bound);
                let mut names = names;
                names.push(name)?;
                Ok(Listed::Globals(names))
            }
            Listed::Imports(names) => {
                let mut names = names;
                names.push(Alias { name, bound })?;
                Ok(Listed::Imports(names))
            }
            Listed::Froms(source, names) => {
                let mut names = names;
                names.push(Alias { name, bound })?;
                Ok(Listed::Froms(source, names))
            }
        }
    }
}

impl Place {
    /// A token inside a statement or a header.
    pub fn act(
        self,
        alloc: Global,
        span: Span,
        suites: SuiteStack,
        token: &Token,
    ) -> Result<Turn, NoMemory>
        ensures { ActsAt token.now (view_place self) span suites result }
    {
        match self {
            Place::Wanted(purpose) => Ok(Turn::Reads(purpose, span.onward(token.last), suites)),
            Place::PatternWanted(partial_match) => Ok(Turn::Matches(partial_match, span, suites)),
            Place::Simple(kind) => turned(end_simple(alloc, kind, span, suites, token)),
            Place::Semicolon(kind) => after_semicolon(alloc, kind, span, suites, token),
            Place::Leaving(raises) => after_leaving(alloc, raises, span, suites, token),
            Place::NameWanted(names) => at_name(names, span, suites, token),
            Place::NameRead(names, name) => {
                turned(after_listed(alloc, names, name, span, suites, token))
            }
            Place::BoundWanted(names, name) => at_bound(names, name, span, suites, token),
            Place::BoundRead(names) => turned(after_name(alloc, names, span, suites, token)),
            Place::ModuleWanted => at_module(span, suites, token),
            Place::ImportWanted(name) => Ok(after_module(alloc, name, span, suites, token)),
            Place::FunctionWanted => at_function(span, suites, token),
            Place::ParamsWanted(name) => Ok(at_params(alloc, name, span, suites, token)),
            Place::ParamWanted(signature) => at_param(alloc, signature, span, suites, token),
            Place::ParamRead(signature, param) => {
                turned(after_param(alloc, signature, param, span, suites, token))
            }
            Place::Except(partial_try) => after_except(alloc, partial_try, span, suites, token),
            Place::ClauseBound(partial_try, kind) => {
                at_clause_name(alloc, partial_try, kind, span, suites, token)
            }
            Place::ColonWanted(suite_of) => Ok(turn(end_header(suite_of, span, suites, token))),
            Place::SuiteWanted(suite_of) => at_suite(alloc, suite_of, span, suites, token),
            Place::IndentWanted(suite_of) => {
                turned(at_block(alloc, suite_of, span, suites, token))
            }
            Place::MatchLine(subject, last) => {
                Ok(at_match_line(subject, last, span, suites, token))
            }
            Place::MatchBlock(subject, last) => {
                at_match_block(alloc, subject, last, span, suites, token)
            }
        }
    }

    /// Whether a compound statement has just begun.
    fn begins(&self) -> bool
        ensures { result ≡ begins_at (view_place self.now) }
    {
        match self {
            Place::Wanted(purpose) => purpose.begins(),
            Place::PatternWanted(_) => false,
            Place::Simple(_) => false,
            Place::Semicolon(_) => false,
            Place::Leaving(_) => false,
            Place::NameWanted(_) => false,
            Place::NameRead(_, _) => false,
            Place::BoundWanted(_, _) => false,
            Place::BoundRead(_) => false,
            Place::ModuleWanted => false,
            Place::ImportWanted(_) => false,
            Place::FunctionWanted => true,
            Place::ParamsWanted(_) => false,
            Place::ParamWanted(_) => false,
            Place::ParamRead(_, _) => false,
            Place::Except(_) => false,
            Place::ClauseBound(_, _) => false,
            Place::ColonWanted(suite_of) => suite_of.begins(),
            Place::SuiteWanted(_) => false,
            Place::IndentWanted(_) => false,
            Place::MatchLine(_, _) => false,
            Place::MatchBlock(_, _) => false,
        }
    }
}

impl State {
    /// A token at which no header of a `match` begins.
    pub fn plain_step(self, alloc: Global, token: &Token) -> Result<Turn, NoMemory>
        ensures { Steps token.now (plain_step (view_state self)) result }
    {
        match self {
            State::Line(suites) => line(alloc, suites, token),
            State::At(place, span, suites) => place.act(alloc, span, suites, token),
            State::After(kind, first, last, suites) => {
                after(alloc, kind, first, last, suites, token)
            }
            State::Choosing(partial_match, first, suites) => {
                turned(choose(alloc, partial_match, first, suites, token))
            }
            State::Over(body) => {
                drop(body);
                Ok(Turn::Stuck)
            }
        }
    }

    /// The open suites, where a statement may begin on a new line.
    pub fn at_line(self) -> Result<Option<SuiteStack>, NoMemory>
        ensures { Rests (view_state self) result }
    {
        match self {
            State::Line(suites) => Ok(Some(suites)),
            State::At(place, _, suites) => {
                drop(place);
                drop(suites);
                Ok(None)
            }
            State::After(kind, first, last, suites) => put(kind, first, last, suites),
            State::Choosing(partial_match, _, suites) => {
                drop(partial_match);
                drop(suites);
                Ok(None)
            }
            State::Over(body) => {
                drop(body);
                Ok(None)
            }
        }
    }

    /// The statements of the module, where its end was read.
    pub fn body(self) -> Option<Vec<Stmt>>
        ensures { IsDone (view_state self) result }
    {
        match self {
            State::Line(suites) => {
                drop(suites);
                None
            }
            State::At(place, _, suites) => {
                drop(place);
                drop(suites);
                None
            }
            State::After(kind, _, _, suites) => {
                drop(kind);
                drop(suites);
                None
            }
            State::Choosing(partial_match, _, suites) => {
                drop(partial_match);
                drop(suites);
                None
            }
            State::Over(body) => Some(body),
        }
    }

    /// How many suites are open, with the one that a compound statement opens where it has just
    /// begun.
    pub fn level(&self) -> usize
        ensures { result ≡ level (view_state self.now) }
    {
        match self {
            State::Line(_) => 0,
            State::At(place, _, suites) => {
                if place.begins() {
                    suites.open.len() + 1
                } else {
                    0
                }
            }
            State::After(_, _, _, _) => 0,
            State::Choosing(_, _, _) => 0,
            State::Over(_) => 0,
        }
    }
}
