//! The ways by which a part is left.
ghost use Rattle.std.specs.Prelude.{◌≡◌, ◌||◌, ◌&&◌};
ghost use Rattle.cov_predict.specs.Leaving.{plain_way};
ghost use Rattle.cov_predict.specs.Steps.{IsNoWay, IsOwn, IsRaise, MayRaise, Unites, GoesOnward, PassesRest, LeavesLoop, LeavesTry, GoesThrough};

/// How a mark is left, if not by an exception.
#[derive(Clone, Copy)]
pub(crate) enum Way {
    Onward,
    Breaking,
    Continuing,
    Returning,
}

/// Whether something leads onward, and out by `break`, `continue`, `return` and an exception.
#[derive(Clone, Copy)]
pub(crate) struct Ways {
    pub(crate) onward: bool,
    pub(crate) breaking: bool,
    pub(crate) continuing: bool,
    pub(crate) returning: bool,
    pub(crate) raising: bool,
}

impl Ways {
    pub(crate) fn none() -> Ways
        ensures { IsNoWay result }
    {
        Ways {
            onward: false,
            breaking: false,
            continuing: false,
            returning: false,
            raising: false,
        }
    }

    /// Of a header, or of a `raise`.
    pub(crate) fn raising(any: bool) -> Ways
        ensures { MayRaise any result }
    {
        Ways {
            raising: any,
            ..Ways::none()
        }
    }

    pub(crate) fn onward(marks: bool) -> Ways
        ensures { GoesOnward marks result }
    {
        Ways {
            onward: marks,
            ..Ways::none()
        }
    }

    /// Of a mark that is left by one way, or by an exception.
    pub(crate) fn own(any: bool, way: Way) -> Ways
        ensures { IsOwn any (plain_way way) result }
    {
        let raising = Ways::raising(any);
        match way {
            Way::Onward => Ways {
                onward: true,
                ..raising
            },
            Way::Breaking => Ways {
                breaking: true,
                ..raising
            },
            Way::Continuing => Ways {
                continuing: true,
                ..raising
            },
            Way::Returning => Ways {
                returning: true,
                ..raising
            },
        }
    }

    /// Of a `raise`, whatever else may raise.
    pub(crate) fn of_raise() -> Ways
        ensures { IsRaise result }
    {
        Ways::raising(true)
    }

    /// By which either of two parts is left.
    pub(crate) fn or(self, other: Ways) -> Ways
        ensures { Unites self other result }
    {
        Ways {
            onward: self.onward || other.onward,
            breaking: self.breaking || other.breaking,
            continuing: self.continuing || other.continuing,
            returning: self.returning || other.returning,
            raising: self.raising || other.raising,
        }
    }

    /// In front of what follows in a row, which may be empty.
    pub(crate) fn before(self, empty: bool) -> Ways
        ensures { PassesRest empty self result }
    {
        Ways {
            onward: empty && self.onward,
            ..self
        }
    }

    /// Out of a loop, of its suite's ways.
    pub(crate) fn past_loop(self) -> Ways
        ensures { LeavesLoop self result }
    {
        Ways {
            onward: self.breaking,
            breaking: false,
            continuing: false,
            ..self
        }
    }

    /// Out of a `try` suite, which may be empty: whether clauses follow it, and no mark of an
    /// `else`.
    pub(crate) fn past_try(self, empty: bool, tried: bool, passed: bool) -> Ways
        ensures { LeavesTry empty tried passed self result }
    {
        Ways {
            onward: passed && (self.onward || empty),
            raising: !tried && self.raising,
            ..self
        }
    }

    /// Through a `finally` suite, which may be empty, of the ways by which it was entered and is
    /// left.
    pub(crate) fn through(self, empty: bool, left: Ways) -> Ways
        ensures { GoesThrough empty self left result }
    {
        let ends = either(left.onward, empty);
        Ways {
            onward: passes(self.onward, ends, false),
            breaking: passes(self.breaking, ends, left.breaking),
            continuing: passes(self.continuing, ends, left.continuing),
            returning: passes(self.returning, ends, left.returning),
            raising: passes(self.raising, ends, left.raising),
        }
    }
}

pub(crate) fn either(one: bool, other: bool) -> bool
    ensures { result ≡ (one || other) }
{
    one || other
}

/// Whether a way came and the suite ends, or the suite is left by that way.
fn passes(came: bool, ends: bool, left: bool) -> bool
    ensures { result ≡ ((came && ends) || left) }
{
    either(came && ends, left)
}

pub(crate) fn both(one: bool, other: bool) -> bool
    ensures { result ≡ (one && other) }
{
    one && other
}
