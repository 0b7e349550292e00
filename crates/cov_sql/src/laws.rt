//! That data which are saved in a database are read from it again: laws over its tables. The
//! functions do nothing, and each stands for the law that its contract states.
ghost use Rattle.cov_sql.specs.Laws.{SavedAreRead, SavedIsSchema7, SavedIsReady, SavesAreRead};

use sqlite::Alter;

/// A base that holds data as saved holds them as a data file.
pub fn saved_are_read()
    ensures { SavedAreRead }
{}

/// It is a data file of schema 7.
pub fn saved_is_schema_7()
    ensures { SavedIsSchema7 }
{}

/// Data may be saved over it again.
pub fn saved_is_ready()
    ensures { SavedIsReady }
{}

/// Once `write_data` has saved data in a base that was ready for them, the base holds them, and is
/// ready again.
pub fn saves_are_read<S: Alter>()
    ensures { SavesAreRead S.Store }
{}
