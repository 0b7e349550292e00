//! The commands and their options, by the words that name them.
ghost use Rattle.std.specs.Prelude.{◌≡◌, ◌↔◌, IsTrue};
ghost use Rattle.std.specs.List.{list_any};
ghost use Rattle.cov_words.specs.Options.{command_named, option_named, place_of, is_same, options_of, joins, form_of, has_value};

/// A command.
#[derive(Clone, Copy)]
pub(crate) enum CommandName {
    Arcs,
    Run,
    Combine,
    Report,
    Json,
    Lcov,
    Annotate,
    Erase,
    Script,
    Make,
    Suite,
    Select,
    Mutate,
}

/// An option, however it is spelled.
#[derive(Clone, Copy)]
pub(crate) enum OptionName {
    Branch,
    Append,
    Keep,
    ShowMissing,
    Context,
    Budget,
    Hook,
    DataFile,
    Rcfile,
    FailUnder,
    Output,
}

impl CommandName {
    /// The command that a word names.
    pub(crate) fn named(word: &str) -> Option<CommandName>
        ensures { result ≡ command_named word.now }
    {
        match word {
            "arcs" => Some(CommandName::Arcs),
            "run" => Some(CommandName::Run),
            "combine" => Some(CommandName::Combine),
            "report" => Some(CommandName::Report),
            "json" => Some(CommandName::Json),
            "lcov" => Some(CommandName::Lcov),
            "annotate" => Some(CommandName::Annotate),
            "erase" => Some(CommandName::Erase),
            "script" => Some(CommandName::Script),
            "make" => Some(CommandName::Make),
            "suite" => Some(CommandName::Suite),
            "select" => Some(CommandName::Select),
            "mutate" => Some(CommandName::Mutate),
            _ => None,
        }
    }

    /// Whether the command has this option.
    pub(crate) fn has(self, option: OptionName) -> bool
        ensures { result ≡ list_any (is_same option) (options_of self) }
    {
        match self {
            CommandName::Arcs => matches!(option, OptionName::Budget),
            CommandName::Run => matches!(
                option,
                OptionName::Branch
                    | OptionName::Append
                    | OptionName::Context
                    | OptionName::Budget
                    | OptionName::Hook
                    | OptionName::DataFile
                    | OptionName::Rcfile
            ),
            CommandName::Combine => matches!(
                option,
                OptionName::Append | OptionName::Keep | OptionName::DataFile | OptionName::Rcfile
            ),
            CommandName::Report => matches!(
                option,
                OptionName::ShowMissing
                    | OptionName::FailUnder
                    | OptionName::DataFile
                    | OptionName::Rcfile
            ),
            CommandName::Json | CommandName::Lcov => matches!(
                option,
                OptionName::Output
                    | OptionName::FailUnder
                    | OptionName::DataFile
                    | OptionName::Rcfile
            ),
            CommandName::Annotate => matches!(option, OptionName::DataFile | OptionName::Rcfile),
            CommandName::Erase => matches!(option, OptionName::DataFile | OptionName::Rcfile),
            CommandName::Script => false,
            CommandName::Make => false,
            CommandName::Suite => matches!(
                option,
                OptionName::Branch | OptionName::Budget | OptionName::DataFile | OptionName::Rcfile
            ),
            CommandName::Select => matches!(option, OptionName::Budget),
            CommandName::Mutate => matches!(option, OptionName::Budget),
        }
    }
}

impl OptionName {
    /// The option that a word spells.
    pub(crate) fn named(word: &str) -> Option<OptionName>
        ensures { result ≡ option_named word.now }
    {
        match word {
            "--branch" => Some(OptionName::Branch),
            "-a" => Some(OptionName::Append),
            "--append" => Some(OptionName::Append),
            "--keep" => Some(OptionName::Keep),
            "-m" => Some(OptionName::ShowMissing),
            "--show-missing" => Some(OptionName::ShowMissing),
            "--context" => Some(OptionName::Context),
            "--budget" => Some(OptionName::Budget),
            "--hook" => Some(OptionName::Hook),
            "--data-file" => Some(OptionName::DataFile),
            "--rcfile" => Some(OptionName::Rcfile),
            "--fail-under" => Some(OptionName::FailUnder),
            "-o" => Some(OptionName::Output),
            _ => None,
        }
    }

    pub(crate) fn place(self) -> usize
        ensures { result ≡ place_of self }
    {
        match self {
            OptionName::Branch => 0,
            OptionName::Append => 1,
            OptionName::Keep => 2,
            OptionName::ShowMissing => 3,
            OptionName::Context => 4,
            OptionName::Budget => 5,
            OptionName::Hook => 6,
            OptionName::DataFile => 7,
            OptionName::Rcfile => 8,
            OptionName::FailUnder => 9,
            OptionName::Output => 10,
        }
    }

    pub(crate) fn is_same(self, other: OptionName) -> bool
        ensures { result ≡ is_same self other }
    {
        self.place() == other.place()
    }

    /// Whether a value goes with the option.
    pub(crate) fn has_value(self) -> bool
        ensures { result ≡ has_value (form_of self) }
    {
        !matches!(
            self,
            OptionName::Branch | OptionName::Append | OptionName::Keep | OptionName::ShowMissing
        )
    }

    /// Whether the value may stand after `=` in the same word.
    pub(crate) fn joins(self) -> bool
        ensures { result ≡ joins self }
    {
        self.has_value() && !matches!(self, OptionName::Output)
    }
}
