//! The commands by their names, each with its help.

use crate::words::texts;

/// The names of the commands.
pub(crate) const COMMANDS: [&str; 8] = [
    "check-ignore",
    "check-attr",
    "config",
    "explain",
    "files",
    "lint",
    "match-pathspec",
    "status",
];

/// A command, by its name.
#[derive(Clone, Copy, Debug)]
pub(crate) enum CommandName {
    /// `check-ignore`
    CheckIgnore,
    /// `check-attr`
    CheckAttr,
    /// `config`
    Config,
    /// `explain`
    Explain,
    /// `files`
    Files,
    /// `lint`
    Lint,
    /// `match-pathspec`
    MatchPathspec,
    /// `status`
    Status,
}

impl CommandName {
    /// The command of this name; `None` where there is none.
    pub(crate) fn of(word: &str) -> Option<CommandName> {
        match word {
            "check-ignore" => Some(CommandName::CheckIgnore),
            "check-attr" => Some(CommandName::CheckAttr),
            "config" => Some(CommandName::Config),
            "explain" => Some(CommandName::Explain),
            "files" => Some(CommandName::Files),
            "lint" => Some(CommandName::Lint),
            "match-pathspec" => Some(CommandName::MatchPathspec),
            "status" => Some(CommandName::Status),
            _ => None,
        }
    }

    /// Its name.
    pub(crate) fn as_str(self) -> &'static str {
        match self {
            CommandName::CheckIgnore => "check-ignore",
            CommandName::CheckAttr => "check-attr",
            CommandName::Config => "config",
            CommandName::Explain => "explain",
            CommandName::Files => "files",
            CommandName::Lint => "lint",
            CommandName::MatchPathspec => "match-pathspec",
            CommandName::Status => "status",
        }
    }

    /// Whether its first operand ends its options, as in Git, so that all words behind it are operands.
    pub(crate) fn ends_options_at_operand(self) -> bool {
        matches!(self, CommandName::Config)
    }

    /// How it is used: its words, each of its options in a line, an example, its statuses.
    pub(crate) fn help(self) -> &'static str {
        match self {
            CommandName::CheckIgnore => texts::check_ignore::HELP,
            CommandName::CheckAttr => texts::check_attr::HELP,
            CommandName::Config => texts::config::HELP,
            CommandName::Explain => texts::explain::HELP,
            CommandName::Files => texts::files::HELP,
            CommandName::Lint => texts::lint::HELP,
            CommandName::MatchPathspec => texts::match_pathspec::HELP,
            CommandName::Status => texts::status::HELP,
        }
    }
}
