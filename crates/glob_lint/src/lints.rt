//! The names of findings, and how grave each is.

/// How grave a finding is.
#[derive(Clone, Copy, PartialEq, Eq, Debug)]
pub enum Level {
    /// The line can't do what it says.
    Error,
    /// The line may go, or what it says doesn't hold of what is tracked.
    Warning,
    /// A guess at what was meant, or what is seldom a mistake.
    Note,
}

impl Level {
    /// Its word.
    pub fn as_str(self) -> &'static str {
        match self {
            Level::Error => "error",
            Level::Warning => "warning",
            Level::Note => "note",
        }
    }
}

/// What is found of a line, or of a file.
#[derive(Clone, Copy, PartialEq, Eq, Debug)]
pub enum Lint {
    /// No path matches the line.
    MatchesNothing,
    /// All that it matches lies below an ignored folder.
    BelowIgnored,
    /// A later line of the other sign matches all that it does.
    Overruled,
    /// The file begins as UTF-16.
    Utf16,
    /// Another line matches the same.
    Repeated,
    /// Another line matches all that it does.
    Covered,
    /// It matches tracked files, which stay tracked.
    Tracked,
    /// The file isn't one that Git reads.
    NotRead,
    /// A comment stands behind a pattern.
    CommentBehind,
    /// A tab stands at the end.
    TabAtEnd,
    /// A blank stands in front.
    BlankInFront,
    /// It stands in quotes.
    Quotes,
    /// It has braces.
    Braces,
    /// It has a backslash where a slash may be meant.
    Backslash,
    /// It begins as a regular expression.
    Regex,
    /// It ignores folders, too, in which other lines were to take something back.
    FoldersToo,
    /// It has `!` in front, and no line before it ignores what it matches.
    NothingToTakeBack,
}

impl Lint {
    /// All of them.
    const ALL: [Lint; 17] = [
        Lint::MatchesNothing,
        Lint::BelowIgnored,
        Lint::Overruled,
        Lint::Utf16,
        Lint::Repeated,
        Lint::Covered,
        Lint::Tracked,
        Lint::NotRead,
        Lint::CommentBehind,
        Lint::TabAtEnd,
        Lint::BlankInFront,
        Lint::Quotes,
        Lint::Braces,
        Lint::Backslash,
        Lint::Regex,
        Lint::FoldersToo,
        Lint::NothingToTakeBack,
    ];

    /// The one of a name; `None` where there is none.
    pub fn of(name: &[u8]) -> Option<Lint> {
        'lints: for lint in Lint::ALL {
            if lint.as_str().as_bytes() == name {
                return Some(lint);
            }
        }
        None
    }

    /// Its name.
    pub fn as_str(self) -> &'static str {
        match self {
            Lint::MatchesNothing => "matches-nothing",
            Lint::BelowIgnored => "below-ignored",
            Lint::Overruled => "overruled",
            Lint::Utf16 => "utf-16",
            Lint::Repeated => "repeated",
            Lint::Covered => "covered",
            Lint::Tracked => "tracked",
            Lint::NotRead => "not-read",
            Lint::CommentBehind => "comment-behind",
            Lint::TabAtEnd => "tab-at-end",
            Lint::BlankInFront => "blank-in-front",
            Lint::Quotes => "quotes",
            Lint::Braces => "braces",
            Lint::Backslash => "backslash",
            Lint::Regex => "regex",
            Lint::FoldersToo => "folders-too",
            Lint::NothingToTakeBack => "nothing-to-take-back",
        }
    }
}
