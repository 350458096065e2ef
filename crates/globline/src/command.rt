//! What the words of the command line ask for.
ghost use Rattle.std.specs.Prelude.{◌≡◌, ℕ, List, Option, MatchOption, map, string_bytes};
ghost use Rattle.std.specs.List.{list_all};
ghost use Rattle.std.specs.Option.{option_copied};
ghost use Rattle.gix_glob.specs.declared.pattern.Case.{Case};
ghost use Rattle.gix_glob.specs.declared.wildmatch.Mode.{Mode};
ghost use Rattle.gix_glob.specs.Paths.{has_file_part};
ghost use Rattle.globline.specs.Words.{AreWrong, Ask, AskIgnore, AskList, AskWild, NamesCase, NamesMode, NamesRoot, are_files};

use bitflags::Flags;
use gix_glob::pattern::Case;
use gix_glob::search::has_file_part;
use gix_glob::wildmatch::Mode;

/// What the words ask for.
pub(crate) enum Command<'a> {
    /// Which lines match a pattern.
    Wild {
        mode: Mode,
        pattern: &'a [u8],
    },
    /// Which lines of a file match each path.
    List {
        case: Case,
        file: &'a str,
        root: Option<&'a str>,
    },
    /// Which line of which ignore file decides about each path.
    Ignore {
        case: Case,
        root: Option<&'a str>,
        files: &'a [String],
    },
}

/// What the words ask for, or nothing where they are wrong.
pub(crate) fn command_of(words: &[String]) -> Option<Command<'_>>
    ensures { MatchOption result (AreWrong (map string_bytes words.now)) (Ask (map string_bytes words.now)) }
{
    if let Some(command) = wild_of(words) {
        return Some(command);
    }
    if let Some(command) = list_of(words) {
        return Some(command);
    }
    ignore_of(words)
}

/// The command of the words `wild MODE PATTERN`.
fn wild_of(words: &[String]) -> Option<Command<'_>>
    ensures { MatchOption result
        ((mode : Mode) (pattern : List ℕ) → ¬ AskWild (map string_bytes words.now) mode pattern)
        (Ask (map string_bytes words.now)) }
{
    let [command, mode, pattern] = words else {
        return None;
    };
    if command.as_str() != "wild" {
        return None;
    }
    let mode = mode_of(mode.as_str())?;
    let pattern = pattern.as_bytes();
    Some(Command::Wild { mode, pattern })
}

/// The command of the words `list CASE FILE ROOT`.
fn list_of(words: &[String]) -> Option<Command<'_>>
    ensures { MatchOption result
        ((case : Case) (file : List ℕ) (root : Option (List ℕ)) → ¬ AskList (map string_bytes words.now) case file root)
        (Ask (map string_bytes words.now)) }
{
    let [command, case, file, root] = words else {
        return None;
    };
    let file = file.as_str();
    if command.as_str() != "list" || !has_file_part(file) {
        return None;
    }
    let case = case_of(case.as_str())?;
    let root = root_of(root.as_str());
    Some(Command::List { case, file, root })
}

/// The command of the words `ignore CASE ROOT FILE..`.
fn ignore_of(words: &[String]) -> Option<Command<'_>>
    ensures { MatchOption result
        ((case : Case) (root : Option (List ℕ)) (files : List (List ℕ)) → ¬ AskIgnore (map string_bytes words.now) case root files)
        (Ask (map string_bytes words.now)) }
{
    let [command, case, root, files @ ..] = words else {
        return None;
    };
    if command.as_str() != "ignore" || !are_files(files) {
        return None;
    }
    let case = case_of(case.as_str())?;
    let root = root_of(root.as_str());
    Some(Command::Ignore { case, root, files })
}

/// Whether there are files, and each of them can name one.
fn are_files(files: &[String]) -> bool
    ensures { result ≡ are_files (map string_bytes files.now) }
{
    !files.is_empty() && each_has_a_file_part(files)
}

/// Whether each of the files can name one.
fn each_has_a_file_part(files: &[String]) -> bool
    ensures { result ≡ list_all (λ file. has_file_part (string_bytes file)) files.now }
{
    files.iter().all(|file| has_file_part(file.as_str()))
}

/// The match mode that a word names.
fn mode_of(word: &str) -> Option<Mode>
    ensures { MatchOption result ((mode : Mode) → ¬ NamesMode word.now mode) (NamesMode word.now) }
{
    match word {
        "plain" => Some(Mode::empty()),
        "fold" => Some(Mode::IGNORE_CASE),
        "path" => Some(Mode::NO_MATCH_SLASH_LITERAL),
        "path-fold" => Some(Mode::NO_MATCH_SLASH_LITERAL.union(Mode::IGNORE_CASE)),
        _ => None,
    }
}

/// Whether case counts, as a word says.
fn case_of(word: &str) -> Option<Case>
    ensures { MatchOption result ((case : Case) → ¬ NamesCase word.now case) (NamesCase word.now) }
{
    match word {
        "sensitive" => Some(Case::Sensitive),
        "fold" => Some(Case::Fold),
        _ => None,
    }
}

/// The root that a word names; a dash says that there is none.
fn root_of(word: &str) -> Option<&str>
    ensures { NamesRoot word.now (option_copied result) }
{
    if word == "-" { None } else { Some(word) }
}
