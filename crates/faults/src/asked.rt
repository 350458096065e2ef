//! How many patterns a stack of prepared lists asks: those alone that can match by what a path shows.
use crate::compare::same;
use crate::lists::list_of;
use gix_glob::pattern::Case;
use glob_lines::{LabelLines, bases_are_folders};
use glob_lists::{CountedDecision, PreparedStack, RepositoryPath, Rules};
use std::alloc::{AllocError, Global};
use std::process::Abort;
use std::test::Fail;

/// Pattern lines, how many other ones follow, a path, and what the prepared lines answer for it.
type Row<'a> = (&'a str, usize, &'a str, Option<(usize, usize)>, usize);

/// A pattern is asked where the path ends as its literal end does; where it has none, where the path's last part has its literal bytes,
/// side by side as they stand in it.
const ROWS: &[Row<'static>] = &[
    ("a\nb\na\n/c/a\n", 12, "a", Some((0, 2)), 2),
    ("a\nb\na\n/c/a\n", 12, "c/a", Some((0, 3)), 1),
    ("a\nb\na\n/c/a\n", 12, "b", Some((0, 1)), 1),
    ("a\nb\na\n/c/a\n", 12, "x", None, 0),
    ("*.rs\n*.c\nx.rs\n", 12, "y.rs", Some((0, 0)), 1),
    ("*ab*\n*ac*\n*b*\n", 12, "cba", Some((0, 2)), 1),
    ("*ab*\n*ac*\n*d*\n", 12, "cba", None, 0),
    ("*cb*\n*ab*\n*d*\n", 12, "cba", Some((0, 0)), 1),
    ("*c*a*\n*a*c*\n*a?b*\n", 12, "cba", Some((0, 0)), 3),
    ("*c/\n*bc/\nabc\n*xc\n", 12, "yabc", None, 3),
    ("*c\n*bc\nabc\n*xc\n", 12, "abc", Some((0, 2)), 1),
    ("*.b\n*a.b\n*.b\n*a.b/\n", 12, "xa.b", Some((0, 2)), 2),
    (
        "abcdefghi\nxbcdefghi\nbcdefghi\n",
        12,
        "abcdefghi",
        Some((0, 0)),
        3,
    ),
    ("a\nb\nc\nd\ne\nf\ng\nh\n", 0, "a", Some((0, 0)), 1),
    ("a\nb\nc\nd\ne\nf\ng\n", 0, "a", Some((0, 0)), 1),
    (
        "*a\n*b\n*ca\n*da\n*ea\n*fa\n*ga\n*ha\n",
        0,
        "a",
        Some((0, 0)),
        1,
    ),
];

/// The lines of a row, and so many others behind them.
fn lines_of(alloc: Global, text: &str, others: usize) -> Result<Vec<u8>, AllocError> {
    let mut lines = Vec::from_slice(alloc, text.as_bytes())?;
    for _ in 0..others {
        // no path of the rows ends so
        lines.extend_from_slice(b"q\n")?;
    }
    Ok(lines)
}

/// Compares what prepared lists answer for the path of a row.
fn check_path(
    rt: &(impl Abort + AllocGlobal),
    stack: &PreparedStack<'_, LabelLines>,
    path: &str,
    wanted: CountedDecision,
    row: usize,
) -> Result<(), Fail> {
    let named = RepositoryPath::new(path.as_bytes(), false).ok_or("a path")?;
    same(rt, stack.decide_and_count(&named) == wanted, "asked", row);
    let found = stack.matches(rt.alloc(), &named)?;
    same(rt, found.last().copied() == wanted.pair, "matches", row);
    Ok(())
}

#[test]
fn only_what_can_match_is_asked(rt: HostRuntime) -> Result<(), Fail> {
    for (row, (text, others, path, pair, asked)) in ROWS.iter().enumerate() {
        let lines = lines_of(rt.alloc(), text, *others)?;
        let lists = [list_of(rt.alloc(), &lines)?];
        assert!(rt; bases_are_folders(&lists));
        let stack = PreparedStack::new(rt.alloc(), &lists, Rules::by_crate(Case::Sensitive))?;
        let wanted = CountedDecision {
            pair: *pair,
            asked: *asked,
        };
        check_path(&rt, &stack, path, wanted, row)?;
    }
    Ok(())
}

/// The next number of a fixed row of numbers.
fn next(seed: &mut u32) -> usize {
    *seed = seed.wrapping_mul(1_664_525).wrapping_add(1_013_904_223);
    (*seed / 65_536) as usize
}

/// Syllables of names. They have no `n` and no `o`, which the sets of bytes don't tell from a dot and a slash.
const SYLLABLES: [&str; 12] = [
    "ba", "ce", "di", "fu", "ga", "hi", "ju", "ke", "la", "mi", "re", "su",
];

/// Appends so many syllables behind a sign.
fn append_name(
    text: &mut String,
    seed: &mut u32,
    sign: &str,
    count: usize,
) -> Result<(), AllocError> {
    text.push_str(sign)?;
    for _ in 0..count {
        text.push_str(SYLLABLES[next(seed) % 12])?;
    }
    Ok(())
}

/// What a pattern line is: a sign, how many syllables follow it, the same once more, and what ends the line.
type Shape = (&'static str, usize, &'static str, usize, &'static str);

/// A name, an ending of names, each twice as often as the others; a folder, a rooted path, a part of a name, and a name that is kept.
const SHAPES: [Shape; 8] = [
    ("", 3, "", 0, "\n"),
    ("", 3, "", 0, "\n"),
    ("*.", 2, "", 0, "\n"),
    ("*.", 2, "", 0, "\n"),
    ("", 3, "", 0, "/\n"),
    ("/", 3, "/", 3, "\n"),
    ("*", 3, "", 0, "*\n"),
    ("!", 3, ".", 1, "\n"),
];

/// Appends a pattern line.
fn append_pattern(text: &mut String, seed: &mut u32) -> Result<(), AllocError> {
    let (sign, count, second, more, end) = SHAPES[next(seed) % 8];
    append_name(text, seed, sign, count)?;
    append_name(text, seed, second, more)?;
    text.push_str(end)
}

/// A thousand pattern lines.
fn thousand_lines(alloc: Global, seed: &mut u32) -> Result<String, AllocError> {
    let mut lines = String::new(alloc);
    for _ in 0..1_000 {
        append_pattern(&mut lines, seed)?;
    }
    Ok(lines)
}

/// A path of a folder and a name with an ending.
fn path_of(alloc: Global, seed: &mut u32) -> Result<String, AllocError> {
    let mut path = String::new(alloc);
    append_name(&mut path, seed, "", 3)?;
    append_name(&mut path, seed, "/", 3)?;
    append_name(&mut path, seed, ".", 2)?;
    Ok(path)
}

/// How many patterns are asked for 300 paths, and about how many of these none decides.
fn count_asked(
    alloc: Global,
    stack: &PreparedStack<'_, LabelLines>,
    seed: &mut u32,
) -> Result<(usize, usize), Fail> {
    let (mut asked, mut undecided): (usize, usize) = (0, 0);
    for _ in 0..300 {
        let path = path_of(alloc, seed)?;
        let named = RepositoryPath::new(path.as_bytes(), false).ok_or("a path")?;
        let counted = stack.decide_and_count(&named);
        asked = asked.saturating_add(counted.asked);
        undecided = undecided.saturating_add(usize::from(counted.pair.is_none()));
    }
    Ok((asked, undecided))
}

#[test]
fn of_a_thousand_patterns_few_are_asked(rt: HostRuntime) -> Result<(), Fail> {
    let mut seed = 7;
    let lines = thousand_lines(rt.alloc(), &mut seed)?;
    let lists = [list_of(rt.alloc(), lines.as_bytes())?];
    assert!(rt; bases_are_folders(&lists));
    let stack = PreparedStack::new(rt.alloc(), &lists, Rules::by_crate(Case::Sensitive))?;
    let (asked, undecided) = count_asked(rt.alloc(), &stack, &mut seed)?;
    // A path shows its own ending, one of 144, which some two patterns ask for, and few that ask for a part of its name. In
    // turn each of the 1,000 would be asked where none decides.
    assert!(rt; asked <= 1_500 && undecided >= 30);
    Ok(())
}
