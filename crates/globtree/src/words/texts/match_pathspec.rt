//! The help of `match-pathspec`.

pub(crate) const HELP: &str = "\
usage: globtree match-pathspec [-v] [-z] [--] PATHSPEC..

Reads paths from standard input, one a line, and prints those that the pathspecs match. It needs no
repository: paths and pathspecs are relative to the top, and a folder's path has a slash at its end.

options:
  -v, --verbose  print the pathspec that decides, and a tab, before each path
  -z             a byte 0 ends each path that is read, and each field
  -h, --help     this text (-h: alone)

A pathspec is a path, with all that lies below it, or a pattern. :!x leaves out what x matches. In
:(glob)x wildcards match no slash, in :(icase)x case doesn't matter, in :(literal)x no byte is special.

example:
  $ git diff --name-only main | globtree match-pathspec '*.rs' ':!tests'
  src/main.rs

The status is 0 where a path is matched, 1 where none is, 128 after a fault, 129 where the words are
wrong.
";
