//! The help of `check-ignore`.

pub(crate) const HELP: &str = "\
usage: globtree [OPTION..] check-ignore [-v] [-n] [-z] [--no-index] PATH..
       globtree [OPTION..] check-ignore -q [--no-index] PATH
       globtree [OPTION..] check-ignore [-v] [-n] [-z] [--no-index] --stdin

Prints those of the paths that are ignored.

options:
  -v, --verbose       print file, line and pattern with each path about which a line decides
  -n, --non-matching  with -v: print the other paths, too
  -q, --quiet         print nothing; the status answers for one path
  -z                  with --stdin: a byte 0 ends each path that is read, and each field
  --stdin             read the paths, one a line
  --no-index          a tracked path may be ignored like any other
  -h, --help          this text (-h: alone)

example:
  $ globtree check-ignore a.o main.c
  a.o

The status is 0 where a path is ignored (with -v, where a line decides about one), 1 where none is,
128 after a fault, 129 where the words are wrong.
";
