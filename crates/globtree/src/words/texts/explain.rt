//! The help of `explain`.

pub(crate) const HELP: &str = "\
usage: globtree [OPTION..] explain [--no-index] PATH..
       globtree [OPTION..] explain [-z] [--no-index] --stdin

Says of each path why it is ignored, or why not, and below it which line to change or to add. What it
tells to try was tried: the path is then ignored, or isn't any more.

options:
  -z                  with --stdin: a byte 0 ends each path that is read, and each line
  --stdin             read the paths, one a line
  --no-index          a tracked path may be ignored like any other
  -h, --help          this text (-h: alone)

example:
  $ globtree explain lib/docs/a.pdf
  lib/docs/a.pdf: not ignored; nearly by .gitignore:1: /docs/*.pdf
    a slash ties it to the folder of its file; try **/docs/*.pdf

The status is 0 after an answer, 128 after a fault, 129 where the words are wrong.
";
