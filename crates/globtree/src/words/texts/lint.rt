//! The help of `lint`.

pub(crate) const HELP: &str = "\
usage: globtree [OPTION..] lint [--all] [--allow NAME].. [--json] [DIR]
       globtree [OPTION..] lint [--all] [--allow NAME].. --fixed FILE [DIR]

Finds lines of .gitignore files that do nothing, or less than they seem to. It reads the files of the
work tree that DIR lies in, or else the current folder, and prints what is found there and below.

options:
  --all         also lines that a line of another file covers, and ! lines that take nothing back
  --allow NAME  print no finding of this name
  --fixed FILE  print FILE without the lines that may go; no file is changed
  --json        print each finding as an object, one a line
  -h, --help    this text (-h: alone)

An error or a warning is proved: the line can't do what it says, or it may go. A note is a guess. The
comment # globtree: allow NAME in the line before allows a finding.

example:
  $ globtree lint
  .gitignore:2:1: warning: another line matches all that it does [covered]
      src/*.o
      ^^^^^^^
    because of .gitignore:1: *.o

The status is 0 where nothing is found and with --fixed, 1 where something is, 128 after a fault, 129
where the words are wrong.
";
