//! The help of `status`.

pub(crate) const HELP: &str = "\
usage: globtree [OPTION..] status [-unormal | -uall | -uno] [--ignored[=MODE]] [-s] [-z]

Prints the lines ?? and !! of git status --porcelain: the untracked files, and with --ignored those
that are ignored. Each is relative to the top of the work tree, or with -s to the current folder.

options:
  -u, --untracked-files[=all|normal|no]  which untracked files, if not as the configuration says
  --ignored[=traditional|matching|no]    ignored files, too
  -s, --short                            paths relative to the current folder, if not with -z
  --porcelain[=v1]                       paths relative to the top, as without -s
  -z, --null                             a byte 0 ends each line, and no name is quoted
  -h, --help                             this text (-h: alone)

-u, -uall: each file. -unormal: a folder without tracked files by its name, if a file lies in it. -uno:
none. Without -u status.showUntrackedFiles says which, or else it is -unormal. --ignored, traditional:
as -u says of the others. matching: an ignored folder by its name. no: none.

example:
  $ globtree status -uall --ignored=matching
  ?? notes.txt
  !! build/

The status is 0 after an answer, 1 where something couldn't be read, 128 after a fault, 129 where the
words are wrong.
";
