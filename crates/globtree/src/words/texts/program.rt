//! The program's own help.

pub(crate) const HELP: &str = "\
usage: globtree [OPTION..] COMMAND [WORD..]

Answers from the files of a work tree what Git answers: which paths are ignored and by which line,
which files aren't, which attributes paths have.

commands:
  check-ignore       which paths are ignored; with -v, by which line of which file
  check-attr         which states attributes have for paths
  explain            why a path is ignored or not, and what to write
  files              the files that aren't ignored, or are tracked
  lint               which lines of .gitignore files do nothing, and why
  status             which files are untracked, and which are ignored
  match-pathspec     which of the paths that are read pathspecs match
  config             what was read of Git's configuration, and from where

options, before the command:
  -C DIR               go to DIR first
  -c KEY=VALUE         a value of the configuration
  --git-dir DIR        the git folder; else it is looked for from the current folder upward
  --work-tree DIR      the top of the work tree of that repository
  --top DIR            the top of the work tree, without a repository or configuration
  --excludes FILE      a file of excludes, in place of core.excludesFile
  --ignore-case        the case of letters doesn't matter in patterns
  --system FILE        the system's attribute file; else it is /etc/gitattributes
  --attributes FILE    the user's attribute file, in place of core.attributesFile
  --literal-pathspecs  files takes pathspecs as they stand: no head, and no byte is special
  --glob-pathspecs     in pathspecs, wildcards match no slash
  --noglob-pathspecs   in pathspecs, no byte is special
  --icase-pathspecs    in pathspecs, the case of letters doesn't matter
  -P, --no-pager       without effect
  --no-optional-locks  without effect
  -h, --help           this text; behind a command, that of the command
  --version            the version

example:
  $ globtree -C src check-ignore a.o main.c
  a.o

The status is 0 or 1 after an answer, 128 after a fault, 129 where the words are wrong.
";
