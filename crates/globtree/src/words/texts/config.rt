//! The help of `config`.

pub(crate) const HELP: &str = "\
usage: globtree [OPTION..] config [-z] [--show-origin] [--get | --get-all] KEY
       globtree [OPTION..] config [-z] [--show-origin] --list

Prints what was read of Git's configuration.

options:
  -l, --list     all keys, with their values
  --get          the last value of KEY, as without it
  --get-all      all values of KEY, and not the last one alone
  --show-origin  print from where each was read
  -z             a byte 0 ends each, and a line feed each key
  -h, --help     this text (-h: alone)

example:
  $ globtree config core.ignorecase
  true

The status is 0 after an answer, 1 where KEY has no value, 128 after a fault, 129 where the words
are wrong.
";
