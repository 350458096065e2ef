//! The help of `check-attr`.

pub(crate) const HELP: &str = "\
usage: globtree [OPTION..] check-attr [-z] -a [--] PATH..
       globtree [OPTION..] check-attr [-z] ATTR [--] PATH..
       globtree [OPTION..] check-attr [-z] ATTR.. -- PATH..
       globtree [OPTION..] check-attr [-z] --stdin [-a | ATTR..]

Prints the state of each attribute for each of the paths.

options:
  -a, --all    all attributes that have a state
  -z           a byte 0 ends each path that is read, and each field
  --stdin      read the paths, one a line
  -h, --help   this text (-h: alone)

example:
  $ globtree check-attr text eol -- a.txt
  a.txt: text: set
  a.txt: eol: lf

The status is 0 where each path is answered, 128 after a fault, 129 where the words are wrong, 255
for a name that no attribute can have.
";
