//! How answers are written.

use git_paths::Quoting;

/// How answers are written: in lines, or in records.
#[derive(Clone, Copy, Debug, PartialEq, Eq)]
pub enum Form {
    /// In lines: a name with a byte that is unusual by this stands in quotes.
    Lines(Quoting),
    /// In records: a NUL stands behind each part, and no name is quoted.
    Records,
}

impl Form {
    ghost use Rattle.std.specs.Prelude.{◌≡◌, if◌then◌else◌};
    ghost use Rattle.tree_answers.specs.declared.form.Form.TheVariants as form;
    ghost use Rattle.tree_answers.specs.Lines.{behind};

    /// Records where a NUL ends each, else lines with names quoted so.
    pub fn ended_by(is_nul: bool, quoting: Quoting) -> Form
        ensures { result ≡ (if is_nul then form.Records else form.Lines quoting) }
    {
        if is_nul {
            Form::Records
        } else {
            Form::Lines(quoting)
        }
    }

    /// The byte that ends each answer, and each record: a line feed, or a NUL.
    pub fn end(self) -> u8
        ensures { result ≡ behind self 10 }
    {
        match self {
            Form::Lines(_) => b'\n',
            Form::Records => 0,
        }
    }
}
