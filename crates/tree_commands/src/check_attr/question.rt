//! What is asked of each path.
ghost use Rattle.std.specs.Prelude.{◌≡◌};
ghost use Rattle.tree_commands.specs.Private.AttributeWays.{asked_of, files_in};

use git_paths::Standpoint;
use gix_glob::pattern::Case;
use std::marker::{Brand, Model};
use tree_answers::Form;

/// The bytes of the attribute files that count for each path; none of a file that isn't there.
#[derive(Clone, Copy)]
pub struct OuterFiles<'a> {
    /// The system's file.
    pub system: &'a [u8],
    /// The user's file.
    pub user: &'a [u8],
    /// The file of the top of the work tree.
    pub top: &'a [u8],
    /// The repository's own file.
    pub info: &'a [u8],
}

/// The attributes that are asked for.
#[derive(Clone, Copy)]
pub enum AskedAttributes<'a> {
    /// Those of these names, in this order.
    Names(&'a [&'a [u8]]),
    /// All whose state isn't unspecified, in the order in which their names are first read.
    All,
}

/// What is asked of each path: the states of attributes, by which files, whether the case of letters counts, from where paths are told, and how
/// answers are written. Contracts see it as plain data.
#[derive(Drop)]
pub struct AttributeQuestion<'a> {
    pub(crate) files: OuterFiles<'a>,
    pub(crate) asked: AskedAttributes<'a>,
    pub(crate) case: Case,
    pub(crate) standpoint: &'a Standpoint,
    pub(crate) form: Form,
}

impl<'a> Model for AttributeQuestion<'a> {
    ghost use Rattle.tree_commands.specs.CheckAttr.{Query};
    ghost use Rattle.tree_commands.specs.Private.AttributeWays.{asked_of, files_in};

    ghost Value = { Query };

    ghost view = { λ question. record { files = files_in question.files; asked = asked_of question.asked; case = question.case; standpoint = question.standpoint.now; form = question.form } };
}

impl<'a> AttributeQuestion<'a> {
    /// Asks for attributes of paths that are told from a standpoint, by files whose patterns are read as Git does it, and answers in this form.
    pub fn new(
        files: OuterFiles<'a>,
        asked: AskedAttributes<'a>,
        case: Case,
        standpoint: &'a Standpoint,
        form: Form,
    ) -> AttributeQuestion<'a>
        ensures { result ≡ record { files = files_in files.entry; asked = asked_of asked.entry; case = case; standpoint = standpoint.now; form = form } }
    {
        AttributeQuestion {
            files,
            asked,
            case,
            standpoint,
            form,
        }
    }
}

/// What is asked, what the source of folders shows, and which text may be written for a told path, in words that contracts alone have.
pub(crate) trait Question {
    ghost use Rattle.std.specs.Prelude.{ℕ, List, Option};
    ghost use Rattle.glob_trees.specs.Ways.{Folder};
    ghost use Rattle.gix_glob.specs.declared.pattern.Case.{Case};
    ghost use Rattle.tree_commands.specs.CheckAttr.{Asked, Files};

    ghost files: { Files };

    ghost asked: { Asked };

    ghost case: { Case };

    ghost shows: { Folder → Option (List ℕ) → Type 0 };

    ghost allows: { List ℕ → List ℕ → Type 0 };
}

impl Question for Brand {
    ghost use Rattle.std.specs.Prelude.{[]};
    ghost use Rattle.gix_glob.specs.declared.pattern.Case.TheVariants.{Sensitive};
    ghost use Rattle.tree_commands.specs.CheckAttr.{all};

    ghost files = { record { system = []; user = []; top = []; info = [] } };

    ghost asked = { all };

    ghost case = { Sensitive };

    ghost shows = { λ _ _. Unit {0} };

    ghost allows = { λ _ _. Unit {0} };
}
