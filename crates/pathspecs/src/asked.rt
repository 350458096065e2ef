//! What is asked of each element of a list about a path.
ghost use Rattle.std.specs.Prelude.{◌≡◌, ◌≢◌, ◌⊎◌, ◌↔◌, true, IsTrue, List, ℕ};
ghost use Rattle.std.specs.List.{Contains};
ghost use Rattle.pathspecs.specs.declared.manner.Manner.{Manner};
ghost use Rattle.pathspecs.specs.declared.manner.Manner.TheVariants.{Below};
ghost use Rattle.pathspecs.specs.Elements.{LeadsInto, Meets, MeetsBy};
ghost use Rattle.pathspecs.specs.Private.Asking.{GoesOn, MeetsText, Says, SaysSo, SaysText, is_of_exclude, is_plain};

use crate::elements::Element;
use crate::manner::Manner;
use crate::texts::Texts;

/// What is asked of each element of a list about a path.
#[derive(Debug, Clone, Copy, PartialEq, Eq)]
pub(crate) enum Asked {
    /// Whether it is an exclude, and meets the path. All else is asked of positive elements.
    Excluding,
    /// Whether it meets the path.
    Meeting,
    /// Whether it meets a folder or leads into it.
    Opening,
    /// The same; and whether its case doesn't count, so that its front doesn't tell.
    Entering,
    /// Whether it meets a folder by its text or its pattern.
    Naming,
    /// Whether it leads into a folder that it doesn't meet.
    GoingOn,
}

impl Asked {
    /// Whether it is asked of excludes.
    fn is_of_exclude(self) -> bool
        ensures { result ≡ is_of_exclude self }
    {
        matches!(self, Asked::Excluding)
    }
}

impl Element {
    /// Whether it is positive, has no pattern, and its case counts: then its text answers all.
    pub(crate) fn is_plain(&self) -> bool
        ensures { result ≡ is_plain self.now }
    {
        let magic = self.magic();
        !(magic.exclude || magic.icase) && self.front() == self.text().len()
    }

    /// Whether it answers so.
    pub(crate) fn says(&self, asked: Asked, path: &[u8]) -> bool
        ensures { IsTrue result ↔ Says asked self.now path.now }
    {
        self.magic().exclude == asked.is_of_exclude() && self.says_so(asked, path)
    }

    /// Whether it answers so, be it an exclude or not.
    fn says_so(&self, asked: Asked, path: &[u8]) -> bool
        ensures { IsTrue result ↔ SaysSo asked self.now path.now }
    {
        match asked {
            Asked::Excluding | Asked::Meeting => self.meets(path),
            Asked::Opening => self.opens(path),
            Asked::Entering => self.opens(path) || self.magic().icase,
            Asked::Naming => self.names(path),
            Asked::GoingOn => self.leads_into(path) && !self.meets(path),
        }
    }

    /// Whether it meets a folder or leads into it.
    fn opens(&self, folder: &[u8]) -> bool
        ensures { IsTrue result ↔ (Meets self.now folder.now ⊎ LeadsInto self.now folder.now) }
    {
        self.meets(folder) || self.leads_into(folder)
    }

    /// Whether it meets a folder by its text or its pattern.
    fn names(&self, folder: &[u8]) -> bool
        ensures { IsTrue result ↔ ((way : Manner) × (way ≢ Below) × MeetsBy way self.now folder.now) }
    {
        match self.manner(folder) {
            Some(Manner::Exact | Manner::Wild) => true,
            Some(Manner::Below) | None => false,
        }
    }
}

impl Texts {
    /// Whether a plain element of one of these texts answers so.
    pub(crate) fn say(&self, asked: Asked, path: &[u8]) -> bool
        ensures { IsTrue result ↔ (text : List ℕ) × Contains self.now text × SaysText asked text path.now }
    {
        match asked {
            Asked::Excluding => false,
            Asked::Meeting => self.meet(path),
            Asked::Opening | Asked::Entering => self.go_on(path) || self.meet(path),
            Asked::Naming => self.have(path),
            Asked::GoingOn => self.go_on(path),
        }
    }

    /// Whether a path is one of them, or lies below one.
    fn meet(&self, path: &[u8]) -> bool
        ensures { IsTrue result ↔ (text : List ℕ) × Contains self.now text × MeetsText text path.now }
    {
        self.have(path) || self.have_above(path)
    }
}
