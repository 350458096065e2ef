//! Words are read to elements.
ghost use Rattle.std.specs.Prelude.{◌≡◌, ◌∷◌, ◌++◌, [], IfErr, IfOk, length, map, option_map, Some};
ghost use Rattle.std.specs.List.{list_all};
ghost use Rattle.std.specs.Result.{result_ok};
ghost use Rattle.pathspecs.specs.Reading.{AreRead, IsFault, counted, item_by, item_of, text_of, with_slash};
ghost use Rattle.pathspecs.specs.Spelling.{head_seen, seen};

use crate::elements::Element;
use crate::faults::{ReadFault, WordFault};
use crate::heads::Head;
use crate::leading::lead_from_here;
use crate::lists::PathspecList;
use crate::settings::Settings;
use crate::spelling::Pathspec;
use git_paths::Standpoint;
use std::alloc::{AllocError, Global};

impl PathspecList {
    /// The elements of words. Where all of them are excludes, the element of the current folder follows, as that of the word `.`; where there
    /// are no words, it stands alone, and no setting counts.
    ///
    /// # Errors
    /// [`ReadFault::Word`] for the first word that is no element, or, with the place behind the last, where the current folder would follow
    /// and doesn't lie in the work tree; [`ReadFault::Memory`] where memory was refused.
    pub fn read(
        alloc: Global,
        standpoint: &Standpoint,
        settings: Settings,
        words: &[&[u8]],
    ) -> Result<PathspecList, ReadFault>
        ensures read { IfOk result (λ list. AreRead standpoint.now (counted settings (length words.now)) (map (λ word. word.now) words.now) list) }
        ensures fault { IfErr result (IsFault standpoint.now (counted settings (length words.now)) (map (λ word. word.now) words.now)) }
    {
        let elements = read_elements(alloc, standpoint, settings, words)?;
        Ok(PathspecList::new(alloc, elements)?)
    }
}

/// The elements of words, and that of the current folder where it follows.
fn read_elements(
    alloc: Global,
    standpoint: &Standpoint,
    settings: Settings,
    words: &[&[u8]],
) -> Result<Vec<Element>, ReadFault>
    ensures read { IfOk result (λ elements. AreRead standpoint.now (counted settings (length words.now)) (map (λ word. word.now) words.now) elements.items) }
    ensures fault { IfErr result (IsFault standpoint.now (counted settings (length words.now)) (map (λ word. word.now) words.now)) }
{
    let settings = if words.is_empty() {
        Settings::default()
    } else {
        settings
    };
    let mut elements = read_words(alloc, standpoint, settings, words)?;
    if !elements.iter().all(|element| element.magic().exclude) {
        return Ok(elements);
    }
    let place = words.len();
    match read_word(alloc, standpoint, settings, b".")? {
        Ok(here) => push(&mut elements, here)?,
        Err(fault) => return Err(ReadFault::Word { place, fault }),
    }
    Ok(elements)
}

/// The elements of words.
fn read_words(
    alloc: Global,
    standpoint: &Standpoint,
    settings: Settings,
    words: &[&[u8]],
) -> Result<Vec<Element>, ReadFault>
    ensures read { IfOk result (λ elements. map (item_of standpoint.now settings) (map (λ word. word.now) words.now) ≡ map Some elements.items) }
    ensures fault { IfErr result (IsFault standpoint.now settings (map (λ word. word.now) words.now)) }
{
    let mut elements = Vec::new(alloc);
    'words: for word in words {
        let place = elements.len();
        match read_word(alloc, standpoint, settings, word)? {
            Ok(element) => push(&mut elements, element)?,
            Err(fault) => return Err(ReadFault::Word { place, fault }),
        }
    }
    Ok(elements)
}

/// Adds an element.
fn push(elements: &mut Vec<Element>, element: Element) -> Result<(), AllocError>
    ensures { IfOk result (λ _. elements.new.items ≡ elements.old.items ++ element ∷ []) }
{
    elements.push(element)?;
    Ok(())
}

/// The element of a word.
fn read_word(
    alloc: Global,
    standpoint: &Standpoint,
    settings: Settings,
    word: &[u8],
) -> Result<Result<Element, WordFault>, AllocError>
    ensures { IfOk result (λ read. result_ok read ≡ item_of standpoint.now settings word.now) }
{
    let head = match Head::of_word(settings.literal, word) {
        Ok(head) => head,
        Err(fault) => return Ok(Err(fault)),
    };
    if !settings.agree() {
        return Ok(Err(WordFault::Settings));
    }
    let spelt = head.pathspec();
    let Some(text) = text_of(alloc, standpoint, spelt)? else {
        return Ok(Err(WordFault::Outside));
    };
    let kept = spelt.literal_front(standpoint);
    Ok(Ok(Element::new(settings.marked(head.magic), text, kept)))
}

/// The text of an element, which is told from the top; `None` where the path leads out of the work tree.
fn text_of(
    alloc: Global,
    standpoint: &Standpoint,
    spelt: Pathspec<'_>,
) -> Result<Option<Vec<u8>>, AllocError>
    ensures { IfOk result (λ text. option_map (λ bytes. bytes.items) text ≡ text_of standpoint.now (seen spelt.entry)) }
{
    if spelt.is_from_top {
        return Ok(Some(Vec::from_slice(alloc, spelt.path)?));
    }
    let mut path = Vec::new(alloc);
    let Some(is_folder) = lead_from_here(alloc, standpoint, &mut path, spelt.path)? else {
        return Ok(None);
    };
    if is_folder && !path.is_empty() {
        path.push(b'/')?;
    }
    Ok(Some(path))
}
