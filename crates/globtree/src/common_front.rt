//! The folder in which all lies that a list of pathspecs may match: there a listing begins.
ghost use Rattle.std.specs.Prelude.{◌≡◌};

use pathspecs::{Element, PathspecList};

/// What all paths begin with that a list may match: the path of a folder, with a slash at its end, or no bytes. It has none where an exclude
/// has a pattern or case doesn't count, since these may take what lies in a folder away by its path; nor, as in Git, where the first word is
/// an exclude.
pub(crate) fn common_front(list: &PathspecList) -> &[u8] {
    if begins_with_exclude(list) || !list.elements().iter().all(keeps_front) {
        return b"";
    }
    let mut front = None;
    'elements: for element in list.elements() {
        if !element.magic().exclude {
            front = Some(shared(front, fixed(element)));
        }
    }
    up_to_slash(front.unwrap_or(b""))
}

/// Whether the first word is an exclude.
fn begins_with_exclude(list: &PathspecList) -> bool {
    match list.elements().first() {
        Some(element) => element.magic().exclude,
        None => false,
    }
}

/// Whether a listing may begin below the top, by an element.
fn keeps_front(element: &Element) -> bool {
    let magic = element.magic();
    !magic.icase && !(magic.exclude && element.front() < element.text().len())
}

/// The bytes with which all paths begin that an element meets.
fn fixed(element: &Element) -> &[u8] {
    let text = element.text();
    text.get(..element.front()).unwrap_or(text)
}

/// The bytes with which a text and the one before it begin, where there is one before it.
fn shared<'a>(before: Option<&'a [u8]>, text: &'a [u8]) -> &'a [u8] {
    let Some(before) = before else {
        return text;
    };
    let alike = before
        .iter()
        .zip(text.iter())
        .take_while(|(one, other)| one == other)
        .count();
    text.get(..alike).unwrap_or(text)
}

/// What of a text ends with its last slash.
fn up_to_slash(text: &[u8]) -> &[u8] {
    match text.iter().rposition(|byte| *byte == b'/') {
        Some(place) => text.get(..place + 1).unwrap_or(text),
        None => b"",
    }
}
