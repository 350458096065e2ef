//! Bracket sets, read in one pass: where a set ends, and whether it holds a byte.
//!
//! Each `[:` wants to know where the first `]` after it is. That one stays the first for each later `[:` before it, so it is
//! looked for only where it isn't known.
ghost use Rattle.std.specs.Prelude.{◌↔◌, ℕ, false, ◌+◌, ◌-◌, ◌<◌, ◌≤◌, IsTrue, IfSome, IfNone, MatchOption, Option, Some, length, slice_range, not, ◌≡◌};
ghost use Rattle.glob_matcher.specs.Bytes.{HasByte, IsEscaped, folds, open_bracket, backslash};
ghost use Rattle.glob_matcher.specs.Private.Spelling.{close_bracket, colon, dash, IsSign};
ghost use Rattle.glob_matcher.specs.declared.wildmatch.items.Class.{Class};
ghost use Rattle.glob_matcher.specs.declared.wildmatch.items.Item.{Item};
ghost use Rattle.glob_matcher.specs.Steps.{Counts};
ghost use Rattle.glob_matcher.specs.Sets.{BeginsRange, BeginsClass, IsFirstFrom, IsUpperEnd, item_holds, name_of};
ghost use Rattle.glob_matcher.specs.Private.Takes.{Takes, TakesExactly, looks_at};
ghost use Rattle.glob_matcher.specs.Private.Looks.{LookedAtEach, LookedOver, IsItemRead, IsKnown, IsPaidFor, IsPartPaid, read_end, search_front};
ghost use Rattle.glob_matcher.specs.Private.Reader.{IsNextItem, IsPartRead, IsSetRead, after_item, first_item, part_holds, part_opened, part_past};

use super::engine::Engine;
use super::items::{Class, Item};
use super::texts::Texts;
use super::way::Way;
use std::sync::ledger::Ledger;

/// An item as it is spelled.
#[derive(Clone, Copy)]
struct Spelled {
    item: Item,
    /// The place after it.
    next: usize,
    /// Where a closing bracket is known to be.
    close: Option<usize>,
}

impl Spelled {
    /// Where the reader of a set stands after this item.
    #[inline(always)]
    fn onward(self) -> Cursor
        ensures { result ≡ after_item self }
    {
        Cursor {
            place: self.next,
            is_first: false,
            low: self.item.member(),
            close: self.close,
        }
    }
}

/// What stands at an item's place.
#[derive(Clone, Copy)]
enum NextItem {
    /// An item.
    Item(Spelled),
    /// The closing bracket.
    Close,
    /// Neither: the set doesn't close.
    Broken,
}

/// What is read of a set, for one byte.
#[derive(Clone, Copy)]
pub struct SetRead {
    /// The place after the set.
    pub end: usize,
    /// Whether the set holds the byte.
    pub holds: bool,
}

/// Where the reader of a set stands.
#[derive(Clone, Copy)]
struct Cursor {
    /// The place of the next item, or of the closing bracket.
    place: usize,
    /// Whether no item was read yet: a `]` doesn't close then.
    is_first: bool,
    /// The member directly before, from which a range may begin.
    low: Option<u8>,
    /// The first `]` after a `[:` that was met: until it is passed, it is the first for each later `[:` too.
    close: Option<usize>,
}

impl Cursor {
    /// Whether the set closes at this byte.
    fn closes(self, byte: u8) -> bool
        ensures { IsTrue result ↔ (IsTrue (not self.is_first) × (byte ≡ close_bracket)) }
    {
        !self.is_first && byte == b']'
    }
}

/// What is read of a set so far, for one byte.
#[derive(Clone, Copy)]
struct SetPart {
    /// The place of the set's bracket.
    place: usize,
    /// Whether the set is negated.
    is_negated: bool,
    /// Whether an item so far holds the byte.
    is_held: bool,
    /// Where the reader stands.
    cursor: Cursor,
}

impl SetPart {
    /// What is read before the first item, which stands at `first`.
    #[inline(always)]
    fn opened(place: usize, is_negated: bool, first: usize) -> SetPart
        requires { first ≡ first_item is_negated place }
        ensures { result ≡ part_opened place is_negated }
    {
        SetPart {
            place,
            is_negated,
            is_held: false,
            cursor: Cursor {
                place: first,
                is_first: true,
                low: None,
                close: None,
            },
        }
    }

    /// What is read once an item is that stands where the reader does.
    #[inline(always)]
    fn past(self, spelled: Spelled, byte: u8, way: Way) -> SetPart
        ensures { result ≡ part_past way byte self spelled }
    {
        SetPart {
            is_held: self.is_held | spelled.item.holds(byte, way),
            cursor: spelled.onward(),
            ..self
        }
    }

    /// Whether the set holds the byte, where it closes: a negated one holds it if no item does, but none holds a slash in path
    /// mode.
    #[inline(always)]
    fn holds(self, byte: u8, way: Way) -> bool
        ensures { result ≡ part_holds way byte self }
    {
        !(way.is_path() && byte == b'/') && self.is_held != self.is_negated
    }
}

impl<'c, 'a, L: Ledger, M: Texts> Engine<'c, 'a, L, M> {
    /// The byte that the backslash at this place escapes.
    pub fn escaped_at(&mut self, place: usize) -> Option<u8>
        requires { HasByte M.pattern place backslash }
        ensures byte { MatchOption result ((byte : ℕ) → ¬ IsEscaped M.pattern place byte) (IsEscaped M.pattern place) }
        ensures count { TakesExactly self.old self.new 0 (looks_at result) }
    {
        self.look_at(place + 1)
    }

    /// The upper end of a range at this place, and the place after it.
    fn upper_end(&mut self, place: usize) -> Option<(u8, usize)>
        requires { place < length M.pattern }
        ensures end { MatchOption result ((high j : ℕ) → ¬ IsUpperEnd M.pattern place high j)
            (λ end. IsUpperEnd M.pattern place end.0 end.1 × (place < end.1) × (end.1 ≤ length M.pattern)) }
        ensures count { MatchOption result (Takes self.old self.new 0 1) (λ end. LookedAtEach self.old self.new place end.1) }
    {
        let byte = self.pattern_byte(place);
        if byte != b'\\' {
            return Some((byte, place + 1));
        }
        let Some(high) = self.escaped_at(place) else {
            return None;
        };
        Some((high, place + 2))
    }

    /// The first closing bracket from a place on.
    fn first_close(&mut self, from: usize) -> Option<usize>
        requires { from ≤ length M.pattern }
        ensures close { MatchOption result ((j : ℕ) → from ≤ j → ¬ HasByte M.pattern j close_bracket)
            (IsFirstFrom M.pattern from close_bracket) }
        ensures count { MatchOption result (LookedAtEach self.old self.new from (length M.pattern))
            (λ close. LookedAtEach self.old self.new from (close + 1)) }
    {
        let mut place = from;
        'bytes: while let Some(byte) = self.look_at(place) {
            if byte == b']' {
                return Some(place);
            }
            place += 1;
        }
        None
    }

    /// The first closing bracket after the `[:` at this place. No byte is looked at where it is known.
    fn class_close(&mut self, place: usize, close: Option<usize>) -> Option<usize>
        requires begins { BeginsClass M.pattern place }
        requires known { IsKnown M.pattern place close }
        ensures close { MatchOption result ((j : ℕ) → place + 2 ≤ j → ¬ HasByte M.pattern j close_bracket)
            (IsFirstFrom M.pattern (place + 2) close_bracket) }
        ensures steps { self.new.steps ≡ self.old.steps }
        ensures low { self.old.looks ≤ self.new.looks }
        ensures looks { MatchOption result (LookedAtEach self.old self.new (place + 2) (length M.pattern))
            (λ j. self.new.looks + search_front close place ≤ self.old.looks + j) }
    {
        let Some(known) = close else {
            return self.first_close(place + 2);
        };
        if known < place + 2 {
            return self.first_close(place + 2);
        }
        Some(known)
    }

    /// Whether the closing bracket at `end` ends a class, where it is the first after the `[:` at `place`.
    fn ends_class(&mut self, place: usize, end: usize) -> bool
        requires low { place + 2 ≤ end }
        requires inside { end < length M.pattern }
        ensures answer { IsTrue result ↔ ((place + 3 ≤ end) × HasByte M.pattern (end - 1) colon) }
        ensures count { Takes self.old self.new 0 1 }
    {
        if end < place + 3 {
            return false;
        }
        self.pattern_byte(end - 1) == b':'
    }

    /// The class that the bytes from one place up to another name, in a look at each.
    #[inline(always)]
    fn class_named(&mut self, from: usize, to: usize) -> Option<Class>
        requires order { from ≤ to }
        requires inside { to ≤ length M.pattern }
        ensures class { MatchOption result ((class : Class) → ¬ (slice_range M.pattern from to ≡ name_of class))
            (λ class. slice_range M.pattern from to ≡ name_of class) }
        ensures count { Takes self.old self.new 0 (to - from) }
    {
        let texts = &mut self.texts;
        texts.pattern.class_named(from, to, &mut *texts.counts)
    }

    /// The class that begins with the `[:` at this place, or a lone `[` where the first `]` ends no class. `None` where there
    /// is no `]`, or no class of that name.
    #[inline(always)]
    fn class_at(&mut self, place: usize, close: Option<usize>) -> Option<Spelled>
        requires begins { BeginsClass M.pattern place }
        requires known { IsKnown M.pattern place close }
        ensures { (low : Option ℕ) → IsItemRead 2 self.old self.new M.pattern low place close result }
    {
        let Some(end) = self.class_close(place, close) else {
            return None;
        };
        if !self.ends_class(place, end) {
            return Some(Spelled {
                item: Item::Member(b'['),
                next: place + 1,
                close: Some(end),
            });
        }
        let Some(class) = self.class_named(place + 2, end - 1) else {
            return None;
        };
        Some(Spelled {
            item: Item::Class(class),
            next: end + 1,
            close: Some(end),
        })
    }

    /// The lower end of the range that the `-` at this place begins, after the member `low` or none; `None` where it begins
    /// none.
    fn range_from(&mut self, low: Option<u8>, place: usize) -> Option<u8>
        requires { HasByte M.pattern place dash }
        ensures low { MatchOption result (¬ BeginsRange M.pattern low place)
            (λ from. (low ≡ Some from) × BeginsRange M.pattern (Some from) place) }
        ensures count { Takes self.old self.new 0 1 }
    {
        let Some(member) = low else {
            return None;
        };
        if member == 0 {
            return None;
        }
        match self.look_at(place + 1) {
            Some(b']') | None => None,
            Some(_) => Some(member),
        }
    }

    /// The range that begins with the `-` at this place, or a `-` alone.
    #[inline(always)]
    fn dash_at(&mut self, low: Option<u8>, place: usize, close: Option<usize>) -> Option<Spelled>
        requires here { HasByte M.pattern place dash }
        requires known { IsKnown M.pattern place close }
        ensures { IsItemRead 1 self.old self.new M.pattern low place close result }
    {
        let Some(from) = self.range_from(low, place) else {
            return Some(Spelled {
                item: Item::Member(b'-'),
                next: place + 1,
                close,
            });
        };
        let Some((high, next)) = self.upper_end(place + 1) else {
            return None;
        };
        Some(Spelled {
            item: Item::Range(from, high),
            next,
            close,
        })
    }

    /// The class that begins with the `[` at this place, or a `[` alone.
    #[inline(always)]
    fn bracket_at(&mut self, low: Option<u8>, place: usize, close: Option<usize>) -> Option<Spelled>
        requires here { HasByte M.pattern place open_bracket }
        requires known { IsKnown M.pattern place close }
        ensures { IsItemRead 1 self.old self.new M.pattern low place close result }
    {
        if self.has_byte(place + 1, b':') {
            return self.class_at(place, close);
        }
        Some(Spelled {
            item: Item::Member(b'['),
            next: place + 1,
            close,
        })
    }

    /// The member that the backslash at this place escapes.
    #[inline(always)]
    fn escape_at(&mut self, place: usize, close: Option<usize>) -> Option<Spelled>
        requires here { HasByte M.pattern place backslash }
        requires known { IsKnown M.pattern place close }
        ensures { (low : Option ℕ) → IsItemRead 1 self.old self.new M.pattern low place close result }
    {
        let Some(byte) = self.escaped_at(place) else {
            return None;
        };
        Some(Spelled {
            item: Item::Member(byte),
            next: place + 2,
            close,
        })
    }

    /// The item where the cursor stands, at this byte.
    #[inline(always)]
    fn item_at(&mut self, cursor: Cursor, byte: u8) -> Option<Spelled>
        requires here { HasByte M.pattern cursor.place byte }
        requires known { IsKnown M.pattern cursor.place cursor.close }
        ensures { IsItemRead 1 self.old self.new M.pattern cursor.low cursor.place cursor.close result }
    {
        match byte {
            b'\\' => self.escape_at(cursor.place, cursor.close),
            b'-' => self.dash_at(cursor.low, cursor.place, cursor.close),
            b'[' => self.bracket_at(cursor.low, cursor.place, cursor.close),
            _ => Some(Spelled {
                item: Item::Member(byte),
                next: cursor.place + 1,
                close: cursor.close,
            }),
        }
    }

    /// What stands where the cursor stands.
    #[inline(always)]
    fn next_item(&mut self, cursor: Cursor) -> NextItem
        requires inside { cursor.place ≤ length M.pattern }
        requires known { IsKnown M.pattern cursor.place cursor.close }
        ensures item { IsNextItem M.pattern cursor.is_first cursor.low cursor.place result }
        ensures count { IsPaidFor self.old self.new M.pattern cursor.place cursor.close result }
    {
        let Some(byte) = self.look_at(cursor.place) else {
            return NextItem::Broken;
        };
        if cursor.closes(byte) {
            return NextItem::Close;
        }
        match self.item_at(cursor, byte) {
            Some(spelled) => NextItem::Item(spelled),
            None => NextItem::Broken,
        }
    }

    /// Whether a sign that negates stands at this place.
    #[inline(always)]
    fn has_sign(&mut self, place: usize) -> bool
        ensures answer { IsTrue result ↔ IsSign M.pattern place }
        ensures count { Takes self.old self.new 0 1 }
    {
        // most sets begin with a letter, which lies past both signs
        matches!(self.look_at(place), Some(byte) if byte <= b'^' && (byte == b'!' || byte == b'^'))
    }

    /// What is read of a set before its first item: its bracket stands at this place.
    #[inline(always)]
    fn set_opening(&mut self, place: usize) -> SetPart
        requires { HasByte M.pattern place open_bracket }
        ensures read { (b : ℕ) → IsPartRead M.way M.pattern b result }
        ensures place { result.place ≡ place }
        ensures count { IsPartPaid 3 self.old self.new result }
    {
        if self.has_sign(place + 1) {
            return SetPart::opened(place, true, place + 2);
        }
        SetPart::opened(place, false, place + 1)
    }

    /// What is read once the range is whose `-` stands where the reader does, if its upper end is spelled by itself.
    #[inline(always)]
    fn past_plain_range(&mut self, part: SetPart, byte: u8) -> Option<SetPart>
        requires case { folds M.way ≡ false }
        requires read { IsPartRead M.way M.pattern byte part }
        requires here { HasByte M.pattern part.cursor.place dash }
        ensures read { IfSome result (IsPartRead M.way M.pattern byte) }
        ensures place { IfSome result (λ next. next.place ≡ part.place) }
        ensures onward { IfSome result (λ next. part.cursor.place < next.cursor.place) }
        ensures paid { IfSome result (λ next. (before : Counts) → IsPartPaid 2 before self.old part → IsPartPaid 3 before self.new next) }
        ensures count { Takes self.old self.new 0 1 }
    {
        let Some(from) = part.cursor.low else {
            return None;
        };
        if from == 0 {
            return None;
        }
        match self.look_at(part.cursor.place + 1) {
            None | Some(b']' | b'\\') => None,
            Some(high) => {
                let range = Spelled {
                    item: Item::Range(from, high),
                    next: part.cursor.place + 2,
                    close: part.cursor.close,
                };
                Some(part.past(range, byte, Way::Plain))
            }
        }
    }

    /// What is read once the next item is, if it is a member that is spelled by itself, or a range of two such.
    #[inline(always)]
    fn past_plain_item(&mut self, part: SetPart, byte: u8) -> Option<SetPart>
        requires case { folds M.way ≡ false }
        requires read { IsPartRead M.way M.pattern byte part }
        ensures read { IfSome result (IsPartRead M.way M.pattern byte) }
        ensures place { IfSome result (λ next. next.place ≡ part.place) }
        ensures onward { IfSome result (λ next. part.cursor.place < next.cursor.place) }
        ensures paid { IfSome result (λ next. (before : Counts) → IsPartPaid 3 before self.old part → IsPartPaid 3 before self.new next) }
        ensures count { IfNone result (Takes self.old self.new 0 2) }
    {
        let Some(next) = self.look_at(part.cursor.place) else {
            return None;
        };
        match next {
            b'-' => self.past_plain_range(part, byte),
            b'[' | b'\\' | b']' => None,
            _ => {
                let member = Spelled {
                    item: Item::Member(next),
                    next: part.cursor.place + 1,
                    close: part.cursor.close,
                };
                Some(part.past(member, byte, Way::Plain))
            }
        }
    }

    /// Reads the items of a set up to the first that isn't plain. Most sets have no others, and a loop without them is short.
    #[inline(always)]
    fn plain_part(&mut self, first: SetPart, byte: u8) -> SetPart
        requires case { folds M.way ≡ false }
        requires read { IsPartRead M.way M.pattern byte first }
        ensures read { IsPartRead M.way M.pattern byte result }
        ensures place { result.place ≡ first.place }
        ensures count { (before : Counts) → IsPartPaid 3 before self.old first → IsPartPaid 1 before self.new result }
    {
        let mut part = first;
        'items: while let Some(next) = self.past_plain_item(part, byte) {
            part = next;
        }
        part
    }

    /// Whether the set closes where its reader stands.
    #[inline(always)]
    fn closes_at(&mut self, cursor: Cursor) -> bool
        ensures answer { IsTrue result ↔ (IsTrue (not cursor.is_first) × HasByte M.pattern cursor.place close_bracket) }
        ensures count { Takes self.old self.new 0 1 }
    {
        !cursor.is_first && matches!(self.look_at(cursor.place), Some(b']'))
    }

    /// Reads the rest of a set for this byte, in a way that holds in an item what this match does; `None` where it doesn't close.
    #[inline(always)]
    fn rest_of_set(&mut self, first: SetPart, byte: u8, way: Way) -> Option<SetRead>
        requires read { IsPartRead M.way M.pattern byte first }
        requires alike { (item : Item) → item_holds way byte item ≡ item_holds M.way byte item }
        ensures read { IsSetRead M.way M.pattern first.place byte result }
        ensures count { (before : Counts) → IsPartPaid 0 before self.old first → LookedOver 4 before self.new first.place (read_end M.pattern result) }
    {
        let mut part = first;
        'items: loop {
            match self.next_item(part.cursor) {
                NextItem::Item(spelled) => part = part.past(spelled, byte, way),
                NextItem::Close => {
                    return Some(SetRead {
                        end: part.cursor.place + 1,
                        holds: part.holds(byte, self.way()),
                    });
                }
                NextItem::Broken => return None,
            }
        }
    }

    /// The set whose bracket stands at this place, read item by item for this byte; `None` where no set begins.
    #[inline(always)]
    pub fn set_by_items(&mut self, place: usize, byte: u8) -> Option<SetRead>
        requires { HasByte M.pattern place open_bracket }
        ensures read { IsSetRead M.way M.pattern place byte result }
        ensures count { LookedOver 4 self.old self.new place (read_end M.pattern result) }
    {
        let opening = self.set_opening(place);
        self.rest_of_set(opening, byte, self.way())
    }

    /// The same, with its plain items in a loop of their own where case counts.
    #[inline(always)]
    pub fn set_at(&mut self, place: usize, byte: u8) -> Option<SetRead>
        requires { HasByte M.pattern place open_bracket }
        ensures read { IsSetRead M.way M.pattern place byte result }
        ensures count { LookedOver 4 self.old self.new place (read_end M.pattern result) }
    {
        if self.folds() {
            return self.set_by_items(place, byte);
        }
        let opening = self.set_opening(place);
        let part = self.plain_part(opening, byte);
        if self.closes_at(part.cursor) {
            return Some(SetRead {
                end: part.cursor.place + 1,
                holds: part.holds(byte, self.way()),
            });
        }
        self.rest_of_set(part, byte, Way::Plain)
    }
}
