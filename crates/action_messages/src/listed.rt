ghost use Rattle.std.specs.Prelude.{◌≡◌, ℕ, List, map, None, OnOk, IfOk, IsPermutation};
ghost use Rattle.std.specs.List.{AllByRecursion, list_any};
ghost use Rattle.wire.specs.Steps.{Gives};
ghost use Rattle.messages.specs.Order.{IsAscending, bytes_cmp, has_name, share_name};
ghost use Rattle.action_messages.specs.Ascending.{IsSortedByText, ascending_behind};
ghost use Rattle.action_messages.specs.Overlaps.{IsPlace, is_under, lies_under_some, some_under};
ghost use Rattle.action_messages.specs.Overlaps.{some_cross, texts_of};

use messages::{MessageError, Path};
use std::alloc::{AllocError, Allocator};
use std::cmp::Ordering;

/// What stands in a list by its path.
pub trait Listed {
    ghost use Rattle.std.specs.Prelude.{◌≡◌, ℕ, List};
    ghost use Rattle.messages.specs.Path.{IsPath, path_text};

    /// The path of a value.
    ghost path_in: { Self → List (List ℕ) };

    /// The rules of its values.
    ghost keeps: { Self → Type 0 };

    /// The bytes of the path's text.
    fn path_text(&self) -> &[u8]
        ensures text { result.now ≡ path_text (path_in self.now) }
        ensures path { IsPath (path_in self.now) }
        ensures kept { keeps self.now };
}

impl<A: Allocator> Listed for Path<A> {
    ghost use Rattle.messages.specs.Path.{IsPath};

    ghost path_in = { λ path. path };

    ghost keeps = { IsPath };

    fn path_text(&self) -> &[u8] {
        self.as_bytes()
    }
}

/// What stands at a path stands by it.
impl<A: Allocator, V> Listed for (Path<A>, V) {
    ghost use Rattle.messages.specs.Path.{IsPath};

    ghost path_in = { λ e. e.0 };

    ghost keeps = { λ e. IsPath e.0 };

    fn path_text(&self) -> &[u8] {
        self.0.as_bytes()
    }
}

/// Puts the items in the order of their paths' texts.
pub(crate) fn sort_by_path<L: Listed, A: Allocator>(items: &mut Vec<L, A>)
    ensures same { IsPermutation items.old.items items.new.items }
    ensures sorted { IsSortedByText L.path_in items.new.items }
{
    items.sort_unstable_by(|a, b| a.path_text().cmp(b.path_text()));
}

/// Whether the paths strictly ascend by their texts.
pub(crate) fn check_paths<L: Listed>(items: &[L]) -> Result<(), MessageError>
    ensures exact { Gives (λ x. x) result
        (ascending_behind bytes_cmp None (texts_of (map L.path_in items.now))) }
    ensures kept { OnOk result (AllByRecursion L.keeps items.now) }
{
    let mut before: Option<&[u8]> = None;
    for item in items {
        let text = item.path_text();
        if let Some(before) = before {
            match before.cmp(text) {
                Ordering::Less => {}
                Ordering::Equal | Ordering::Greater => return Err(MessageError::Unsorted),
            }
        }
        before = Some(text);
    }
    Ok(())
}

/// Where a text stands among those of ascending paths, or where it would stand, by binary search.
pub fn place_of<L: Listed>(items: &[L], text: &[u8]) -> Result<usize, usize>
    requires { IsAscending (texts_of (map L.path_in items.now)) }
    ensures { IsPlace (texts_of (map L.path_in items.now)) text.now result }
{
    let mut low = 0;
    let mut high = items.len();
    while low < high {
        let middle = low + (high - low) / 2;
        match items[middle].path_text().cmp(text) {
            Ordering::Less => low = middle + 1,
            Ordering::Greater => high = middle,
            Ordering::Equal => return Ok(middle),
        }
    }
    Err(low)
}

/// Whether a path of ascending ones has this text, by binary search.
pub(crate) fn has_text<L: Listed>(items: &[L], text: &[u8]) -> bool
    requires { IsAscending (texts_of (map L.path_in items.now)) }
    ensures { result ≡ has_name (texts_of (map L.path_in items.now)) text.now }
{
    place_of(items, text).is_ok()
}

/// Whether the path of this text lies under one of ascending ones.
pub fn lies_under_some<L: Listed>(text: &[u8], items: &[L]) -> bool
    requires { IsAscending (texts_of (map L.path_in items.now)) }
    ensures { result ≡ lies_under_some (texts_of (map L.path_in items.now)) text.now }
{
    for (index, byte) in text.iter().enumerate() {
        if *byte == b'/' && has_text(items, &text[..index]) {
            return true;
        }
    }
    false
}

/// Whether a path lies under one of the others, which ascend.
pub(crate) fn some_under<L: Listed, M: Listed>(items: &[L], others: &[M]) -> bool
    requires { IsAscending (texts_of (map M.path_in others.now)) }
    ensures { result
        ≡ some_under (texts_of (map L.path_in items.now)) (texts_of (map M.path_in others.now)) }
{
    for item in items {
        if lies_under_some(item.path_text(), others) {
            return true;
        }
    }
    false
}

/// Whether a path is one of the others, which ascend.
fn some_shared<L: Listed, M: Listed>(items: &[L], others: &[M]) -> bool
    requires { IsAscending (texts_of (map M.path_in others.now)) }
    ensures { result
        ≡ share_name (texts_of (map L.path_in items.now)) (texts_of (map M.path_in others.now)) }
{
    for item in items {
        if has_text(others, item.path_text()) {
            return true;
        }
    }
    false
}

/// Whether a path of one ascending list overlaps one of another.
pub(crate) fn some_cross<L: Listed, M: Listed>(items: &[L], others: &[M]) -> bool
    requires items { IsAscending (texts_of (map L.path_in items.now)) }
    requires others { IsAscending (texts_of (map M.path_in others.now)) }
    ensures { result
        ≡ some_cross (texts_of (map L.path_in items.now)) (texts_of (map M.path_in others.now)) }
{
    some_shared(items, others) || some_under(items, others) || some_under(others, items)
}
