ghost use Rattle.std.specs.Prelude.{◌≡◌, ℕ, List, map, find, None, OnOk};
ghost use Rattle.std.specs.Option.{option_copied};
ghost use Rattle.messages.specs.Node.{is_same};
ghost use Rattle.std.specs.List.{AllByRecursion};
ghost use Rattle.wire.specs.Steps.{Gives};
ghost use Rattle.messages.specs.Order.{IsAscending, ordered_behind, share_name};

use crate::error::MessageError;
use std::cmp::Ordering;

/// What stands in a list by its name.
pub trait Named {
    /// The name of a value.
    ghost name_in: { Self → List ℕ };

    /// The rules of its values.
    ghost keeps: { Self → Type 0 };

    /// The bytes of the name.
    fn name(&self) -> &[u8]
        ensures text { result.now ≡ name_in self.now }
        ensures kept { keeps self.now };
}

/// Whether the names strictly ascend. If not, the first pair of neighbours that doesn't decides:
/// `SameName` where it is equal, `Unsorted` where it descends.
pub fn check_order<N: Named>(nodes: &[N]) -> Result<(), MessageError>
    ensures exact { Gives (λ x. x) result (ordered_behind None (map N.name_in nodes.now)) }
    ensures kept { OnOk result (AllByRecursion N.keeps nodes.now) }
{
    let mut before: Option<&[u8]> = None;
    for node in nodes {
        let name = node.name();
        if let Some(before) = before {
            match before.cmp(name) {
                Ordering::Less => {}
                Ordering::Equal => return Err(MessageError::SameName),
                Ordering::Greater => return Err(MessageError::Unsorted),
            }
        }
        before = Some(name);
    }
    Ok(())
}

/// Whether two ascending lists share a name: one walk over both.
pub(crate) fn share_a_name<N: Named, M: Named>(nodes: &[N], others: &[M]) -> bool
    requires nodes { IsAscending (map N.name_in nodes.now) }
    requires others { IsAscending (map M.name_in others.now) }
    ensures { result ≡ share_name (map N.name_in nodes.now) (map M.name_in others.now) }
{
    let mut i = 0;
    let mut j = 0;
    while i < nodes.len() && j < others.len() {
        match nodes[i].name().cmp(others[j].name()) {
            Ordering::Less => i += 1,
            Ordering::Greater => j += 1,
            Ordering::Equal => return true,
        }
    }
    false
}

/// The element of this name, of a list in the order of names: each step drops half of what is
/// left.
pub(crate) fn find_named<'a, N: Named>(nodes: &'a [N], name: &[u8]) -> Option<&'a N>
    requires { IsAscending (map N.name_in nodes.now) }
    ensures { option_copied result ≡ find (λ n. is_same (N.name_in n) name.now) nodes.now }
{
    let mut rest = nodes;
    while !rest.is_empty() {
        let (before, after) = rest.split_at(rest.len() / 2);
        let middle = &after[0];
        match middle.name().cmp(name) {
            Ordering::Less => rest = &after[1..],
            Ordering::Greater => rest = before,
            Ordering::Equal => return Some(middle),
        }
    }
    None
}
