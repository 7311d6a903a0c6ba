// The rights of two lists: whether they can be joined, and joined.
ghost use Rattle.std.specs.Prelude.{◌≡◌};
ghost use Rattle.joining.specs.Joining.{rights_agree, rights_tested, joined_right, joined_rights};

use rules::{Right, RightSlot};
use std::array;

// The first kind of which both lists have a right line, with different permissions.
pub(crate) fn test_rights(first: &[RightSlot; 6], second: &[RightSlot; 6]) -> Option<usize>
    ensures { result ≡ rights_tested first.now second.now }
{
    first
        .iter()
        .zip(second)
        .position(|(slot, other)| !rights_agree(slot.right, other.right))
}

// The permissions are the same, or one of the rights is not stated.
fn rights_agree(first: Right, second: Right) -> bool
    ensures { result ≡ rights_agree first second }
{
    match (first, second) {
        (Right::Permission(permission), Right::Permission(other)) => permission == other,
        _ => true,
    }
}

// The right that either list states.
fn joined_right(first: Right, second: Right) -> Right
    ensures { result ≡ joined_right first second }
{
    match first {
        Right::Unstated => second,
        Right::Permission(_) => first,
    }
}

// The rights of both.
pub(crate) fn rights_of_both(first: &[RightSlot; 6], second: &[RightSlot; 6]) -> [RightSlot; 6]
    ensures { result ≡ joined_rights first.now second.now }
{
    array::from_fn(|kind| RightSlot {
        right: joined_right(first[kind].right, second[kind].right),
    })
}
