// Two rule lists joined into a list of rules that the caller lends.
ghost use Rattle.joining.specs.Lent.{JoinedAs};

use crate::lists::join;
use crate::refusals::Refusal;
use rules::{RightSlot, RuleList, Slot};

// How many of the lent slots are written, which is the number of rules, and the rights of the joined list.
#[derive(Clone, Copy)]
pub struct JoinedInto {
    pub count: usize,
    pub rights: [RightSlot; 6],
}

// The joined rules go to the first slots in their order, and the slots past them stay. Refused is what `join` refuses, then lent slots that are
// fewer than the rules: then every slot stays.
pub fn join_into(
    first: RuleList,
    second: RuleList,
    lent: &mut [Slot],
) -> Result<JoinedInto, Refusal>
    ensures { JoinedAs first second lent.old result lent.new }
{
    let list = join(first, second)?;
    let count = list.length;
    if lent.len() < count {
        return Err(Refusal::NoRoom { rules: count });
    }
    lent[..count].copy_from_slice(list.used());
    Ok(JoinedInto {
        count,
        rights: list.rights,
    })
}
