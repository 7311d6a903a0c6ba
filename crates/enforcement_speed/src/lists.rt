// The lists that are made, by their numbers.
use rules::RuleList;

#[derive(Clone, Copy)]
pub(crate) struct List {
    pub(crate) number: u8,
    // How many rules it has.
    pub(crate) length: usize,
    pub(crate) mix: Mix,
}

// What its steps and rules are drawn from.
#[derive(Clone, Copy)]
pub(crate) enum Mix {
    Mixed,
    // Rules of the families that take longest, and steps that select them.
    Heavy,
    // As the mixed one, and one step in five lends or recalls.
    WithLoans,
}

impl List {
    pub(crate) fn numbered(number: u8) -> List {
        let (length, mix) = match number {
            0 => (0, Mix::Mixed),
            1 => (8, Mix::Mixed),
            2 => (32, Mix::Mixed),
            4 => (RuleList::MOST, Mix::Heavy),
            5 => (RuleList::MOST, Mix::WithLoans),
            _ => (RuleList::MOST, Mix::Mixed),
        };
        List {
            number,
            length,
            mix,
        }
    }
}
