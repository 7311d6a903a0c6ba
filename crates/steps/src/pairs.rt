// How many pairs are active before and not after.
ghost use Rattle.std.specs.Prelude.{◌≡◌};
ghost use Rattle.steps.specs.Pairs.{ended_pairs, pair_count, Fewer};

use sets::Set;

// The pairs active before and not after.
pub fn ended(before: &[u32; 32], after: &[u32; 32]) -> usize
    ensures { result ≡ pair_count (ended_pairs before.now after.now) }
{
    let mut total: usize = 0;
    for (roles, kept) in before.iter().zip(after) {
        total += fewer(*roles, *kept);
    }
    total
}

// The roles of one set that the other has not.
pub fn fewer(before: u32, after: u32) -> usize
    ensures { Fewer before after result }
{
    before.difference(after).count() as usize
}
