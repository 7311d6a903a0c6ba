// Sets of small numbers, held as the binary digits of a word: i is a member where digit i is 1.
// A u32 holds numbers below 32 (roles, permissions, sessions), a u64 numbers below 64 (users).
#![tactic(auto)]

ghost use Rattle.std.specs.Prelude.{◌≡◌, true, ℕ, ◌<◌, cond, ltb};
ghost use Rattle.sets.specs.Sets.{member, single, with, without, union, intersection, difference, subset, is_empty, count};

// A word as a set of the numbers below its width.
pub trait Set: Copy {
    const WIDTH: usize;

    ghost WIDTH: { ℕ };

    // The number whose digits the members are.
    ghost number: { Self → ℕ };

    // i is a member of the set. No number past the width is.
    fn contains(self, i: usize) -> bool
        ensures member { result ≡ member (number self) i }
        ensures below { result ≡ true → i < WIDTH };

    // The set of i alone; of a number past the width the empty set.
    fn single(i: usize) -> Self
        ensures { number result ≡ cond (ltb i WIDTH) (single i) 0 };

    // The members of either set.
    fn union(self, other: Self) -> Self
        ensures { number result ≡ union (number self) (number other) };

    // The members of both sets.
    fn intersection(self, other: Self) -> Self
        ensures { number result ≡ intersection (number self) (number other) };

    // The members of this set that are not in the other.
    fn difference(self, other: Self) -> Self
        ensures { number result ≡ difference (number self) (number other) };

    // Each member of this set is one of the other.
    fn is_subset(self, other: Self) -> bool
        ensures { result ≡ subset (number self) (number other) };

    // The set has no member.
    fn is_empty(self) -> bool
        ensures { result ≡ is_empty (number self) };

    // The number of members: the ones of the word.
    fn count(self) -> u32
        ensures { result ≡ count WIDTH (member (number self)) };

    // The set and i. A number past the width is not added.
    #[tactic(auto, using(crate::proofs::Width::with_single))]
    fn with(self, i: usize) -> Self
        ensures { number result ≡ with WIDTH (number self) i }
    {
        self.union(Self::single(i))
    }

    // The set but for i.
    #[tactic(auto, using(crate::proofs::Width::without_none), unfolding(crate::specs::Sets::without))]
    fn without(self, i: usize) -> Self
        ensures { number result ≡ without (number self) i }
    {
        if !self.contains(i) {
            return self;
        }
        self.difference(Self::single(i))
    }
}

impl Set for u32 {
    const WIDTH: usize = 32;

    ghost WIDTH = { 32 };

    ghost number = { λ n. n };

    #[tactic(auto, using(crate::proofs::Width::past_width), unfolding(crate::specs::Sets::member))]
    fn contains(self, i: usize) -> bool {
        i < 32 && (self >> i) % 2 == 1
    }

    fn single(i: usize) -> u32 {
        if i < 32 { 1u32 << i } else { 0 }
    }

    fn union(self, other: u32) -> u32 {
        self | other
    }

    fn intersection(self, other: u32) -> u32 {
        self & other
    }

    fn difference(self, other: u32) -> u32 {
        (self | other) ^ other
    }

    fn is_subset(self, other: u32) -> bool {
        self & other == self
    }

    fn is_empty(self) -> bool {
        self == 0
    }

    #[tactic(auto, using(crate::proofs::Counting::counted_digits))]
    fn count(self) -> u32 {
        u32::count_ones(self)
    }
}

impl Set for u64 {
    const WIDTH: usize = 64;

    ghost WIDTH = { 64 };

    ghost number = { λ n. n };

    #[tactic(auto, using(crate::proofs::Width::past_width), unfolding(crate::specs::Sets::member))]
    fn contains(self, i: usize) -> bool {
        i < 64 && (self >> i) % 2 == 1
    }

    fn single(i: usize) -> u64 {
        if i < 64 { 1u64 << i } else { 0 }
    }

    fn union(self, other: u64) -> u64 {
        self | other
    }

    fn intersection(self, other: u64) -> u64 {
        self & other
    }

    fn difference(self, other: u64) -> u64 {
        (self | other) ^ other
    }

    fn is_subset(self, other: u64) -> bool {
        self & other == self
    }

    fn is_empty(self) -> bool {
        self == 0
    }

    #[tactic(auto, using(crate::proofs::Counting::counted_digits))]
    fn count(self) -> u32 {
        u64::count_ones(self)
    }
}
