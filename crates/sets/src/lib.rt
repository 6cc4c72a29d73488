// Sets of numbers below 32, each held in one word.
#![tactic(auto)]

ghost use Rattle.std.specs.Prelude.{◌≡◌, ℕ, ◌<◌, ◌||◌, Decides, ◌==◌};
ghost use Rattle.sets.specs.Sets.{has, Member, is_subset, same_set, joined, added};

/// A set of numbers below 32: number k is in it when bit k of the word is 1.
#[derive(Clone, Copy, PartialEq, Eq, Debug)]
pub struct Set(pub u32);

impl Set {
    /// The set with no member.
    pub const EMPTY: Set = Set(0);

    /// Whether the number is in the set.
    pub fn has(self, number: usize) -> bool
        ensures { result ≡ has number self.0 }
    {
        number < 32 && (self.0 >> number) & 1 == 1
    }

    /// The members of the set, and those of another.
    pub fn union(self, other: Set) -> Set
        ensures value { result ≡ joined self other }
        ensures members { (k : ℕ) → k < 32 → has k result.0 ≡ (has k self.0 || has k other.0) }
    {
        Set(self.0 | other.0)
    }

    /// The members of the set, and one more number. A number that no set has, one of 32 or more, adds nothing.
    pub fn with(self, number: usize) -> Set
        ensures value { result ≡ added number self }
        ensures members { (k : ℕ) → k < 32 → has k result.0 ≡ (has k self.0 || k == number) }
    {
        if number < 32 {
            Set(self.0 | 1 << number)
        } else {
            self
        }
    }

    /// Whether every member of the set is a member of another.
    pub fn is_subset(self, other: Set) -> bool
        ensures test { result ≡ is_subset self other }
        ensures members { Decides result ((k : ℕ) → Member k self → Member k other) }
    {
        self.0 & other.0 == self.0
    }

    /// Whether the set has the same members as another.
    pub fn is_same(self, other: Set) -> bool
        ensures test { result ≡ same_set self other }
        ensures equal { Decides result (self ≡ other) }
    {
        self == other
    }
}
