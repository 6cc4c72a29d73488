ghost use Rattle.std.specs.Prelude.{◌≡◌, ◌≤◌, is_some, ◌&&◌, nat_le, IfSome};

use crate::row::ROW_BLOCKS;

/// How many blocks a pattern has: 1 to 8.
#[derive(Clone, Copy, PartialEq, Eq, Debug)]
pub struct PatternCount {
    number: usize,
    ghost some: { 1 ≤ number },
    ghost few: { number ≤ 8 },
}

impl PatternCount {
    /// The count, where it is in range.
    pub fn new(number: usize) -> Option<PatternCount>
        ensures there { is_some result ≡ (nat_le 1 number && nat_le number 8) }
        ensures count { IfSome result (λ c. c.number ≡ number) }
    {
        if number < 1 || number > ROW_BLOCKS {
            return None;
        }
        Some(PatternCount { number })
    }

    /// The number that it is.
    pub fn get(self) -> usize
        ensures { result ≡ self.number }
    {
        self.number
    }
}
