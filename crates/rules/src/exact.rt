ghost use Rattle.sets.specs.Sets.{same_set};
ghost use Rattle.rules.specs.RuleLaws.{exact_laws};

use model::rule::Rule;
use sets::Set;

/// The exact rule, for pairs: sets fit when they are equal, and equal sets are the same.
#[derive(Clone, Copy)]
pub struct Exact;

impl Rule for Exact {
    type Pattern = Set;

    type Program = Set;

    ghost fits = { λ _. same_set };

    ghost same = { λ _. same_set };

    ghost laws = { λ _. exact_laws };

    fn fits(&self, pattern: &Set, program: &Set) -> bool {
        pattern.is_same(*program)
    }

    fn same(&self, one: &Set, other: &Set) -> bool {
        one.is_same(*other)
    }
}
