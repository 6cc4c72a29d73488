ghost use Rattle.std.specs.Prelude.{◌≡◌};
ghost use Rattle.sets.specs.Sets.{is_subset, same_set};
ghost use Rattle.rules.specs.Multigraphs.{SubMultigraphs};
ghost use Rattle.rules.specs.RuleLaws.{subset_laws};

use model::rule::Rule;
use model::store::Store;
use model::task::Task;
use sets::Set;

/// The subset rule, for blocks or pairs: a set fits one that has all its members, and sets with the same members are
/// the same.
#[derive(Clone, Copy)]
pub struct Subset;

impl Rule for Subset {
    type Pattern = Set;

    type Program = Set;

    ghost fits = { λ _. is_subset };

    ghost same = { λ _. same_set };

    ghost laws = { λ _. subset_laws };

    fn fits(&self, pattern: &Set, program: &Set) -> bool {
        pattern.is_subset(*program)
    }

    fn same(&self, one: &Set, other: &Set) -> bool {
        one.is_same(*other)
    }
}

/// The task of finding a pattern in a program, both with sets for labels, under the subset rule for blocks and pairs:
/// sub-multigraph matching.
pub fn subset_task<'a, P, T>(
    pattern: &'a P,
    program: &'a T,
    rule: &'a Subset,
) -> Task<'a, P, T, Subset, Subset>
where
    P: Store<Label = Set, Pair = Set>,
    T: Store<Label = Set, Pair = Set>,
    ensures pattern { result.pattern ≡ pattern.entry }
    ensures program { result.program ≡ program.entry }
    ensures blocks { result.blocks ≡ rule.entry }
    ensures pairs { result.pairs ≡ rule.entry }
    ensures matching { SubMultigraphs (P.Store.graph pattern.now) (T.Store.graph program.now) }
{
    Task::new(pattern, program, rule, rule)
}
