ghost use Rattle.rules.specs.Bands.{in_band, same_band};
ghost use Rattle.rules.specs.RuleLaws.{band_laws};

use model::rule::Rule;

/// A band of signed numbers, both ends in. One whose low end is above its high end holds no number.
#[derive(Clone, Copy, PartialEq, Eq, Debug)]
pub struct Band {
    pub low: i32,
    pub high: i32,
}

/// The band rule, for blocks: a band fits the numbers that it holds, and bands with equal ends are the same.
#[derive(Clone, Copy)]
pub struct InBand;

impl Rule for InBand {
    type Pattern = Band;

    type Program = i32;

    ghost fits = { λ _. in_band };

    ghost same = { λ _. same_band };

    ghost laws = { λ _. band_laws };

    fn fits(&self, pattern: &Band, program: &i32) -> bool {
        pattern.low <= *program && *program <= pattern.high
    }

    fn same(&self, one: &Band, other: &Band) -> bool {
        one == other
    }
}
