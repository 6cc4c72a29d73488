ghost use Rattle.std.specs.Prelude.{◌≡◌};
ghost use Rattle.model.specs.Blocks.{numbers, is_among};

use crate::block::PatternBlock;

/// Whether the block with a number is one of these.
pub fn is_among(blocks: &[PatternBlock], number: usize) -> bool
    ensures { result ≡ is_among number (numbers blocks.now) }
{
    blocks.contains(&PatternBlock(number))
}
