ghost use Rattle.std.specs.Prelude.{◌≡◌};
ghost use Rattle.model.specs.Graphs.{Graph, block_count, label_at, pair_at};

/// A store: what it means is a graph, which three questions tell.
pub trait Store {
    type Label: Drop;

    type Pair: Drop;

    ghost graph: { Self → Graph Self.Label Self.Pair };

    /// How many blocks there are.
    fn count(&self) -> usize
        ensures { result ≡ block_count (graph self.now) };

    /// The label of a block.
    fn label(&self, block: usize) -> Option<Self::Label>
        ensures { result ≡ label_at (graph self.now) block };

    /// The label of an ordered pair of blocks.
    fn pair(&self, from: usize, to: usize) -> Option<Self::Pair>
        ensures { result ≡ pair_at (graph self.now) from to };
}
