ghost use Rattle.std.specs.Prelude.{◌≡◌, Bool};
ghost use Rattle.model.specs.Rules.{Laws};

/// A label rule: what it means are two relations, which two questions tell.
pub trait Rule {
    type Pattern;

    type Program;

    ghost fits: { Self → Self.Pattern → Self.Program → Bool };

    ghost same: { Self → Self.Pattern → Self.Pattern → Bool };

    /// Whether a pattern label fits a program label.
    fn fits(&self, pattern: &Self::Pattern, program: &Self::Program) -> bool
        ensures { result ≡ fits self.now pattern.now program.now };

    /// Whether two pattern labels are the same.
    fn same(&self, one: &Self::Pattern, other: &Self::Pattern) -> bool
        ensures { result ≡ same self.now one.now other.now };

    // What every rule owes.
    ghost laws: { (s : Self) → Laws (fits s) (same s) };
}
