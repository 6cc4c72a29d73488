ghost use Rattle.lines.specs.Lines.{role_word};
ghost use Rattle.std.specs.Prelude.{◌≡◌, length};

/// Which of the two files a line is about.
#[derive(Clone, Copy, PartialEq, Eq, Debug)]
pub enum Role {
    Pattern,
    Program,
}

impl Role {
    /// The word that names the file in a line.
    pub fn word(self) -> &'static [u8]
        ensures word { result.now ≡ role_word self }
        ensures long { length result.now ≡ 7 }
    {
        match self {
            Role::Pattern => b"pattern",
            Role::Program => b"program",
        }
    }
}
