// Worked examples, proved from the definitions, and tests that run the code.
#![tactic(auto)]

ghost use Rattle.std.specs.Prelude.{◌≡◌, length};
ghost use Rattle.examples.specs.Table.{table, TableHolds};

#[cfg(test)]
mod tests;

/// How many examples the table has. Each of them holds.
pub fn examples() -> usize
    ensures count { result ≡ length table }
    ensures hold { TableHolds }
{
    7
}
