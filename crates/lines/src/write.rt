ghost use Rattle.std.specs.Prelude.{◌≡◌, ◌≤◌, length, IfOk};
ghost use Rattle.lines.specs.Lines.{count_line, fault_line, line_answer, line_left, number_line};

use crate::fault::LineFault;
use crate::line::Line;
use crate::role::Role;
use listing::counts::Counts;
use refusal::{Place, RefusalNumber};

/// How many bytes a buffer must have: every line fits in them.
pub const ROOM: usize = 64;

/// Writes the line that tells a refusal at the start of `out`, and answers its length.
/// A buffer of under 64 bytes is refused, and left as it was.
pub fn fault_line(
    role: Role,
    number: RefusalNumber,
    place: Place,
    out: &mut [u8],
) -> Result<usize, LineFault>
    ensures answer { result ≡ line_answer (fault_line role number.0 place.0) out.old }
    ensures left { out.new ≡ line_left (fault_line role number.0 place.0) out.old }
    ensures within { IfOk result (λ n. n ≤ 64) }
{
    put_line(role, number.0, b" at ", place.0, b"\n", out)
}

/// Writes the line that tells the counts of a listing at the start of `out`, and answers its length.
/// A buffer of under 64 bytes is refused, and left as it was.
pub fn count_line(role: Role, counts: Counts, out: &mut [u8]) -> Result<usize, LineFault>
    ensures answer { result ≡ line_answer (count_line role counts) out.old }
    ensures left { out.new ≡ line_left (count_line role counts) out.old }
    ensures within { IfOk result (λ n. n ≤ 64) }
{
    put_line(
        role,
        counts.blocks,
        b" blocks ",
        counts.wires,
        b" wires\n",
        out,
    )
}

// The line of the role's word, a space, `first`, `middle`, `second` and `end`.
fn number_line(role: Role, first: usize, middle: &[u8], second: usize, end: &[u8]) -> Line
    requires { (length middle.now ≤ 8) × (length end.now ≤ 7) }
    ensures line { result ≡ number_line role first middle.now second end.now }
    ensures short { length result ≤ 63 }
{
    let mut line = Line::new();
    line.text(role.word());
    line.byte(b' ');
    line.number(first);
    line.text(middle);
    line.number(second);
    line.text(end);
    line
}

// Writes the line of these parts at the start of `out`, and answers its length.
fn put_line(
    role: Role,
    first: usize,
    middle: &[u8],
    second: usize,
    end: &[u8],
    out: &mut [u8],
) -> Result<usize, LineFault>
    requires { (length middle.now ≤ 8) × (length end.now ≤ 7) }
    ensures answer { result ≡ line_answer (number_line role first middle.now second end.now) out.old }
    ensures left { out.new ≡ line_left (number_line role first middle.now second end.now) out.old }
    ensures within { IfOk result (λ n. n ≤ 64) }
{
    if out.len() < ROOM {
        return Err(LineFault::ShortBuffer);
    }
    Ok(number_line(role, first, middle, second, end).write(out))
}
