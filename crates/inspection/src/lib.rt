// What `inspect` prints: a line for each of two files.
#![tactic(auto)]

ghost use Rattle.std.specs.Prelude.{◌≡◌, ◌≤◌, ◌++◌, length, IfOk};
ghost use Rattle.lines.specs.GraphLines.{line_length, line_over, Short};
ghost use Rattle.lines.specs.Lines.{line_answer, line_left};
ghost use Rattle.inspection.specs.Printouts.{file_line, file_graph_line, printout, overwritten};

use lines::fault::LineFault;
use lines::graph::{GRAPH_LINE, graph_line};
use lines::role::Role;
use lines::write::{ROOM, count_line, fault_line};
use listing::file::{FILE_WORDS, check_file};
use refusal::{Place, Refusal};

/// How many bytes the printout of two files has at most.
pub const PRINTOUT: usize = 2 * ROOM;

/// Writes the line of a file with these bytes: its counts, or its first fault. Answers the line's length.
/// A buffer of under 64 bytes is refused, and left as it was.
pub fn file_line(role: Role, bytes: &[u8], out: &mut [u8]) -> Result<usize, LineFault>
    ensures answer { result ≡ line_answer (file_line role bytes.now) out.old }
    ensures left { out.new ≡ line_left (file_line role bytes.now) out.old }
    ensures within { IfOk result (λ n. n ≤ 64) }
{
    let mut memory = [0; FILE_WORDS];
    let checked = check_file(bytes, &mut memory);
    let Ok(counts) = checked else {
        let refusal = Refusal::from(checked.unwrap_err());
        return fault_line(role, refusal.number, refusal.place.unwrap_or(Place(0)), out);
    };
    count_line(role, counts, out)
}

/// Writes all that `inspect` prints for two files with these bytes, the pattern's line first. Answers its length.
/// The bytes after it are left as they were.
pub fn inspect(pattern: &[u8], program: &[u8], out: &mut [u8; PRINTOUT]) -> usize
    ensures answer { result ≡ length (printout pattern.now program.now) }
    ensures left { out.new ≡ overwritten (printout pattern.now program.now) out.old }
    ensures within { result ≤ 128 }
{
    let first = file_line(Role::Pattern, pattern, out).unwrap();
    let second = file_line(Role::Program, program, &mut out[first..PRINTOUT]).unwrap();
    first + second
}

/// Writes one line of the graph that a file with these bytes holds, and answers its length: the lines of the blocks come
/// first, then those of the wires. Where there is no such line, or the file is refused, nothing is written.
pub fn file_graph_line(bytes: &[u8], index: usize, out: &mut [u8; GRAPH_LINE]) -> Option<usize>
    ensures answer { result ≡ line_length (file_graph_line bytes.now index) }
    ensures left { out.new ≡ line_over (file_graph_line bytes.now index) out.old }
    ensures within { Short result }
{
    let mut memory = [0; FILE_WORDS];
    let counts = check_file(bytes, &mut memory).ok()?;
    graph_line(&memory[0..counts.blocks + counts.wires + 2], index, out)
}
