ghost use Rattle.std.specs.Prelude.{◌≡◌, ◌<◌, ◌≤◌, length, Some};
ghost use Rattle.lines.specs.GraphLines.{Short, block_line, graph_line, line_length, line_over, wire_line};
ghost use Rattle.listing.specs.Words.{block_tags};

use crate::line::Line;
use listing::word::Word;

/// How many bytes a buffer has: every line fits in them.
pub const GRAPH_LINE: usize = 80;

/// Writes line `index` of the graph that the words tell at the start of `out`, and answers its length.
/// Where there is no such line, `out` is left as it was.
pub fn graph_line(words: &[u32], index: usize, out: &mut [u8; GRAPH_LINE]) -> Option<usize>
    ensures answer { result ≡ line_length (graph_line words.now index) }
    ensures left { out.new ≡ line_over (graph_line words.now index) out.old }
    ensures within { Short result }
{
    let counts = Word(*words.first()?).counts();
    if index >= counts.blocks + counts.wires {
        return None;
    }
    let word = Word(*words.get(index + 1)?);
    if index < counts.blocks {
        Some(block_line(index, word, out))
    } else {
        Some(wire_line(word, out))
    }
}

// Writes the line of a block at the start of `out`, and answers its length.
fn block_line(number: usize, word: Word, out: &mut [u8; GRAPH_LINE]) -> usize
    requires { number < 65536 }
    ensures answer { result ≡ length (block_line number (block_tags word.0)) }
    ensures left { out.new ≡ line_over (Some (block_line number (block_tags word.0))) out.old }
    ensures short { result ≤ 80 }
{
    let mut line = Line::new();
    line.text(b"block ");
    line.number(number);
    line.text(b" tags");
    line.tags(word.tags());
    line.byte(b'\n');
    line.write(out)
}

// Writes the line of a wire at the start of `out`, and answers its length.
fn wire_line(word: Word, out: &mut [u8; GRAPH_LINE]) -> usize
    ensures answer { result ≡ length (wire_line word.0) }
    ensures left { out.new ≡ line_over (Some (wire_line word.0)) out.old }
    ensures short { result ≤ 80 }
{
    let mut line = Line::new();
    line.text(b"wire ");
    line.number(word.from());
    line.byte(b' ');
    line.number(word.to());
    line.text(b" type ");
    line.number(word.wire_type());
    line.byte(b'\n');
    line.write(out)
}
