// Texts one after another in a lent buffer, as far as there is room. The place is an argument beside the buffer and the answer, not a field of
// a writer: one equation with `placed` says all, where a writer that lends the buffer on needs a second clause in each function, that it is the
// same buffer; and `reason` of text_refusal and `lines` of text_names keep their signatures.
#![tactic(auto)]

ghost use Rattle.std.specs.Prelude.{◌≡◌};
ghost use Rattle.text_lines.specs.Text.{written};
ghost use Rattle.text_buffer.specs.Buffer.{placed, left};

use text_lines::Line;

// A text from a place of the buffer on, as far as it fits, and the place after it.
pub fn append(out: &mut [u8], at: usize, text: &[u8]) -> usize
    ensures { left out.new result ≡ placed out.old at text.now }
{
    if out.len() <= at {
        return at;
    }
    let n = text.len().min(out.len() - at);
    let end = at + n;
    out[at..end].copy_from_slice(&text[..n]);
    end
}

// The same of what a line holds.
pub fn append_line(out: &mut [u8], at: usize, line: Line) -> usize
    ensures { left out.new result ≡ placed out.old at (written line) }
{
    let length = line.length.min(128);
    append(out, at, &line.bytes[..length])
}
