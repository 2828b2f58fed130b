// The explanation of a source, for rule authors: sizes and names of an accepted one, place and reason of a refused one.
#![tactic(auto)]

ghost use Rattle.std.specs.Prelude.{◌≡◌, ◌≤◌, min, length};
ghost use Rattle.text_lines.specs.Text.{written};
ghost use Rattle.text_buffer.specs.Buffer.{left, placed, overwritten};
ghost use Rattle.text_names.specs.Tokens.{IsAccepted};
ghost use Rattle.text_explain.specs.Explain as spec;
ghost use Rattle.text_explain.specs.Explain.{explain_of};
ghost use Rattle.text_explain.specs.ExplainLaws.{Small};

use text_buffer::{append, append_line};
use text_lines::Line;
use translate_source::Translation;
use x_tokens::refusal::Reason;

// The sizes of an accepted source, a line each.
fn sizes(t: Translation) -> Line
    requires { Small t }
    ensures { written result ≡ spec.sizes t }
{
    Line::empty()
        .put_all(b"accepted\n")
        .entry(b"tokens: ", t.tokens)
        .entry(b"data words: ", t.data)
        .entry(b"needed words: ", t.data + 2 * t.depth + 8)
        .entry(b"image bytes: ", t.code)
}

// An accepted source: its sizes and its names.
fn put_accepted(source: &[u8], t: Translation, out: &mut [u8]) -> usize
    requires { Small t × IsAccepted source.now }
    ensures { left out.new result ≡ placed out.old 0 (spec.accepted_text source.now t) }
{
    let sized = append_line(out, 0, sizes(t));
    let headed = append(out, sized, b"\nsort   first  words  name\n");
    text_names::lines(source, out, headed)
}

// Numbers whose refusal concerns the source as a whole. By number, as `Translation` and `spec.placeless` have it.
#[tactic(auto, unfolding(crate::specs::Explain::placeless))]
fn placeless(n: u32) -> bool
    ensures { result ≡ spec.placeless n }
{
    n == Reason::LongSource as u32
        || n == Reason::DeepProgram as u32
        || Reason::ShortTable as u32 <= n
}

// Line and column of a place.
fn place_line(source: &[u8], place: u32) -> Line
    requires { place ≤ 16384 }
    ensures { written result ≡ spec.place_line source.now place }
{
    let at = place as usize;
    let line = text_position::lines_before(source, at) as u32 + 1;
    let column = text_position::left_of(source, at) as u32 + 1;
    Line::empty()
        .put_all(b"refused: line ")
        .decimal(line)
        .entry(b", column ", column)
}

// Line and column, the line, and a caret below the place.
fn put_place(source: &[u8], place: u32, out: &mut [u8]) -> usize
    requires { place ≤ 16384 }
    ensures { left out.new result ≡ placed out.old 0 (spec.place_text source.now place) }
{
    let at = place as usize;
    let lined = append_line(out, 0, place_line(source, place));
    let shown = append_line(out, lined, text_position::shown_line(source, at));
    append_line(out, shown, text_position::caret_line(source, at))
}

// A refused source: its place, where the number has one, and the reason.
fn put_refused(source: &[u8], n: u32, place: u32, out: &mut [u8]) -> usize
    requires { place ≤ 16384 }
    ensures { left out.new result ≡ placed out.old 0 (spec.refused_text source.now n place) }
{
    if placeless(n) {
        let said = append(out, 0, b"refused\n");
        return text_refusal::reason(source, n, place, out, said);
    }
    let shown = put_place(source, place, out);
    text_refusal::reason(source, n, place, out, shown)
}

// The text goes to the front of the lent buffer, as far as it fits; the answer is how many bytes of it do.
pub fn explain(source: &[u8], out: &mut [u8]) -> usize
    ensures { (result ≡ min (length (explain_of source.now)) (length out.old)) × (out.new ≡ overwritten out.old (explain_of source.now)) }
{
    let mut table = [0u32; 4096];
    let mut code = [0u8; 49408];
    let t = translate_source::translate(source, &mut table, &mut code);
    if t.status == 0 {
        return put_accepted(source, t, out);
    }
    put_refused(source, t.status, t.place, out)
}
