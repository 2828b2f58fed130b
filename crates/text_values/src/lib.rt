// The words of a program's data by name, a line each.
#![tactic(auto)]

ghost use Rattle.std.specs.Prelude.{◌≡◌, ◌++◌, get_or};
ghost use Rattle.arm_word.specs.Ascii.{ascii};
ghost use Rattle.text_lines.specs.Text as text;
ghost use Rattle.text_lines.specs.Text.{written};
ghost use Rattle.text_buffer.specs.Buffer.{left, placed};
ghost use Rattle.text_values.specs.Values as spec;

use arm_word::word_at;
use text_buffer::{append, append_line};
use text_lines::Line;

// A name with what stands behind it.
pub fn put_line(out: &mut [u8], at: usize, name: &[u8], tail: Line) -> usize
    ensures { left out.new result ≡ placed out.old at (name.now ++ written tail) }
{
    let named = append(out, at, name);
    append_line(out, named, tail)
}

// What stands behind the name of a var.
fn variable_tail(w: u32) -> Line
    ensures { written result ≡ text.entry (ascii "=") w }
{
    Line::empty().entry(b"=", w)
}

// What stands behind the name of an array, for element i.
fn element_tail(i: u32, w: u32) -> Line
    ensures { written result ≡ spec.subscripted i w }
{
    Line::empty().put(b'[').decimal(i).entry(b"]=", w)
}

// The line of a var whose word is word k.
pub fn variable(out: &mut [u8], at: usize, words: &[u32], k: u32, name: &[u8]) -> usize
    ensures { left out.new result ≡ placed out.old at (spec.variable_line name.now (get_or words.now k 0)) }
{
    put_line(out, at, name, variable_tail(word_at(words, k as usize)))
}

// The lines of the n elements of an array whose words begin at word `first`.
pub fn elements(out: &mut [u8], at: usize, words: &[u32], first: u32, n: u32, name: &[u8]) -> usize
    ensures { left out.new result ≡ placed out.old at (spec.element_lines words.now first name.now n) }
{
    let mut end = at;
    for i in 0..n {
        let w = word_at(words, first as usize + i as usize);
        end = put_line(out, end, name, element_tail(i, w));
    }
    end
}
