// An image's instructions as lines of text: address, halfwords, mnemonic and operands.
#![tactic(auto)]

ghost use Rattle.std.specs.Prelude.{◌≡◌, ◌++◌};
ghost use Rattle.text_lines.specs.Text.{written, fitted};
ghost use Rattle.text_disassembly.specs.Disassembly as spec;

use text_lines::Line;

// An address and a halfword.
fn located(at: u32, first: u16) -> Line
    ensures { written result ≡ fitted (spec.located at first) }
{
    Line::empty()
        .hexadecimal(at)
        .put(b' ')
        .hexadecimal(first as u32)
}

// The second halfword, if the first has one.
fn whole(line: Line, first: u16, second: u16) -> Line
    ensures { written result ≡ fitted (written line ++ spec.second first second) }
{
    if first < 0xF000 {
        return line;
    }
    line.put(b' ').hexadecimal(second as u32)
}

// The line of the instruction at an address, by the two halfwords there; of one that is not in document 01's list, only its first halfword.
pub fn line(at: u32, first: u16, second: u16) -> Line
    ensures { written result ≡ spec.line at first second }
{
    let head = located(at, first);
    match arm_encoding::decode(first, second) {
        None => head.put(b'\n'),
        Some(i) => {
            let halves = whole(head, first, second);
            text_mnemonic::instruction(halves.put(b' '), at, i).put(b'\n')
        }
    }
}

// The bytes that the line is of.
pub fn size(first: u16, second: u16) -> usize
    ensures { result ≡ spec.size first second }
{
    match arm_encoding::decode(first, second) {
        None => 2,
        Some(_) => if first < 0xF000 { 2 } else { 4 },
    }
}
