// The listing of a source: the lines of its image, or its report where it is refused.
#![tactic(auto)]

ghost use Rattle.std.specs.Prelude.{◌≡◌, ◌<◌, ◌≤◌, min, length};
ghost use Rattle.arm_machine.specs.Step.{half_at};
ghost use Rattle.text_disassembly.specs.ImageLines.{text_from};
ghost use Rattle.text_buffer.specs.Buffer.{left, placed, overwritten};
ghost use Rattle.text_listing.specs.Listing.{listing_of};

use arm_word::entry_or;
use text_buffer::append_line;

// Two bytes of the image, the lower first; 0 past its end.
fn halfword(image: &[u8], at: usize) -> u16
    requires { at < 65540 }
    ensures { result ≡ half_at image.now at }
{
    u16::from_le_bytes([entry_or(image, at, 0), entry_or(image, at + 1, 0)])
}

// The lines of an image, from its first instruction to its last. A `while`, since an instruction has one halfword or two.
fn image_lines(image: &[u8], out: &mut [u8]) -> usize
    requires { length image.now ≤ 65536 }
    ensures { left out.new result ≡ placed out.old 0 (text_from 0 image.now) }
{
    let mut at = 0;
    let mut end = 0;
    while at < image.len() {
        let first = halfword(image, at);
        let second = halfword(image, at + 2);
        end = append_line(out, end, text_disassembly::line(at as u32, first, second));
        at += text_disassembly::size(first, second);
    }
    end
}

// The text goes to the front of the lent buffer, as far as it fits; the answer is how many bytes of it do.
pub fn listing(source: &[u8], out: &mut [u8]) -> usize
    ensures { (result ≡ min (length (listing_of source.now)) (length out.old)) × (out.new ≡ overwritten out.old (listing_of source.now)) }
{
    let mut table = [0u32; 4096];
    let mut code = [0u8; 49408];
    let t = translate_source::translate(source, &mut table, &mut code);
    if t.status != 0 {
        return append_line(out, 0, text_report::answer_lines(t));
    }
    let n = t.code as usize;
    image_lines(&code[..n], out)
}
