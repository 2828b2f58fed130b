// The C boundary of the instructions' encoding: encode and decode by number. An archive of its own, since a run is fastest where it alone calls decode.
#![tactic(auto)]

ghost use Rattle.std.specs.Prelude.{◌≡◌};
ghost use Rattle.arm_encoding.specs.Encoding.{decode_of};
ghost use Rattle.gutilamboy_numbers.specs.Numbers as numbers;

use gutilamboy_numbers::{decoded_words, encoded_words, instruction};

// Into `out`: status, count, first and second halfword; a number that no instruction has is refused as a field out of range is.
#[unsafe(no_mangle)]
pub extern "C" fn gutilamboy_encode(op: u8, a: u8, b: u8, c: u8, k: u32, out: &mut [u32; 4])
    ensures { out.new ≡ numbers.encoded_words (numbers.numbered_encoding (numbers.instruction_of op a b c k)) }
{
    let Some(i) = instruction(op, a, b, c, k) else {
        *out = encoded_words(None);
        return;
    };
    *out = encoded_words(arm_encoding::encode(i));
}

// Into `out`: the instruction's number (34 for none), three fields, its distance.
#[unsafe(no_mangle)]
pub extern "C" fn gutilamboy_decode(first: u16, second: u16, out: &mut [u32; 5])
    ensures { out.new ≡ numbers.decoded_words (decode_of first second) }
{
    *out = decoded_words(arm_encoding::decode(first, second));
}
