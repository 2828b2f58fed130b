// The archive libgutilamboy_codec.a: `gutilamboy_codec`'s functions for callers in C, each with its clause.
#![tactic(auto)]

ghost use Rattle.std.specs.Prelude.{◌≡◌};
ghost use Rattle.arm_encoding.specs.Encoding.{decode_of};
ghost use Rattle.gutilamboy_numbers.specs.Numbers as numbers;

#[unsafe(no_mangle)]
pub extern "C" fn gutilamboy_encode(op: u8, a: u8, b: u8, c: u8, k: u32, out: &mut [u32; 4])
    ensures { out.new ≡ numbers.encoded_words (numbers.numbered_encoding (numbers.instruction_of op a b c k)) }
{
    gutilamboy_codec::gutilamboy_encode(op, a, b, c, k, out)
}

#[unsafe(no_mangle)]
pub extern "C" fn gutilamboy_decode(first: u16, second: u16, out: &mut [u32; 5])
    ensures { out.new ≡ numbers.decoded_words (decode_of first second) }
{
    gutilamboy_codec::gutilamboy_decode(first, second, out)
}
