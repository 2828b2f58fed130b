// Instructions written to a buffer, one at a time or a list of them, and those that load a constant.
#![tactic(auto)]

ghost use Rattle.std.specs.Prelude.{◌≡◌, [], ◌∷◌};
ghost use Rattle.translate_rules.specs.Constant.{load_constant};
ghost use Rattle.translate_emit_instructions.specs.Write.{Room, Wrote, Fits, Writes};

use arm_encoding::{Halfwords, Instr};

// One instruction at a place, and the place after it. If its encoding is refused nothing is written.
pub fn put(code: &mut [u8], at: usize, i: Instr) -> usize
    requires { Room code.old at (i ∷ []) }
    ensures { Wrote code.old at (i ∷ []) code.new result }
{
    match arm_encoding::encode(i) {
        None => at,
        Some(Halfwords::One(first)) => {
            let [low, high] = first.to_le_bytes();
            code[at] = low;
            code[at + 1] = high;
            at + 2
        }
        Some(Halfwords::Two(first, second)) => {
            let [low, high] = first.to_le_bytes();
            let [next_low, next_high] = second.to_le_bytes();
            code[at] = low;
            code[at + 1] = high;
            code[at + 2] = next_low;
            code[at + 3] = next_high;
            at + 4
        }
    }
}

// The image that is being written: the lent buffer, and the place of the next byte.
#[derive(Drop)]
pub struct Writer<'a> {
    pub code: &'a mut [u8],
    pub at: usize,
}

impl<'a> Writer<'a> {
    pub fn new(code: &'a mut [u8]) -> Writer<'a>
        ensures same { result.code.ghost_name ≡ code.entry.ghost_name }
        ensures whole { (result.code.now ≡ code.old) × (result.at ≡ 0) }
    {
        Writer { code, at: 0 }
    }

    pub fn put(&mut self, i: Instr)
        requires { Fits self.old (i ∷ []) }
        ensures { Writes self.old (i ∷ []) self.new }
    {
        self.at = put(self.code, self.at, i);
    }

    pub fn put_all(&mut self, instructions: &[Instr])
        requires { Fits self.old instructions.now }
        ensures { Writes self.old instructions.now self.new }
    {
        for i in instructions {
            self.put(*i);
        }
    }

    // Register d takes the word w.
    #[tactic(auto, using(translate_rules::specs::CodeLaws::constant_byte))]
    pub fn constant(&mut self, d: u8, w: u32)
        requires { Fits self.old (load_constant d w) }
        ensures { Writes self.old (load_constant d w) self.new }
    {
        if w < 256 {
            return self.put(Instr::Movi(d, w as u8));
        }
        let below = u32::trailing_zeros(w);
        if 24 <= u32::leading_zeros(w) + below {
            return self.put_all(&[
                Instr::Movi(d, (w >> below) as u8),
                Instr::Shli(below as u8, d, d),
            ]);
        }
        let [first, second, third, fourth] = w.to_be_bytes();
        self.put_all(&[
            Instr::Movi(d, first),
            Instr::Shli(8, d, d),
            Instr::Addi(d, second),
            Instr::Shli(8, d, d),
            Instr::Addi(d, third),
            Instr::Shli(8, d, d),
            Instr::Addi(d, fourth),
        ])
    }
}
