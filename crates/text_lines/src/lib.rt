// Lines of text: a line by value, and what can be added to its end.
#![tactic(auto)]

ghost use Rattle.std.specs.Prelude.{◌≡◌, [], ◌∷◌, ◌++◌, ◌<◌, length};
ghost use Rattle.text_lines.specs.Text as spec;
ghost use Rattle.text_lines.specs.Text.{written, fitted};

// The first `length` of the bytes; what does not fit is left out. An `ArrayVec` is no plainer: only its `as_slice` says that it has
// at most 128 bytes, which `fitted` needs, so that `Line` would need a ghost field beside it.
// It is moved: each method takes it and hands it on, so that a line is one chain of calls. Its digits are written by hand, since `written` is
// an equation with specs/Text and nothing here may fail, as `write!` may.
#[derive(Drop)]
pub struct Line {
    pub bytes: [u8; 128],
    pub length: usize,
}

// A digit of a base up to 16.
fn digit(d: u32) -> u8
    requires { d < 16 }
    ensures { result ≡ spec.digit d }
{
    if d < 10 {
        return (48 + d) as u8;
    }
    (55 + d) as u8
}

impl Line {
    pub fn empty() -> Line
        ensures { written result ≡ [] }
    {
        Line {
            bytes: [0; 128],
            length: 0,
        }
    }

    // One byte more.
    pub fn put(mut self, b: u8) -> Line
        ensures { written result ≡ fitted (written self ++ (b ∷ [])) }
    {
        if self.length < 128 {
            self.bytes[self.length] = b;
            self.length += 1;
        }
        self
    }

    // All bytes of a slice more.
    pub fn put_all(self, s: &[u8]) -> Line
        ensures { written result ≡ fitted (written self ++ s.now) }
    {
        let mut line = self;
        for b in s {
            line = line.put(*b);
        }
        line
    }

    // Four hexadecimal digits, of the number's low halfword.
    pub fn hexadecimal(self, n: u32) -> Line
        ensures { written result ≡ fitted (written self ++ spec.hexadecimal n) }
    {
        let one = self.put(digit(n / 4096 % 16));
        let two = one.put(digit(n / 256 % 16));
        let three = two.put(digit(n / 16 % 16));
        three.put(digit(n % 16))
    }

    // A number of up to 64 bits in base 10.
    pub fn long_decimal(self, n: u64) -> Line
        ensures { written result ≡ fitted (written self ++ spec.long_decimal n) }
    {
        if n < 10 {
            return self.put(digit(n as u32));
        }
        self.long_decimal(n / 10).put(digit((n % 10) as u32))
    }

    // A word in base 10.
    pub fn decimal(self, n: u32) -> Line
        ensures { written result ≡ fitted (written self ++ spec.decimal n) }
    {
        self.long_decimal(u64::from(n))
    }

    // A line of the report: a name with its `=`, the number, a line feed.
    pub fn entry(self, name: &[u8], n: u32) -> Line
        ensures { written result ≡ fitted (written self ++ spec.entry name.now n) }
    {
        self.put_all(name).decimal(n).put(b'\n')
    }
}

// What a translation answers: the seven numbers of the report. Not `Translation` of translate_source: this crate stands below that one.
#[derive(Clone, Copy)]
pub struct Answer {
    pub status: u32,
    pub place: u32,
    pub tokens: u32,
    pub rows: u32,
    pub data: u32,
    pub depth: u32,
    pub code: u32,
}

// The seven lines of the report.
pub fn summary(n: Answer) -> Line
    ensures { written result ≡ spec.summary n.status n.place n.tokens n.rows n.data n.depth n.code }
{
    Line::empty()
        .entry(b"status=", n.status)
        .entry(b"place=", n.place)
        .entry(b"tokens=", n.tokens)
        .entry(b"rows=", n.rows)
        .entry(b"data=", n.data)
        .entry(b"depth=", n.depth)
        .entry(b"code=", n.code)
}
