// Line and column of a place of a source, and its line as it is shown, with a caret below the place.
#![tactic(auto)]

ghost use Rattle.std.specs.Prelude.{◌≡◌, ◌==◌, not, ◌++◌, map, ◌+◌, ◌≤◌, ◌<◌, min, length, take, count_by};
ghost use Rattle.std.specs.List.{prefix_len, suffix_len};
ghost use Rattle.text_lines.specs.Text.{written, fitted};
ghost use Rattle.text_position.specs.Position as spec;
ghost use Rattle.text_position.specs.Position.{left_of, shown_line, caret_line};

use text_lines::Line;

const LINE_FEED: u8 = 10;

const WIDTH: usize = 72;

const HALF_WIDTH: usize = 36;

// How many line feeds there are.
fn feeds(s: &[u8]) -> usize
    ensures value { result ≡ count_by (λ b. b == 10) s.now }
    ensures within { result ≤ length s.now }
{
    s.iter().filter(|b| **b == LINE_FEED).count()
}

// How many bytes stand after the last line feed.
fn since(s: &[u8]) -> usize
    ensures value { result ≡ suffix_len (λ b. not (b == 10)) s.now }
    ensures within { result ≤ length s.now }
{
    s.iter().rev().take_while(|b| **b != LINE_FEED).count()
}

// How many bytes stand before the first line feed.
fn until(s: &[u8]) -> usize
    ensures value { result ≡ prefix_len (λ b. not (b == 10)) s.now }
    ensures within { result ≤ length s.now }
{
    s.iter().take_while(|b| **b != LINE_FEED).count()
}

// How many lines end before the place.
pub fn lines_before(source: &[u8], place: usize) -> usize
    ensures { (result ≡ spec.feeds (take place source.now)) × (result ≤ place) }
{
    feeds(&source[..place.min(source.len())])
}

// How many bytes of its line stand before the place.
pub fn left_of(source: &[u8], place: usize) -> usize
    ensures { (result ≡ left_of source.now place) × (result ≤ place) }
{
    since(&source[..place.min(source.len())])
}

// How many columns are cut off at the left.
fn cut(left: usize) -> usize
    ensures { (result ≡ spec.cut left) × (result ≤ left) }
{
    if left < WIDTH { 0 } else { left - HALF_WIDTH }
}

// A byte as it is shown.
fn shown(b: u8) -> u8
    ensures { result ≡ spec.shown b }
{
    match b {
        b'\t' | b'\r' => b' ',
        b' '..=b'~' => b,
        _ => b'?',
    }
}

// All bytes of a slice as they are shown, added to a line.
fn put_shown(line: Line, s: &[u8]) -> Line
    ensures { written result ≡ fitted (written line ++ map spec.shown s.now) }
{
    let mut l = line;
    for b in s {
        l = l.put(shown(*b));
    }
    l
}

// So many spaces, added to a line.
pub fn put_spaces(line: Line, n: usize) -> Line
    ensures { written result ≡ fitted (written line ++ spec.spaces n) }
{
    let mut l = line;
    for _ in 0..n {
        l = l.put(b' ');
    }
    l
}

// Where the part that is shown ends.
fn shown_end(from: usize, end: usize) -> usize
    requires { from ≤ end }
    ensures { result ≡ min (from + spec.width) end }
{
    from + WIDTH.min(end - from)
}

// The place's line, as much of it as is shown, and a line feed.
pub fn shown_line(source: &[u8], place: usize) -> Line
    ensures { written result ≡ shown_line source.now place }
{
    let at = place.min(source.len());
    let left = since(&source[..at]);
    let right = until(&source[at..]);
    let off = cut(left);
    let from = at - left + off;
    let end = shown_end(from, at + right);
    put_shown(Line::empty(), &source[from..end]).put(LINE_FEED)
}

// A caret below the place's column, and a line feed.
pub fn caret_line(source: &[u8], place: usize) -> Line
    ensures { written result ≡ caret_line source.now place }
{
    let left = left_of(source, place);
    put_spaces(Line::empty(), left - cut(left))
        .put(b'^')
        .put(LINE_FEED)
}
