// Document 01's sources, starred and others, and some near them, from their bytes: status, place, tokens, rows, data words, N and image bytes.
#![tactic(auto)]

use std::fmt;
use translate_source::Translation;

// Status, place, tokens, rows, data words, N and image bytes.
#[derive(Clone, Copy)]
struct Answer(Translation);

impl fmt::Display for Answer {
    fn fmt<W: fmt::Write>(&self, f: &mut fmt::Formatter<W>) -> fmt::Result {
        let t = &self.0;
        write!(
            f,
            "{} {} {} {} {} {} {}",
            t.status, t.place, t.tokens, t.rows, t.data, t.depth, t.code,
        )
    }
}

fn case(rt: &impl Print, source: &str) {
    let mut table = [0u32; 4096];
    let mut code = [0u8; 49408];
    let t = translate_source::translate(source.as_bytes(), &mut table, &mut code);
    let _ = println!(rt; "{source} -> {}", Answer(t));
}

// An update of a rule, into the rule's buffers: the answer, then the first row and the first halfword that stand there.
fn update(rt: &impl Print, rule: &str, source: &str) {
    let mut table = [7u32; 4096];
    let mut code = [7u8; 49408];
    translate_source::translate(rule.as_bytes(), &mut table, &mut code);
    let t = translate_source::translate(source.as_bytes(), &mut table, &mut code);
    let _ = print!(rt; "{source} instead of {rule} -> {}, then", Answer(t));
    for word in &table[..4] {
        let _ = print!(rt; " {word}");
    }
    for byte in &code[..2] {
        let _ = print!(rt; " {byte}");
    }
    let _ = println!(rt);
}

fn refusals_and_limits(rt: &impl Print) {
    case(rt, "var x; x := 2 + 3");
    case(rt, "");
    case(rt, "x := 1");
    case(rt, "{skip;}");
    case(rt, "skip");
    case(rt, "skip;");
    case(rt, "array a[0]; skip");
    case(rt, "array a[1]; skip");
    case(rt, "array a[8192]; skip");
    case(rt, "array a[8193]; skip");
    case(rt, "array a[true]; skip");
    case(rt, "array a[3]; skip");
    case(rt, "var nnnnnnnnnnnnnnnnnnnnnnnnnnnnnnnn; skip");
    case(rt, "var nnnnnnnnnnnnnnnnnnnnnnnnnnnnnnnnn; skip");
    case(rt, "var x; x := x - x - x");
    case(rt, "var x; x := x + x + x");
    case(rt, "var x; x := x + x * x");
}

fn others(rt: &impl Print) {
    case(rt, "{ |c| }");
    case(rt, "skip |c|");
    case(rt, "var x; x := |c| 1");
    case(rt, "|c| skip");
    case(rt, "val a = a; skip");
    case(rt, "var x; var x; skip");
    case(rt, "array a[b]; skip");
    case(rt, "var x; array a[8192]; skip");
    case(rt, "array a[4]; a := 1");
    case(rt, "array a[4]; a[4] := 1");
    case(rt, "var x; if x < 3 then x := 1 else stop");
    case(rt, "var x; while x do {skip; x := 0}");
    case(rt, "proc p; skip");
    case(rt, "var x; x := ' '");
    case(rt, "var x; x := '*''");
    case(rt, "var x; x := 4294967296");
    case(rt, "var x; x := #FFFFFFFF");
    case(rt, "val k = 3; var x; k := x");
}

fn main(rt: HostRuntime) {
    refusals_and_limits(&rt);
    others(&rt);
    update(&rt, "var x; x := 2 + 3", "x := 1");
    update(&rt, "var x; x := 2 + 3", "var x; x := 2 +");
    update(&rt, "var x; x := 2 + 3", "array a[3]; skip");
}
