// How names are looked up among the reserved words, written to standard output: with how many each is compared in full, and what it stands for.
#![tactic(auto)]

// The longest name here has one byte more than a name may have.
const LONGEST: usize = 33;

fn text(rt: &impl Print, s: &[u8]) {
    let _ = rt.write_all(s);
}

// A name, its number of comparisons, and the kind and value of a reserved word.
fn shown(rt: &impl Print, w: &[u8]) {
    let looked = x_spelling::look_up(w);
    text(rt, w);
    let _ = print!(rt; " {} ", looked.compared);
    let _ = match looked.found {
        Some(token) => println!(rt; "reserved {}:{}", token.kind, token.value),
        None => println!(rt; "name"),
    };
}

// A word's prefixes, itself the last.
fn prefixes(rt: &impl Print, w: &[u8]) {
    for n in 1..=w.len() {
        shown(rt, &w[..n]);
    }
}

// A word, and behind it one byte again and again, up to the longest name.
fn copied(w: &[u8], fill: u8) -> [u8; 33] {
    let mut name = [fill; 33];
    let n = w.len().min(LONGEST);
    name[..n].copy_from_slice(&w[..n]);
    name
}

// The number of comparisons of a name.
fn count(rt: &impl Print, name: &[u8]) {
    let _ = print!(rt; "{}", x_spelling::look_up(name).compared);
}

// A word with each character of a name in turn at a place, which is one of the word's own or the next.
fn varied(rt: &impl Print, w: &[u8], place: usize, n: usize) {
    let mut name = copied(w, b'?');
    if place < LONGEST && n <= LONGEST {
        name[place] = b'?';
        text(rt, &name[..n]);
        text(rt, b" ");
        for c in b"abcdefghijklmnopqrstuvwxyzABCDEFGHIJKLMNOPQRSTUVWXYZ0123456789_" {
            name[place] = *c;
            count(rt, &name[..n]);
        }
        text(rt, b"\n");
    }
}

// A word made longer by one byte after another, up to 33.
fn extended(rt: &impl Print, w: &[u8]) {
    let name = copied(w, b'_');
    text(rt, w);
    text(rt, b".. ");
    for n in w.len()..LONGEST {
        count(rt, &name[..n + 1]);
    }
    text(rt, b"\n");
}

// A word, its prefixes, the names of its length and first letter that differ in one byte, and its extensions.
fn family(rt: &impl Print, w: &[u8]) {
    prefixes(rt, w);
    for place in 1..w.len() {
        varied(rt, w, place, w.len());
    }
    if w.len() < LONGEST {
        varied(rt, w, w.len(), w.len() + 1);
        extended(rt, w);
    }
}

fn first_words(rt: &impl Print) {
    family(rt, b"and");
    family(rt, b"array");
    family(rt, b"do");
    family(rt, b"else");
    family(rt, b"false");
    family(rt, b"func");
    family(rt, b"if");
    family(rt, b"is");
    family(rt, b"not");
    family(rt, b"or");
}

fn last_words(rt: &impl Print) {
    family(rt, b"proc");
    family(rt, b"return");
    family(rt, b"skip");
    family(rt, b"stop");
    family(rt, b"then");
    family(rt, b"true");
    family(rt, b"val");
    family(rt, b"valof");
    family(rt, b"var");
    family(rt, b"while");
    family(rt, b"xor");
}

// Names without a candidate, and some that share length and letter with a reserved word in more than one byte.
fn others(rt: &impl Print) {
    shown(rt, b"");
    shown(rt, b"x");
    shown(rt, b"it");
    shown(rt, b"If");
    shown(rt, b"IS");
    shown(rt, b"size");
    shown(rt, b"tray");
    shown(rt, b"total");
    shown(rt, b"aisle");
    shown(rt, b"faulty");
    shown(rt, b"remove");
    shown(rt, b"vvvvvvvvvvvvvvvvvvvvvvvvvvvvvvvvv");
}

fn main(rt: HostRuntime) {
    text(&rt, b"a name, its comparisons, what it is\n");
    text(
        &rt,
        b"with ? for each of abcdefghijklmnopqrstuvwxyzABCDEFGHIJKLMNOPQRSTUVWXYZ0123456789_ in turn: a digit each\n",
    );
    text(
        &rt,
        b"with .. for one _ after another, up to 33 bytes: a digit each\n",
    );
    first_words(&rt);
    last_words(&rt);
    others(&rt);
}
