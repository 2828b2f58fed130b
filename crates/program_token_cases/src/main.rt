// Sources of document 01 and of docs/DECISIONS.md as tokens (kind:place:value) or as a refusal, written to standard output.
#![tactic(auto)]

// The first n tokens.
fn all(rt: &impl Print, kinds: &[u8], places: &[u32], values: &[u32], n: usize) {
    for ((kind, place), value) in kinds.iter().zip(places).zip(values).take(n) {
        let _ = print!(rt; " {kind}:{place}:{value}");
    }
}

fn case(rt: &impl Print, source: &str) {
    let mut kinds = [0u8; 1024];
    let mut places = [0u32; 1024];
    let mut values = [0u32; 1024];
    let answer = x_tokens::tokens(source.as_bytes(), &mut kinds, &mut places, &mut values);
    let _ = print!(rt; "{source} ->");
    match answer {
        Err(refusal) => {
            let _ = print!(rt;
                " refused {} at {}",
                u32::from(refusal.reason),
                refusal.place
            );
        }
        Ok(n) => all(rt, &kinds, &places, &values, n),
    }
    let _ = println!(rt);
}

fn numbers(rt: &impl Print) {
    case(rt, "2147483647 0000000000000000002147483647");
    case(rt, "2147483648");
    case(rt, "#FFFFFFFF #00000000000ffffffff");
    case(rt, " #100000000");
    case(rt, "#");
    case(rt, "12ab #1else");
    case(rt, "true false");
}

fn literals(rt: &impl Print) {
    case(rt, "'a' '*c' '*n' '*t' '*s' '*'' '*\"' '**' '*#4a' '*#4A'");
    case(rt, "' '");
    case(rt, "'|'");
    case(rt, "''");
    case(rt, "'''");
    case(rt, "'*'");
    case(rt, "'\"'");
    case(rt, "'$'");
    case(rt, "'*C'");
    case(rt, "'*#4g'");
}

fn main(rt: HostRuntime) {
    case(&rt, "var x; x := 2 + 3");
    case(&rt, "{skip;}");
    case(&rt, "");
    case(&rt, "a<<=b<>c<=d>=e>>f<g>h");
    case(
        &rt,
        "and array do else func if is not or proc return skip stop then val valof var while xor",
    );
    case(&rt, "|a ; comment| skip");
    case(&rt, "skip |open");
    case(&rt, "a : b");
    case(&rt, "_a");
    case(&rt, "abcdefghijklmnopqrstuvwxyz012345");
    case(&rt, "abcdefghijklmnopqrstuvwxyz0123456");
    numbers(&rt);
    literals(&rt);
}
