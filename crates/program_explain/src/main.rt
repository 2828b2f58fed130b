// The program for rule authors: a source from standard input; its sizes and names to standard output, or where and why it is refused.
//
// Proved: what is handed to `program_console::write` is the explanation, whole, of the bytes that `program_console::read` counted (what `write` requires).
// Trusted, and held to the stored output: `program_console`, and that `main` reads into 16,385 bytes and calls `answer` once, or names on
// standard error what failed.
#![tactic(auto)]

ghost use Rattle.std.specs.Prelude.{◌≡◌, ◌≤◌, length};
ghost use Rattle.text_explain.specs.Explain.{explain_of, explain_limit};

use std::io;
use std::process::ExitCode;

const NO_INPUT: &str = "explain: standard input could not be read";

const NO_OUTPUT: &str = "explain: standard output could not be written";

// Writes the explanation of a source: all of it was taken, or why not. The source is there for the contract alone.
fn write(rt: &impl Print, source: &[u8], text: &[u8]) -> io::Result<()>
    requires { text.now ≡ explain_of source.now }
{
    program_console::write(rt, text)
}

// The text goes through a buffer with room for every explanation.
fn answer(rt: &impl Print, source: &[u8], text: &mut [u8]) -> io::Result<()>
    requires { explain_limit ≤ length text.old }
{
    let end = text_explain::explain(source, text);
    write(rt, source, &text[..end])
}

fn main(rt: HostRuntime) -> ExitCode {
    // One byte more than a source may have, so that a longer one is seen to be longer.
    let mut source = [0u8; 16385];
    let n = match program_console::read(&rt, &mut source) {
        Ok(n) => n,
        Err(why) => return program_console::fail(&rt, NO_INPUT, why),
    };
    let mut text = [0u8; 69888];
    match answer(&rt, &source[..n], &mut text) {
        Ok(()) => ExitCode::SUCCESS,
        Err(why) => program_console::fail(&rt, NO_OUTPUT, why),
    }
}
