// Standard input, output and error, for the programs.
//
// No contract can say which bytes the system hands over or takes. Trusted here, and tested by the programs' stored outputs: that
// `read` leaves the input's first bytes, in order, at the front of the buffer, and fails exactly where a read of the system does; that
// `write` answers Ok exactly where the system took every byte, in order. A read that a signal interrupts counts as failed: the
// programs have no handlers, so none does.
#![tactic(auto)]

ghost use Rattle.program_console.specs.Input.{Within};

use std::io;
use std::io::{ErrorKind, Read};
use std::process::ExitCode;

// Standard input to the front of a lent buffer, until this is full or the input ends: how many bytes were read, or why a read failed.
pub fn read(rt: &impl io::Input, buffer: &mut [u8]) -> io::Result<usize>
    ensures { Within result buffer.new }
{
    let mut reader = rt.reader();
    let mut done = 0;
    // A `while`, since a read takes as many bytes as the system has.
    while done < buffer.len() {
        let n = reader.read(&mut buffer[done..])?;
        if n == 0 {
            break;
        }
        done += n;
    }
    Ok(done)
}

// A text to standard output: whether all of it was taken, or why not.
pub fn write(rt: &impl Print, text: &[u8]) -> io::Result<()> {
    rt.write_all(text)
}

// The exit status that a shell gives a program which SIGPIPE ended.
const NOBODY_READS: u8 = 128 + 13;

// A line on standard error: what failed, and the system's text for why; the exit status stays 0. Of an output that nobody reads nothing is told:
// writing to it used to end the process by SIGPIPE, which the runtime holds back, so the exit status is the one that a shell gave then.
pub fn fail(rt: &impl Eprint, what: &str, why: io::Error) -> ExitCode {
    if why.kind() == ErrorKind::BrokenPipe {
        return ExitCode::from(NOBODY_READS);
    }
    let _ = eprintln!(rt; "{what}: {why}");
    ExitCode::SUCCESS
}
