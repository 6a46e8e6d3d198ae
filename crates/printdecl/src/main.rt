// Reads a file with a declaration's encoding from standard input, and prints the declaration, or `refused` and a number (`file::print_file`).
//
// A failure to read or to write is told by a line on standard error and by the exit status 1. Else nothing is written there, and the status is
// 0: a refusal is no failure, since it was printed.
#![tactic(auto)]

ghost use Rattle.std.specs.Io.{ReadsAtMost};

use std::io;
use std::io::Read;
use std::process::ExitCode;

// One byte more than the longest file that a header can describe: of a longer one no more is needed (`long-file`, in file's proofs).
const MOST_READ: usize = 57357;

// Reads until `bytes` is full or the input ends. The answer is how many bytes were read.
fn read_input(input: &mut impl Read, bytes: &mut [u8]) -> io::Result<usize>
    ensures { ReadsAtMost result bytes.new }
{
    let mut done = 0;
    // Kept: `while`, since each read says how far it came; `read_exact` says nothing of where an input ends early.
    while done < bytes.len() {
        let more = input.read(&mut bytes[done..])?;
        if more == 0 {
            break;
        }
        done += more;
    }
    Ok(done)
}

// Says what failed. The status tells it too, so nothing is lost where this cannot be written.
fn say(rt: &impl Eprint, what: &str) -> ExitCode {
    let _ = rt.eprintln(what);
    ExitCode::FAILURE
}

// Prints what a file gives.
fn answer(rt: &(impl Print + Eprint), file: &[u8]) -> ExitCode {
    let mut out = [0u8; 65537];
    let n = file::print_file(file, &mut out);
    match rt.write_all(&out[..n]) {
        Ok(()) => ExitCode::SUCCESS,
        Err(_) => say(rt, "printdecl: cannot write the answer"),
    }
}

fn main(rt: HostRuntime) -> ExitCode {
    let mut bytes = [0u8; MOST_READ];
    // A read that fails is told from the end of the input, so that what came before it is not taken for a file.
    match read_input(&mut rt.stdin(), &mut bytes) {
        Ok(n) => answer(&rt, &bytes[..n]),
        Err(_) => say(&rt, "printdecl: cannot read the input"),
    }
}
