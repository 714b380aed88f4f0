// The shift check: a task file from standard input, its text to standard output.
#![tactic(auto)]

ghost use Rattle.std.specs.Prelude.{◌≤◌, length, IfOk};

use file_entries::limits::BYTES;
use std::io::{self, Read, Stdin, Write};
use text_shift::TEXT;

// Reads the input in whatever pieces it comes, until it ends or the buffer is full, and tells how many bytes were read.
// `read_exact` does not tell how many there were, and `read_to_end` asks for memory: so a loop, whose step is what was read.
fn read_file(input: &mut Stdin, file: &mut [u8]) -> io::Result<usize>
    ensures { IfOk result (λ n. n ≤ length file.new) }
{
    let mut at: usize = 0;
    while at < file.len() {
        let rest = &mut file[at..];
        let n = input.read(rest)?;
        if n == 0 {
            break;
        }
        at += n;
    }
    Ok(at)
}

// Writes the text of a file. The two lists are used again for each table.
fn write_text(rt: &HostRuntime, file: &[u8]) -> io::Result<()> {
    // "two lists as 4,096 zero words each"
    let mut map = [0u32; 4096];
    let mut pins = [0u32; 4096];
    let mut text = [0u8; TEXT];
    let n = text_shift::shift_text(file, &mut map, &mut pins, &mut text);
    match rt.stdout().write_all(&text[..n]) {
        Ok(()) => Ok(()),
        Err(error) => eprintln!(rt; "standard output: {error}"),
    }
}

// The buffer has one byte more than a file may have, so that a file that is too long is seen to be.
// Where reading fails there is no verdict.
fn main(rt: HostRuntime) -> io::Result<()> {
    let mut file = [0u8; BYTES + 1];
    match read_file(&mut rt.stdin(), &mut file) {
        Ok(n) => write_text(&rt, &file[..n]),
        Err(error) => eprintln!(rt; "standard input: {error}"),
    }
}
