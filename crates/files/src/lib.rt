// A file of the folder in which a program is run. Document 01: "an unreadable file is empty".
#![tactic(auto)]

ghost use Rattle.std.specs.Prelude.{◌≤◌, ◌+◌, length, IfOk};
ghost use Rattle.io.specs.Counts.{IsPrefixLen};

use std::fs::File;
use std::io;
use std::io::Read;
use std::rt::Files;

// One read into the buffer from a place on: how many bytes it put there, 0 at the end of the file; an error where it failed.
fn read_on<F: Read>(file: &mut F, buffer: &mut [u8], at: usize) -> io::Result<usize>
    requires { at ≤ length buffer.old }
    ensures { IfOk result (λ more. at + more ≤ length buffer.new) }
{
    file.read(&mut buffer[at..])
}

// How many bytes are read until the buffer is full or the file ends. A read that fails ends it, whatever came before it. So it is a loop of its
// own, and it steps by what a read gave: no `for` does.
fn read_whole<F: Read>(file: &mut F, buffer: &mut [u8]) -> io::Result<usize>
    ensures { IfOk result (λ n. IsPrefixLen n buffer.new) }
{
    let mut n: usize = 0;
    while n < buffer.len() {
        let more = read_on(file, buffer, n)?;
        if more == 0 {
            break;
        }
        n += more;
    }
    Ok(n)
}

// Puts a file at the front of the buffer, and answers how many bytes it has; of one with more bytes than there is room for, the first ones. A file
// that cannot be opened or read is empty, as is one whose name is not UTF-8.
pub fn load<R: Files>(rt: &R, name: &[u8], buffer: &mut [u8]) -> usize
    ensures { IsPrefixLen result buffer.new }
{
    let Ok(path) = str::from_utf8(name) else {
        return 0;
    };
    let Ok(mut file) = File::open(rt, path) else {
        return 0;
    };
    read_whole(&mut file, buffer).unwrap_or(0)
}
