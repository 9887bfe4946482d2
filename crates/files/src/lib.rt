// Reads files by name, and writes to standard output.
#![tactic(auto)]

ghost use Rattle.std.specs.Prelude.{◌≤◌, length};
ghost use Rattle.io.specs.Counts.{IsPrefixLen};

use graph::LONGEST_TEXT;
use std::io::Read;
use std::rt::Files;
use std::{fs, str};

// Room for a file that is to hold a text: one byte more than a text may have, so that a longer file is seen to be too long.
pub const FILE_BYTES: usize = LONGEST_TEXT + 1;

// Reads from the input until it ends or `out` is full. The result is how many bytes came, or 0 if a read fails.
fn read_all<R: Read>(input: &mut R, out: &mut [u8]) -> usize
    ensures { IsPrefixLen result out.new }
{
    let mut done = 0;
    while done < out.len() {
        let count = match input.read(&mut out[done..]) {
            Ok(count) => count,
            Err(_) => return 0,
        };
        if count == 0 {
            return done;
        }
        done += count;
    }
    done
}

// Reads a file from its start until it ends or `buffer` is full. The result is the bytes that came: none if the file is absent or cannot be read.
pub fn read<'a, R: Files>(rt: &R, path: &[u8], buffer: &'a mut [u8]) -> &'a [u8]
    ensures { length result.now ≤ length buffer.old }
{
    let Ok(name) = str::from_utf8(path) else {
        return &[];
    };
    let count = match fs::open(rt, name) {
        Ok(mut file) => read_all(&mut file, buffer),
        Err(_) => 0,
    };
    &buffer[..count]
}

// Writes bytes to standard output, and tells standard error where that fails.
pub fn write<R: Print + Eprint>(rt: &R, bytes: &[u8]) {
    if let Err(error) = rt.write_all(bytes) {
        let _told = eprintln!(rt; "standard output: {error}");
    }
}
