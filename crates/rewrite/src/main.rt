// The program `rewrite`: reads old.mtx from the working folder, and writes it with its numbers in the one way, or the line `cannot read`.
// Its stored run is the worked example's sheet of document 01 in old spellings.
#![tactic(auto)]

mod output;

use files::FILE_BYTES;
use graph::LONGEST_TEXT;

fn main(rt: HostRuntime) {
    let mut old_buffer = [0u8; FILE_BYTES];
    let old = files::read(&rt, b"old.mtx", &mut old_buffer);
    let mut out = [0u8; LONGEST_TEXT];
    let length = output::rewrite_output(old, &mut out);
    files::write(&rt, &out[..length]);
}
