// The program `from_dimacs`: reads crosses.asn from the working folder, and writes the sheet of that DIMACS assignment text, or a refusal.
// Its stored run is the worked example's sheet of document 01 as an assignment text, with a comment and a blank line.
#![tactic(auto)]

mod output;

use files::FILE_BYTES;
use graph::LONGEST_TEXT;

fn main(rt: HostRuntime) {
    let mut crosses_buffer = [0u8; FILE_BYTES];
    let crosses = files::read(&rt, b"crosses.asn", &mut crosses_buffer);
    let mut out = [0u8; LONGEST_TEXT];
    let length = output::from_dimacs_output(crosses, &mut out);
    files::write(&rt, &out[..length]);
}
