// The program `to_dimacs`: reads sheet.mtx and limits.mtx from the working folder, and writes the sheet as a DIMACS assignment text, or a refusal.
// Its stored run is a sheet of two rows and three columns, with weights above, below and at 0.
#![tactic(auto)]

mod output;

use files::FILE_BYTES;
use graph::LONGEST_TEXT;

fn main(rt: HostRuntime) {
    let mut sheet_buffer = [0u8; FILE_BYTES];
    let sheet = files::read(&rt, b"sheet.mtx", &mut sheet_buffer);
    let mut limits_buffer = [0u8; FILE_BYTES];
    let limits = files::read(&rt, b"limits.mtx", &mut limits_buffer);
    let mut out = [0u8; LONGEST_TEXT];
    let length = output::to_dimacs_output(sheet, limits, &mut out);
    files::write(&rt, &out[..length]);
}
