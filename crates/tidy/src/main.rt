// The program `tidy`: reads sheet.mtx from the working folder, and writes it in its tidy form, or a refusal.
// Its stored run is the worked example's sheet of document 01 in another order, with comments and blanks.
#![tactic(auto)]

mod output;

use files::FILE_BYTES;
use graph::LONGEST_TEXT;

fn main(rt: HostRuntime) {
    let mut sheet_buffer = [0u8; FILE_BYTES];
    let sheet = files::read(&rt, b"sheet.mtx", &mut sheet_buffer);
    let mut out = [0u8; LONGEST_TEXT];
    let length = output::tidy_output(sheet, &mut out);
    files::write(&rt, &out[..length]);
}
