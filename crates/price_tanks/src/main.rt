// The program `price_tanks`: reads sheet.mtx and limits.mtx from the working folder, and writes the prices of a one-sided (tank) sheet, or a refusal.
// Its stored run is the three families of document 01's cases 6 and 7, of which doubling takes half points: their total is 3, for 1.5 points.
#![tactic(auto)]

mod output;

use files::FILE_BYTES;
use graph::LONGEST_TEXT;

fn main(rt: HostRuntime) {
    let mut sheet_buffer = [0u8; FILE_BYTES];
    let sheet = files::read(&rt, b"sheet.mtx", &mut sheet_buffer);
    let mut limits_buffer = [0u8; FILE_BYTES];
    let limits = files::read(&rt, b"limits.mtx", &mut limits_buffer);
    let mut out = [0u8; LONGEST_TEXT];
    let length = output::price_output(sheet, limits, &mut out);
    files::write(&rt, &out[..length]);
}
