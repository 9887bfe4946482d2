// The program `solve`: reads sheet.mtx and limits.mtx from the working folder, and writes a plan of largest merit, or a refusal.
// Its stored run is the worked example of document 01.
#![tactic(auto)]

mod output;

use files::FILE_BYTES;
use graph::SUBGRAPH_BYTES;

fn main(rt: HostRuntime) {
    let mut sheet_buffer = [0u8; FILE_BYTES];
    let sheet = files::read(&rt, b"sheet.mtx", &mut sheet_buffer);
    let mut limits_buffer = [0u8; FILE_BYTES];
    let limits = files::read(&rt, b"limits.mtx", &mut limits_buffer);
    let mut out = [0u8; SUBGRAPH_BYTES];
    let n = output::solve_output(sheet, limits, &mut out);
    files::write(&rt, &out[..n]);
}
