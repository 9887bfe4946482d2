// The program `mark`: reads sheet.mtx, limits.mtx, plan.mtx and prices.mtx from the working folder, and writes the line of the measuring, or a refusal.
// Its stored run is the worked example of document 01.
#![tactic(auto)]

mod output;

use files::FILE_BYTES;
use report::LINE_BYTES;

fn main(rt: HostRuntime) {
    let mut sheet_buffer = [0u8; FILE_BYTES];
    let sheet = files::read(&rt, b"sheet.mtx", &mut sheet_buffer);
    let mut limits_buffer = [0u8; FILE_BYTES];
    let limits = files::read(&rt, b"limits.mtx", &mut limits_buffer);
    let mut plan_buffer = [0u8; FILE_BYTES];
    let plan = files::read(&rt, b"plan.mtx", &mut plan_buffer);
    let mut prices_buffer = [0u8; FILE_BYTES];
    let prices = files::read(&rt, b"prices.mtx", &mut prices_buffer);
    let mut out = [0u8; LINE_BYTES];
    let n = output::mark_output(sheet, limits, plan, prices, &mut out);
    files::write(&rt, &out[..n]);
}
