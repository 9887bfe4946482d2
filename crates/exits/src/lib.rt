// How far a vertex is from a way out, by its price alone.
#![tactic(auto)]

ghost use Rattle.std.specs.Prelude.{◌+◌, ◌-◌, ◌≤◌, ◌<◌, ◌≡◌, cond, true};
ghost use Rattle.method.specs.Method.{level, top_price};
ghost use Rattle.method.specs.Front.{shut, near_exit, far_exit};

use integers::pick;
use method::{LEVEL, SHUT};

// How far it is down from one price to another where that way is open, and at least FAR where it is shut.
fn way_out(leads: bool, from: u32, to: u32) -> u32
    requires { (leads ≡ true → to ≤ from) × (from ≤ top_price) × (to ≤ top_price) }
    ensures { result ≡ from + cond leads 0 shut - to }
{
    from + pick(leads, 0, SHUT) - to
}

// How far a near vertex of this price and degree is from a way out: it may lose an edge where it has more than its least.
pub fn near_exit(price: u32, used: u32, least: u32) -> u32
    requires { (least < used → level ≤ price) × (price ≤ top_price) }
    ensures { (result ≡ near_exit price used least) × (result ≤ level + shut) }
{
    way_out(least < used, price, LEVEL)
}

// And a far vertex: it may gain an edge where it has less than its most.
pub fn far_exit(price: u32, used: u32, most: u32) -> u32
    requires { (used < most → price ≤ level) × (price ≤ top_price) }
    ensures { (result ≡ far_exit price used most) × (result ≤ level + shut) }
{
    way_out(used < most, LEVEL, price)
}
