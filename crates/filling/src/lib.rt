// Outputs that are cleared or filled.
#![tactic(auto)]

ghost use Rattle.std.specs.Prelude.{◌≡◌, length, replicate};

// Sets every number of `out` to a value, as to 0 where an output is cleared.
pub fn fill<T: Copy>(out: &mut [T], value: T)
    ensures { out.new ≡ replicate (length out.old) value }
{
    for x in out.iter_mut() {
        *x = value;
    }
}
