// The promises, each a statement over what the calls yield and leave, in specs/Promises.antt, and their proofs.
#![tactic(auto)]

ghost use Rattle.promises.specs.Promises.{Promises};

// Does nothing: its contract is that every promise is kept, so that the check asks for the proof of each.
pub fn promises_kept()
    ensures { Promises }
{}
