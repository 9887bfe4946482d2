// Weak duality over the definitions of dual: this crate has theorems only.
#![tactic(auto)]
