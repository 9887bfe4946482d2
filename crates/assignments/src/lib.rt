// No code: the laws of the assignment text (request U7).
#![tactic(auto)]
