// The twelve marked cases of document 01, shown from the definitions: specs/Table.antt has the table, proofs/Cases.antt the law.
#![tactic(auto)]
