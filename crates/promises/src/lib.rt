#![tactic(auto)]

// What the customer was promised, in one place, each promise proved by citing the stage's own theorem.
//
// Document 01, "Five numbers", "Marked cases" and "Holding the promises to account". There is no code here: the
// definitions in specs/ say what is promised, and proofs/ that it is kept, by the contracts as they stand in the
// stages and under the C names. `specs/Marked.antt` has the twelve marked cases, `specs/Contract.antt` what it is
// that no second answer meets a contract, `specs/Table.antt` demand 1, `specs/Damage.antt` and `specs/Dropping.antt`
// demand 3, `specs/Frauds.antt` the terms of the frauds. docs/PROMISES.md leads from each promise to its theorem.
