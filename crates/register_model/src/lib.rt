//! The definitions of what a register keeps, answers and promises (`specs/`), and the lemmas that lead from the answer of each
//! call to what holds after any list of calls (`proofs/`). The code is the register's two limits: the contracts of
//! the register and of its runs cite the definitions, and their proofs the lemmas.
#![tactic(auto)]

/// How many entries a register keeps at most.
pub const CAPACITY: usize = 128;

/// How many bytes a kept name has at most.
pub const LONGEST_NAME: usize = 255;
