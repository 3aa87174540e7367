// Recordings on which the definition answers as the Rust does; proofs/ has the rows.

#![tactic(auto)]
