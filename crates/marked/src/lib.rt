// The twelve marked cases, and three of the 6525: tables and statements are in specs/, the proofs in proofs/, and there is nothing to run.
#![tactic(auto)]
