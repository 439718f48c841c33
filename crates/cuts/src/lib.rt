// Where a recording may be cut is said in definitions (specs/) and proved (proofs/); there is no code.
#![tactic(auto)]
