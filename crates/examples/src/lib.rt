// The examples of document 01, and its rules at their limits, are statements about definitions (specs/); there is no code.
#![tactic(auto)]
