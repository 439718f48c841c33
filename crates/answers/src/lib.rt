// Answers are said in definitions (specs/); there is no code.
#![tactic(auto)]
