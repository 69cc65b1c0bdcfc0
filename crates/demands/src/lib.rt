#![tactic(auto)]
// The user's demands as theorems. There is no code here: read specs/Demands.antt first.
