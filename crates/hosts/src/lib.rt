#![tactic(auto)]
// What holds for a host behind the C boundary, as theorems. There is no code here: read specs/Hosts.antt first.
