#![tactic(auto)]
// No code: what README and the header state as proved, each theorem by its name with its statement. See specs/.
