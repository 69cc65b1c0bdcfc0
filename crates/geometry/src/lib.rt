#![tactic(auto)]
// No code: where cells lie, what covers the finest grid, and what the list of a tree's vertices is. See specs/.
