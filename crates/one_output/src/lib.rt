// That the same bytes give one season, one script and one output, and those of a dossier one verdict.
//
// The command `audit` and the laws of whole commands build on it. It has no code but its laws, and knows of no source, no sink
// and no keeper.
#![tactic(auto)]

pub mod laws;
