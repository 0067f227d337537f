// The worked examples of document 01, proved of its definitions: proofs/Examples has their list and the statement.
// A crate of its own, so that what only computes is proved once and not again with each wrong definition.
#![tactic(auto)]
