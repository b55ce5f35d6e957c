//! Lists that know nothing of RDF: what is distinct, added, sorted, searched, or holds of all or some items. There is no
//! code: `specs` has the definitions, and `proofs` the lemmas.
#![tactic(auto)]
