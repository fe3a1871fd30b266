// What follows of the definitions in crates/rules: laws of words, commands, lists, images, records, normal forms, PCI writes,
// sessions, modes and books, and the demands (proofs/Demands.antt). No code stands here.
#![tactic(auto)]
