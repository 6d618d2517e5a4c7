// Cutting trees and columns (specs/), and the theorem that what is put together is what the whole gives (proofs/). This
// crate has no functions.
#![tactic(auto)]
