//! Texts that are written one piece after another. There is no code here: contracts above say by `specs/Appends.antt` what a function appends,
//! and proofs cite `proofs/Pieces.antt` for what several calls append together.
#![tactic(auto)]
