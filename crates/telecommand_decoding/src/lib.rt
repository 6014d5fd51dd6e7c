//! What the applications make of telecommands in words: laws that tie the dictionary to what each application takes and decodes.
#![tactic(auto)]

pub mod cs;
pub mod hs;
pub mod lc;
pub mod md;
pub mod mm;
pub mod sc;
pub mod scenario_words;
pub mod spellings;
