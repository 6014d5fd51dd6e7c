//! Pages that a command line's own description gives: completions for shells, and a page of the manual.
#![tactic(auto)]

mod for_bash;
mod for_zsh;
mod manual_page;
mod texts;

pub use for_bash::bash_completions;
pub use for_zsh::zsh_completions;
pub use manual_page::manual;
