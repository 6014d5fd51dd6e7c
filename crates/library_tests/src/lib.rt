//! Tests of the libraries by their public calls, of what no clause says: real files, threads that meet, gates that are entered, and
//! texts whose endings were written from the rules. The library itself is empty.
#![tactic(auto)]

#[cfg(test)]
mod tests;
