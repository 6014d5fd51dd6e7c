//! Tests of rehearsals by their public calls, of what no case of `rehearsals` can show: an outside that fails or moves a few bytes a
//! call, applications and gates that are given, and generated scenarios against their text. The library itself is empty.
#![tactic(auto)]

#[cfg(test)]
mod tests;
