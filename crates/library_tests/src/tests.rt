//! One file a topic.

mod banks;
mod calls;
mod crews;
mod crowds;
mod outside;
mod scenarios;
mod steps;
mod threads;
