//! What the words ask for of a rehearsal.

ghost use Rattle.std.specs.Prelude.{◌≡◌, ◌++◌, Some, None, IfSome, IfOk, OnOk, true};
ghost use Rattle.ground_files.specs.Workspaces.{Held};
ghost use Rattle.ground_runs.specs.AskedWords.{opened, opened_names, worker_words, subject_words, front_of, words_of};
ghost use Rattle.ground_runs.specs.Refusals.{is_drill, IsMisasked, IsOverInput, IsWellNamed};

use fsw_outside::NoMemory;
use ground_files::{Workspace, is_stream, replaces};
use packet_forms::behind;
use rehearsal::Words;
use scenario::digits;
use std::alloc::Global;

/// What the words ask for.
#[derive(Clone, Copy, Drop)]
pub struct Run<'a> {
    pub scenario: &'a str,
    pub files: &'a [&'a str],
    pub workers: Option<&'a str>,
    pub has_subjects: bool,
    pub epoch: Option<u32>,
    pub is_strict: bool,
    pub allowed: &'a [&'a str],
    /// Whether what the scenario does is told among the sentences of the log.
    pub tells_inputs: bool,
    /// The file that keeps the log.
    pub log: Option<&'a str>,
    /// The file that has the words; `-` is standard output.
    pub output: &'a str,
}

/// The name by which the rehearsal opens a file.
fn opened_name(name: &str) -> &str
    ensures { result.now ≡ opened name.now }
{
    if is_stream(name) { "/dev/stdin" } else { name }
}

/// Appends how many workers there are, where that is said.
#[tactic(auto, using(std::proofs::lemmas::Grind::common_steps))]
fn add_workers(words: &mut Words, workers: Option<&str>) -> Result<(), NoMemory>
    ensures { OnOk result (words.new ≡ words.old ++ worker_words workers.entry) }
{
    let Some(workers) = workers else {
        return Ok(());
    };
    words.add("--workers")?;
    words.add(workers)
}

/// Appends the flag for the program's subjects, where they are wanted.
#[tactic(auto, using(std::proofs::lemmas::Grind::common_steps))]
fn add_subjects(words: &mut Words, has_subjects: bool) -> Result<(), NoMemory>
    ensures { OnOk result (words.new ≡ words.old ++ subject_words has_subjects) }
{
    if !has_subjects {
        return Ok(());
    }
    words.add("--subjects")
}

/// Appends the names by which files are opened.
fn add_names(words: &mut Words, files: &[&str]) -> Result<(), NoMemory>
    ensures { OnOk result (words.new ≡ words.old ++ opened_names files.now) }
{
    for file in files {
        words.add(opened_name(file))?;
    }
    Ok(())
}

/// Whether a scenario's name asks for one that is generated: `drill:` and one to six decimal digits.
#[tactic(auto, unfolding(rehearsal::specs::Words::drill_in))]
fn is_drill(name: &str) -> bool
    ensures { result ≡ is_drill name.now }
{
    let bytes = name.as_bytes();
    bytes.starts_with(b"drill:".as_slice()) && digits(10, 6, behind(bytes, 6)).is_some()
}

impl<'a> Run<'a> {
    /// Whether the scenario is generated, so that a summary is written in place of its log.
    pub fn is_drill(&self) -> bool
        ensures { result ≡ is_drill self.now.scenario.now }
    {
        is_drill(self.scenario)
    }

    /// Why these words aren't rehearsed, whatever the files hold.
    pub fn refusal(&self) -> Option<&'static str>
        ensures cause { IfSome result (λ told. IsMisasked self.now) }
        ensures none { result ≡ None → IsWellNamed self.now self.now.log }
    {
        if let Some(log) = self.log {
            if is_stream(log) {
                return Some("--log wants a file: standard output has the words");
            }
            if self.output == log {
                return Some("--log and --output name one file");
            }
        }
        if self.is_drill() && (self.log.is_some() || self.is_strict) {
            return Some(
                "a generated scenario has four lines in place of a log: --log and --strict aren't for it",
            );
        }
        None
    }

    /// The name for people of the file that keeps the log.
    pub fn log_name(&self) -> &'a str {
        match self.log {
            Some(log) => log,
            None => "the log",
        }
    }

    /// Whether an output is the scenario or one of the files.
    pub fn would_replace<W: Workspace>(&self, workspace: &W, output: &str) -> bool
        ensures { result ≡ true → (now : Held) → W.held workspace.now ≡ Some now
            → IsOverInput self.now output.now now }
    {
        for file in self.files {
            if replaces(workspace, output, file) {
                return true;
            }
        }
        replaces(workspace, output, self.scenario)
    }

    /// The words for the rehearsal that stand in front of the names of the scenario's file and of the FILEs.
    pub fn front_words(&self, alloc: Global) -> Result<Words, NoMemory>
        ensures { IfOk result (λ words.
            words ≡ front_of self.now.workers self.now.has_subjects) }
    {
        let mut words = Words::open(alloc)?;
        add_workers(&mut words, self.workers)?;
        add_subjects(&mut words, self.has_subjects)?;
        words.add("--")?;
        Ok(words)
    }

    /// The words for the rehearsal.
    pub(crate) fn words(&self, alloc: Global) -> Result<Words, NoMemory>
        ensures { IfOk result (λ words. words ≡ words_of self.now.workers
            self.now.has_subjects self.now.scenario.now self.now.files.now) }
    {
        let mut words = self.front_words(alloc)?;
        words.add(opened_name(self.scenario))?;
        add_names(&mut words, self.files)?;
        Ok(words)
    }

    /// The path of a file by its number: 0 is the scenario.
    pub fn input_path(&self, number: u32) -> &'a str {
        match number.checked_sub(1) {
            Some(place) => self.files.get(place as usize).copied().unwrap_or("-"),
            None => self.scenario,
        }
    }
}
