//! The words after the program's name, and what they ask for.

ghost use Rattle.std.specs.Prelude.{◌≡◌, ◌≢◌, ℕ, ◌<◌, List, [], ◌∷◌, ◌++◌, length, map, IfOk, OnOk, OnErr, slice_index_or, ◌≤◌, codes, drop, IfSome, MatchResult, option_map};
ghost use Rattle.clap.specs.Matches.{found_of};
ghost use Rattle.clap.specs.Values.{kind_of};
ghost use Rattle.clap.specs.Walk.{rows_of};
ghost use Rattle.clap.specs.Simple.{app_of};
ghost use Rattle.rehearsal.specs.Words.{workers_in, workers_said, is_said, drill_in, option_command, vigil_command, files_in, few_files, asked_by, accepted_words};

use clap::error::ErrorKind;
use clap::{Arg, ArgAction, ArgMatches, Command, Error};
use fsw_outside::NoMemory;
use scenario::digits;
use std::alloc::{AllocError, Global};
use std::marker::Model;

/// The words after the program's name, in order. They are seen as the list of their texts.
#[derive(Drop)]
pub struct Words {
    texts: Vec<String>,
    alloc: Global,
}

impl Model for Words {
    ghost use Rattle.std.specs.Prelude.{ℕ, List, map, string_bytes};

    ghost Value = { List (List ℕ) };

    ghost view = { λ w. map string_bytes w.texts.items };
}

impl Words {
    /// No words. The allocator is kept for the words that are added.
    pub fn open(alloc: Global) -> Result<Words, NoMemory>
        ensures { IfOk result (λ words. words ≡ []) }
    {
        Ok(Words {
            texts: Vec::new(alloc),
            alloc,
        })
    }

    /// Appends a word. Where memory runs out the words are as before.
    pub fn add(&mut self, word: &str) -> Result<(), NoMemory>
        ensures added { OnOk result (self.new ≡ self.old ++ word.now ∷ []) }
        ensures same { OnErr result (self.new ≡ self.old) }
    {
        let text = String::from_str(self.alloc, word)?;
        self.texts.push(text)?;
        Ok(())
    }

    /// How many words there are.
    pub fn len(&self) -> usize
        ensures { result ≡ length self.now }
    {
        self.texts.len()
    }

    /// The word at a place, counted from 0.
    pub fn word(&self, place: usize) -> &str
        requires { place < length self.now }
        ensures { result.now ≡ slice_index_or self.now place [] }
    {
        self.texts[place].as_str()
    }
}

/// How many FILEs there may be.
const MOST_FILES: usize = 100;

/// What accepted words ask for: how many workers, whether simulated applications give the execution counters, the scenario's
/// word, which is `drill:K` or the name of its file, and the names of the FILEs, of which there are at most 100. It is seen as
/// what the words ask for.
#[derive(Drop)]
pub struct Plan {
    workers: u32,
    subjects: bool,
    scenario: String,
    files: Words,
}

impl Model for Plan {
    ghost use Rattle.std.specs.Prelude.{◌≤◌, length, string_bytes};
    ghost use Rattle.rehearsal.specs.Words.{Asked};

    ghost Value = { Asked };

    ghost view = { λ p.
        record {
          workers = p.workers;
          subjects = p.subjects;
          scenario = string_bytes p.scenario;
          files = p.files;
        } };

    ghost invariant = { λ p. (1 ≤ p.workers) × (p.workers ≤ 16) × (length p.files ≤ 100) };
}

impl Plan {
    /// How many workers there are, from 1 to 16.
    pub fn workers(&self) -> u32
        ensures value { result ≡ self.now.workers }
        ensures range { (1 ≤ result) × (result ≤ 16) }
    {
        self.workers
    }

    /// Whether simulated applications give the execution counters.
    pub fn subjects(&self) -> bool
        ensures { result ≡ self.now.subjects }
    {
        self.subjects
    }

    /// The scenario's word: the name of its file, unless it is generated.
    pub fn scenario(&self) -> &str
        ensures { result.now ≡ self.now.scenario }
    {
        self.scenario.as_str()
    }

    /// The number of the generated scenario, at most 999,999; None where the scenario's word names a file.
    pub fn drill(&self) -> Option<u32>
        ensures value { result ≡ drill_in self.now.scenario }
        ensures range { IfSome result (λ k. k ≤ 999999) }
    {
        drill_in(self.scenario())
    }

    /// The names of the FILEs, in order.
    pub fn files(&self) -> &Words
        ensures value { result.now ≡ self.now.files }
        ensures few { length result.now ≤ 100 }
    {
        &self.files
    }
}

/// The program's name, which is handed to the command before the words.
const NAME: &str = "vigil";

/// What the words ask for; None exactly where they are refused.
pub fn accept(alloc: Global, words: &Words) -> Result<Option<Plan>, NoMemory>
    ensures { IfOk result (λ plan. accepted_words words.now ≡ plan) }
{
    let texts = with_name(alloc, words)?;
    let command = vigil_command(alloc)?;
    match command.try_get_matches_from(texts.as_slice()) {
        Ok(matches) => plan_of(alloc, &matches),
        Err(error) => refused_by(&error),
    }
}

/// A simple command with the option `workers` and the flag `subjects`.
fn option_command<'a>(alloc: Global) -> Result<Command<'a>, AllocError>
    ensures { IfOk result (λ command. app_of command ≡ option_command) }
{
    let workers = Arg::new(alloc, "workers")
        .long("workers")
        .action(ArgAction::Set);
    let subjects = Arg::new(alloc, "subjects")
        .long("subjects")
        .action(ArgAction::SetTrue);
    Command::new(alloc, NAME).arg(workers)?.arg(subjects)
}

/// The simple command that reads the words: the option and the flag, SCENARIO and the FILEs.
fn vigil_command<'a>(alloc: Global) -> Result<Command<'a>, AllocError>
    ensures { IfOk result (λ command. app_of command ≡ vigil_command) }
{
    let scenario = Arg::new(alloc, "scenario").required(true);
    let files = Arg::new(alloc, "files").action(ArgAction::Append);
    option_command(alloc)?.arg(scenario)?.arg(files)
}

/// The program's name and the words behind it.
fn with_name(alloc: Global, words: &Words) -> Result<Vec<&str>, NoMemory>
    ensures { IfOk result (λ texts.
        map (λ text. text.now) texts.items ≡ codes "vigil" ∷ words.now) }
{
    let mut texts = Vec::new(alloc);
    texts.push(NAME)?;
    'places: for place in 0..words.len() {
        texts.push(words.word(place))?;
    }
    Ok(texts)
}

/// A refusal, unless memory ran out.
fn refused_by(error: &Error) -> Result<Option<Plan>, NoMemory>
    ensures { MatchResult result
        (λ plan. (plan ≡ None) × (kind_of error.now ≢ ErrorKind.OutOfMemory)) (λ _.
        kind_of error.now ≡ ErrorKind.OutOfMemory) }
{
    match error.kind() {
        ErrorKind::OutOfMemory => Err(NoMemory),
        _ => Ok(None),
    }
}

/// What the matches ask for.
fn plan_of(alloc: Global, matches: &ArgMatches<'_>) -> Result<Option<Plan>, NoMemory>
    ensures { IfOk result (λ plan. asked_by (rows_of (found_of matches.now)) ≡ plan) }
{
    let Some(scenario) = matches.get_str("scenario") else {
        return Ok(None);
    };
    let Some(workers) = workers_said(matches.get_str("workers")) else {
        return Ok(None);
    };
    let subjects = is_said(matches.get_str("subjects"));
    let files = files_of(alloc, matches)?;
    let Some(files) = files else {
        return Ok(None);
    };
    let scenario = String::from_str(alloc, scenario)?;
    Ok(Some(Plan {
        workers,
        subjects,
        scenario,
        files,
    }))
}

/// The FILEs, unless there are more than 100.
fn files_of(alloc: Global, matches: &ArgMatches<'_>) -> Result<Option<Words>, NoMemory>
    ensures value { IfOk result (λ files.
        few_files (files_in (rows_of (found_of matches.now))) ≡ files) }
    ensures few { IfOk result (λ files. IfSome files (λ words. length words ≤ 100)) }
{
    let Some(texts) = matches.get_raw("files") else {
        let none = Words::open(alloc)?;
        return Ok(Some(none));
    };
    if texts.len() > MOST_FILES {
        return Ok(None);
    }
    let files = words_of(alloc, texts)?;
    Ok(Some(files))
}

/// The number of workers, by the value of the option, if it is given.
fn workers_said(word: Option<&str>) -> Option<u32>
    ensures value { result ≡ workers_said (option_map (λ w. w.now) word.entry) }
    ensures range { IfSome result (λ n. (1 ≤ n) × (n ≤ 16)) }
{
    match word {
        None => Some(1),
        Some(word) => workers_in(word),
    }
}

/// Whether a flag is given, by its value.
fn is_said(word: Option<&str>) -> bool
    ensures { result ≡ is_said (option_map (λ w. w.now) word.entry) }
{
    match word {
        None => false,
        Some(word) => word.as_bytes() == b"true".as_slice(),
    }
}

/// The words that these texts are.
fn words_of(alloc: Global, texts: &[&str]) -> Result<Words, NoMemory>
    ensures { IfOk result (λ words. words ≡ map (λ text. text.now) texts.now) }
{
    let mut words = Words::open(alloc)?;
    'texts: for text in texts {
        words.add(text)?;
    }
    Ok(words)
}

/// The number of workers that a word says.
#[tactic(auto, unfolding(crate::specs::Words::workers_in))]
fn workers_in(word: &str) -> Option<u32>
    ensures value { result ≡ workers_in word.now }
    ensures range { IfSome result (λ n. (1 ≤ n) × (n ≤ 16)) }
{
    let Some(number) = digits(10, 2, word.as_bytes()) else {
        return None;
    };
    if number < 1 || number > 16 {
        return None;
    }
    Some(number as u32)
}

/// The bytes behind the first six.
fn behind_six(bytes: &[u8]) -> &[u8]
    requires { 6 ≤ length bytes.now }
    ensures { result.now ≡ drop 6 bytes.now }
{
    &bytes[6..]
}

/// The number of the generated scenario that a word asks for.
#[tactic(auto, unfolding(crate::specs::Words::drill_in))]
fn drill_in(word: &str) -> Option<u32>
    ensures value { result ≡ drill_in word.now }
    ensures range { IfSome result (λ k. k ≤ 999999) }
{
    let bytes = word.as_bytes();
    if !bytes.starts_with(b"drill:".as_slice()) {
        return None;
    }
    let Some(number) = digits(10, 6, behind_six(bytes)) else {
        return None;
    };
    Some(number as u32)
}
