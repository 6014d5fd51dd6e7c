//! What the words of a verb ask for, by their names in the command line.

ghost use Rattle.std.specs.Prelude.{◌≡◌, option_map};
ghost use Rattle.clap.specs.Walk.{first_of};
ghost use Rattle.ground_verbs.specs.Said.{rows_in, word_text, word_texts, name_given, names_given, is_given, completions_for, SaysEpoch, SaysMake, SaysShow, SaysBuild, SaysCheck, SaysRun, SaysExport, SaysCompare, SaysPage, IsAsked};

use clap::ArgMatches;
use ground_books::Build;
use ground_checks::Check;
use ground_differences::LogPair;
use ground_exports::{Export, Exported};
use ground_making::{Making, Shown, Wanted};
use ground_runs::Run;
use verb_words::Verb;

/// A description of the command line.
#[derive(Clone, Copy, Debug, PartialEq, Eq)]
pub enum Description {
    /// Completions for bash.
    Bash,
    /// Completions for zsh.
    Zsh,
    /// A page of the manual.
    Manual,
}

/// A description of the command line, and where it goes.
#[derive(Clone, Copy, Drop)]
pub struct Page<'a> {
    pub description: Description,
    /// The file that is written; `-` is standard output.
    pub output: &'a str,
}

/// What the words ask for.
#[derive(Clone, Copy, Drop)]
pub enum Asked<'a> {
    /// To make a file of another.
    Make(Wanted<'a>),
    /// To show files as text.
    Show(Shown<'a>),
    /// To write the files of a book.
    Build(Build<'a>),
    /// To look at files.
    Check(Check<'a>),
    /// To rehearse a scenario or a book.
    Rehearse(Run<'a>),
    /// To make something of a log.
    Export(Exported<'a>),
    /// To compare two logs.
    Compare(LogPair<'a>),
    /// To describe the command line.
    Describe(Page<'a>),
}

/// The value of a word, where it has one.
fn value<'a>(words: &'a ArgMatches<'_>, word: &str) -> Option<&'a str>
    ensures { option_map word_text result ≡ first_of word.now (rows_in words.now) }
{
    words.get_str(word)
}

/// The name that a word gives; a standard stream where it gives none.
fn name<'a>(words: &'a ArgMatches<'_>, word: &str) -> &'a str
    ensures { result.now ≡ name_given word.now (rows_in words.now) }
{
    match value(words, word) {
        Some(name) => name,
        None => "-",
    }
}

/// The names that a word gives.
fn names<'a>(words: &'a ArgMatches<'_>, word: &str) -> &'a [&'a str]
    ensures { word_texts result.now ≡ names_given word.now (rows_in words.now) }
{
    words.get_strs(word).unwrap_or(&[])
}

/// Whether a flag is given.
fn is_given(words: &ArgMatches<'_>, flag: &str) -> bool
    ensures { result ≡ is_given flag.now (rows_in words.now) }
{
    match value(words, flag) {
        Some(value) => value.as_bytes() == b"true".as_slice(),
        None => false,
    }
}

/// The time of frame 0, or what times in tables are counted from, where words have it.
fn epoch(words: &ArgMatches<'_>) -> Option<u32>
    ensures { SaysEpoch (rows_in words.now) result }
{
    words.get_one::<u32>("epoch")
}

fn wanted<'a>(making: Making, words: &'a ArgMatches<'_>) -> Wanted<'a>
    ensures { SaysMake making (rows_in words.now) result }
{
    Wanted {
        making,
        epoch: epoch(words),
        file: name(words, "input"),
        output: name(words, "output"),
    }
}

fn shown<'a>(words: &'a ArgMatches<'_>) -> Shown<'a>
    ensures { SaysShow (rows_in words.now) result }
{
    Shown {
        epoch: epoch(words),
        files: names(words, "files"),
        output: name(words, "output"),
    }
}

fn build<'a>(words: &'a ArgMatches<'_>) -> Build<'a>
    ensures { SaysBuild (rows_in words.now) result }
{
    Build {
        book: name(words, "input"),
        folder: value(words, "output"),
    }
}

fn check<'a>(words: &'a ArgMatches<'_>) -> Check<'a>
    ensures { SaysCheck (rows_in words.now) result }
{
    Check {
        files: names(words, "files"),
        map: value(words, "map"),
    }
}

fn exported<'a>(export: Export, words: &'a ArgMatches<'_>) -> Exported<'a>
    ensures { SaysExport export (rows_in words.now) result }
{
    Exported {
        export,
        epoch: epoch(words),
        file: name(words, "input"),
        output: name(words, "output"),
    }
}

fn compared<'a>(words: &'a ArgMatches<'_>) -> LogPair<'a>
    ensures { SaysCompare (rows_in words.now) result }
{
    LogPair {
        one: name(words, "one"),
        other: name(words, "other"),
        epoch: epoch(words),
        output: name(words, "output"),
    }
}

fn run<'a>(words: &'a ArgMatches<'_>) -> Run<'a>
    ensures { SaysRun (rows_in words.now) result }
{
    Run {
        scenario: name(words, "scenario"),
        files: names(words, "files"),
        workers: value(words, "workers"),
        has_subjects: is_given(words, "subjects"),
        epoch: epoch(words),
        is_strict: is_given(words, "strict"),
        allowed: names(words, "allow"),
        tells_inputs: !is_given(words, "no-inputs"),
        log: value(words, "log"),
        output: name(words, "output"),
    }
}

fn described<'a>(description: Description, words: &'a ArgMatches<'_>) -> Page<'a>
    ensures { SaysPage description (rows_in words.now) result }
{
    Page {
        description,
        output: name(words, "output"),
    }
}

/// The completions for a shell, by its name.
fn completions_for(shell: Option<&str>) -> Description
    ensures { result ≡ completions_for (option_map word_text shell.entry) }
{
    match shell {
        Some(shell) => {
            if shell.as_bytes() == b"zsh".as_slice() {
                Description::Zsh
            } else {
                Description::Bash
            }
        }
        None => Description::Bash,
    }
}

/// What the words behind a verb ask for.
pub(crate) fn read_verb<'a>(verb: Verb, words: &'a ArgMatches<'_>) -> Asked<'a>
    ensures { IsAsked verb (rows_in words.now) result }
{
    match verb {
        Verb::Table => Asked::Make(wanted(Making::Table, words)),
        Verb::Scenario => Asked::Make(wanted(Making::Scenario, words)),
        Verb::Build => Asked::Build(build(words)),
        Verb::Check => Asked::Check(check(words)),
        Verb::Show => Asked::Show(shown(words)),
        Verb::Run => Asked::Rehearse(run(words)),
        Verb::Words => Asked::Export(exported(Export::Words, words)),
        Verb::Csv => Asked::Export(exported(Export::Rows, words)),
        Verb::Pcap => Asked::Export(exported(Export::Capture, words)),
        Verb::Diff => Asked::Compare(compared(words)),
        Verb::Completions => {
            Asked::Describe(described(completions_for(value(words, "shell")), words))
        }
        Verb::Man => Asked::Describe(described(Description::Manual, words)),
    }
}
