//! What files and texts are made into.

ghost use Rattle.std.specs.Prelude.{◌≡◌, ◌≢◌, ◌<◌, ◌+◌, ◌^◌, true, false, length, map, IfOk, IfErr, OnOk, Option, None, Some, ℕ};
ghost use Rattle.telecommands.specs.Commands.{are_good};
ghost use Rattle.telecommands.specs.Dictionary.{dictionary, placed};
ghost use Rattle.table_files.specs.Headers.{kind_of_file, file_fault_of, is_load};
ghost use Rattle.table_forms.specs.Judging.{refusal_of};
ghost use Rattle.table_forms.specs.Layouts.{are_layouts, placed as placed_layouts, all_layouts};
ghost use Rattle.load_texts.specs.Loads.{SaysLoad};
ghost use Rattle.load_books.specs.Books.{is_book_text};
ghost use Rattle.shown_plans.specs.Shown.{is_scenario_text};
ghost use Rattle.ground_making.specs.declared.making.Making.TheVariants as makings;
ghost use Rattle.ground_making.specs.declared.making.Refusal.TheVariants as refusals;
ghost use Rattle.ground_making.specs.Made.{IsFileOf, IsTableText, IsLoadText, IsTextOf, IsScenarioOfPlan, IsScenarioIn, IsMadeAs};
ghost use Rattle.ground_making.specs.Refused.{table_refusal, table_error_refusal, load_error_refusal, plan_error_refusal, IsRefusedFor, IsLoadRefusedFor, IsUntaken};

use crate::books::book_scenario;
use crate::scenarios::plan_of;
use crate::shown_times::with_times;
use load_books::{BookFault, is_book_text};
use load_texts::{LoadFault, header_fields, read_load, show_load};
use plan_text::{PlanError, PlanFault};
use shown_plans::{ShowError, is_scenario_text};
use std::alloc::{AllocError, Global};
use table_files::{EntryFault, FileFault, FileImage, TableKind, read_file};
use table_forms::{
    ReadError, TableFault, TextForms, find_refusal, read_table, show_table, table_layouts,
};
use telecommands::commands;
use thiserror::Error;
use timed_plans::schedule_plan;

/// What a file is made into.
#[derive(Clone, Copy, Debug, PartialEq, Eq)]
pub enum Making {
    /// The file of a table, of its text; the verb makes of a load's text a file to be loaded (`load_of`).
    Table,
    /// The text of a table or a load, of its file, and the plan of a scenario.
    Text,
    /// The scenario, of a plan or a book.
    Scenario,
}

/// Why a file isn't made into anything.
#[derive(Clone, Copy, Debug, PartialEq, Eq, Error)]
pub enum Refusal {
    #[error("{0}")]
    Text(TableFault),
    /// An entry of a table, by its loader's reason. `table_reasons` has the sentence.
    #[error("entry {entry} is refused", entry = .1.entry)]
    Entry(TableKind, EntryFault),
    #[error("{0}")]
    LoadText(LoadFault),
    #[error("{0}")]
    Plan(PlanFault),
    /// Why a scenario has no plan.
    #[error("{0}")]
    Scenario(ShowError),
    #[error("{0}")]
    Book(BookFault),
    #[error("{0}")]
    File(FileFault),
    #[error("it is longer than 4294967294 bytes")]
    Long,
    #[error("memory ran out")]
    Memory,
}

/// Why a table or its text is refused.
fn refused(fault: TableFault) -> Refusal
    ensures { result ≡ table_refusal fault }
{
    match fault {
        TableFault::Entry(kind, fault) => Refusal::Entry(kind, fault),
        other => Refusal::Text(other),
    }
}

impl From<AllocError> for Refusal {
    ghost from_gives = { λ _ refusal. refusal ≡ refusals.Memory };

    fn from(_: AllocError) -> Refusal {
        Refusal::Memory
    }
}

impl From<ReadError> for Refusal {
    ghost from_gives = { λ error refusal. refusal ≡ table_error_refusal error };

    fn from(error: ReadError) -> Refusal {
        match error {
            ReadError::Memory(_) => Refusal::Memory,
            ReadError::Fault(fault) => refused(fault),
        }
    }
}

impl From<load_texts::ReadError> for Refusal {
    ghost from_gives = { λ error refusal. refusal ≡ load_error_refusal error };

    fn from(error: load_texts::ReadError) -> Refusal {
        match error {
            load_texts::ReadError::Memory(_) => Refusal::Memory,
            load_texts::ReadError::Fault(fault) => Refusal::LoadText(fault),
        }
    }
}

impl From<PlanError> for Refusal {
    ghost from_gives = { λ error refusal. refusal ≡ plan_error_refusal error };

    fn from(error: PlanError) -> Refusal {
        match error {
            PlanError::Memory(_) => Refusal::Memory,
            PlanError::Plan(fault) => Refusal::Plan(fault),
        }
    }
}

/// What tables' texts are read by, with times counted from `epoch`.
fn forms(epoch: Option<u32>) -> TextForms<'static>
    ensures counted { result.epoch ≡ epoch }
    ensures listed_commands { map placed result.commands.now ≡ dictionary }
    ensures listed_layouts { placed_layouts result.layouts.now ≡ all_layouts }
    ensures commands { are_good result.commands.now ≡ true }
    ensures layouts { are_layouts result.layouts.now ≡ true }
{
    TextForms {
        epoch,
        commands: commands(),
        layouts: table_layouts(),
    }
}

/// The most bytes that a file has which something is made of: lines are counted in 32 bits.
pub const MOST_BYTES: usize = 4_294_967_294;

/// The file of a table's text: it is taken as the table that the text's first line names.
fn file_of(alloc: Global, epoch: Option<u32>, text: &[u8]) -> Result<Vec<u8>, Refusal>
    requires { 1 + length text.now < 2 ^ 32 }
    ensures made { IfOk result (λ file. IsFileOf epoch text.now file.items) }
    ensures refused { IfErr result (λ refusal. refusal ≢ refusals.Memory
        → IsRefusedFor makings.Table epoch text.now refusal) }
{
    match read_table(alloc, &forms(epoch), text) {
        Ok(file) => Ok(file),
        Err(error) => Err(Refusal::from(error)),
    }
}

/// The file to be loaded that a text says, where the file that it asks for has the bytes `named`: it is accepted, with the text's
/// address and bytes.
pub fn load_of(alloc: Global, named: &[u8], text: &[u8]) -> Result<Vec<u8>, Refusal>
    requires { 1 + length text.now < 2 ^ 32 }
    ensures made { IfOk result (λ file. SaysLoad named.now text.now file.items) }
    ensures refused { IfErr result (λ refusal. refusal ≢ refusals.Memory
        → IsLoadRefusedFor named.now text.now refusal) }
{
    match read_load(alloc, header_fields(), named, text) {
        Ok(file) => Ok(file),
        Err(error) => Err(Refusal::from(error)),
    }
}

/// The text of the file of a table, or of one to be loaded, or the plan of a scenario.
#[tactic(auto, using(crate::proofs::MadeLemmas::plan_given, crate::proofs::MadeLemmas::table_given, crate::proofs::MadeLemmas::load_given))]
fn text_of(alloc: Global, epoch: Option<u32>, file: &[u8]) -> Result<Vec<u8>, Refusal>
    requires { 1 + length file.now < 2 ^ 32 }
    ensures made { IfOk result (λ text. IsTextOf epoch file.now text.items) }
    ensures refused { IfErr result (λ refusal. refusal ≢ refusals.Memory
        → IsRefusedFor makings.Text epoch file.now refusal) }
{
    if is_scenario_text(file) {
        return plan_of(alloc, file);
    }
    match read_file(file) {
        Ok(FileImage::Table { kind, payload: _ }) => show_of(alloc, epoch, kind, file),
        Ok(FileImage::Load { at: _, bytes: _ }) => show_load_of(alloc, file),
        Err(fault) => Err(Refusal::File(fault)),
    }
}

/// The text of the file of a table of this kind, with its times told from the epoch on, where there is one.
#[tactic(auto, using(crate::proofs::MadeLemmas::shown_given))]
fn show_of(
    alloc: Global,
    epoch: Option<u32>,
    kind: TableKind,
    file: &[u8],
) -> Result<Vec<u8>, Refusal>
    requires { kind_of_file file.now ≡ Some kind }
    ensures made { IfOk result (λ text. epoch ≡ None
        → IsTableText kind file.now text.items) }
    ensures memory { IfErr result (λ refusal. refusal ≡ refusals.Memory) }
{
    let mut text = Vec::new(alloc);
    match show_table(alloc, &forms(epoch), kind, file, &mut text) {
        Ok(()) => from_epoch(alloc, epoch, text),
        Err(error) => Err(Refusal::from(error)),
    }
}

/// The text of a table, with its times told from the epoch on, where there is one.
fn from_epoch(alloc: Global, epoch: Option<u32>, text: Vec<u8>) -> Result<Vec<u8>, Refusal>
    ensures made { IfOk result (λ told. epoch ≡ None → told.items ≡ text.items) }
    ensures memory { IfErr result (λ refusal. refusal ≡ refusals.Memory) }
{
    match epoch {
        Some(epoch) => Ok(with_times(alloc, epoch, text.as_slice())?),
        None => Ok(text),
    }
}

/// The text of a file to be loaded.
#[tactic(auto, using(crate::proofs::MadeLemmas::load_shown))]
fn show_load_of(alloc: Global, file: &[u8]) -> Result<Vec<u8>, Refusal>
    requires well { file_fault_of file.now ≡ None }
    requires load { is_load file.now ≡ true }
    ensures made { IfOk result (λ text. IsLoadText file.now text.items) }
    ensures memory { IfErr result (λ refusal. refusal ≡ refusals.Memory) }
{
    let mut text = Vec::new(alloc);
    match show_load(alloc, header_fields(), file, &mut text) {
        Ok(()) => Ok(text),
        Err(error) => Err(Refusal::from(error)),
    }
}

/// The scenario that a plan says, or the plan of a book.
#[tactic(auto, using(crate::proofs::MadeLemmas::book_given, crate::proofs::MadeLemmas::schedule_given))]
fn scenario_of(alloc: Global, text: &[u8]) -> Result<Vec<u8>, Refusal>
    requires { 1 + length text.now < 2 ^ 32 }
    ensures made { IfOk result (λ scenario. IsScenarioIn text.now scenario.items) }
    ensures refused { IfErr result (λ refusal. (epoch : Option ℕ) → refusal ≢ refusals.Memory
        → IsRefusedFor makings.Scenario epoch text.now refusal) }
{
    if is_book_text(text) {
        return book_scenario(alloc, text);
    }
    plan_scenario(alloc, text)
}

/// The scenario that a plan says.
fn plan_scenario(alloc: Global, plan: &[u8]) -> Result<Vec<u8>, Refusal>
    requires short { 1 + length plan.now < 2 ^ 32 }
    requires other { is_book_text plan.now ≡ false }
    ensures made { IfOk result (λ scenario. IsScenarioOfPlan plan.now scenario.items) }
    ensures refused { IfErr result (λ refusal. (epoch : Option ℕ) → refusal ≢ refusals.Memory
        → IsRefusedFor makings.Scenario epoch plan.now refusal) }
{
    match schedule_plan(alloc, commands(), plan) {
        Ok(scenario) => Ok(scenario),
        Err(error) => Err(Refusal::from(error)),
    }
}

/// Looks at the file of a table, or one to be loaded, as the program looks at it: whether it is taken, and why it isn't.
pub fn look_at(file: &[u8]) -> Result<(), Refusal>
    ensures taken { OnOk result (refusal_of file.now ≡ None) }
    ensures refused { IfErr result (IsUntaken file.now) }
{
    if file.len() > MOST_BYTES {
        return Err(Refusal::Long);
    }
    match find_refusal(file) {
        Some(fault) => Err(refused(fault)),
        None => Ok(()),
    }
}

impl Making {
    /// Makes a file's bytes into what is wanted. What `Table` makes is taken as the table that the text names, what `Text` makes of a
    /// scenario is a plan of it, and what `Scenario` makes is what the plan or the book says.
    #[tactic(auto, using(crate::proofs::MadeLemmas::always_ok))]
    pub fn make(self, alloc: Global, epoch: Option<u32>, bytes: &[u8]) -> Result<Vec<u8>, Refusal>
        ensures made { IfOk result (λ made. IsMadeAs self epoch bytes.now made.items) }
        ensures short { OnOk result (1 + length bytes.now < 2 ^ 32) }
        ensures refused { IfErr result (λ refusal. refusal ≢ refusals.Memory
            → IsRefusedFor self epoch bytes.now refusal) }
    {
        if bytes.len() > MOST_BYTES {
            return Err(Refusal::Long);
        }
        match self {
            Making::Table => file_of(alloc, epoch, bytes),
            Making::Text => text_of(alloc, epoch, bytes),
            Making::Scenario => scenario_of(alloc, bytes),
        }
    }
}
