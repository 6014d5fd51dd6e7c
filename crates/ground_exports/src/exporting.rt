//! The verbs that make something of a log.

ghost use Rattle.std.specs.Prelude.{◌≡◌, ℕ, List, Some, option_map, IfOk};
ghost use Rattle.ground_files.specs.Workspaces.{Held, input_taken};
ghost use Rattle.ground_exports.specs.Exports.{IsExportOf, IsExportOfInput, IsExported, known_epoch};

use crate::captures::write_capture;
use crate::csv_rows::write_rows;
use ground_files::{
    Fault, Status, Workspace, input_name, open_source, output_name, replaces, status_made,
    tell_fault, tell_replaced, tell_unwritten,
};
use ground_logs::Telling;
use std::io::{Read, Write};

/// What a log is made into.
#[derive(Clone, Copy, Debug, PartialEq, Eq)]
pub enum Export {
    /// Sentences.
    Words,
    /// Rows of comma-separated fields.
    Rows,
    /// A capture of its packets.
    Capture,
}

/// The time of frame 0 in seconds, where it is known.
fn seconds_of(epoch: Option<u32>) -> u32
    ensures { result ≡ known_epoch epoch }
{
    match epoch {
        Some(seconds) => seconds,
        None => 0,
    }
}

impl Export {
    /// Makes a log into this. Says whether all of its lines are a log's.
    fn make<E: Eprint, R: Read + Drop, W: Write>(
        self,
        telling: &Telling<'_, E>,
        epoch: Option<u32>,
        mut log: R,
        out: &mut W,
    ) -> Result<bool, Fault>
        ensures { IfOk result (λ whole. (text : List ℕ) → R.remaining log ≡ Some text
            → IsExportOf self epoch text whole (W.contents out.old) (W.contents out.new)) }
    {
        match self {
            Export::Words => telling.tell(epoch, &mut log, out),
            Export::Rows => write_rows(telling, log, out),
            Export::Capture => write_capture(telling, seconds_of(epoch), log, out),
        }
    }
}

/// What is asked for: what is made of which log, and where it goes.
#[derive(Clone, Copy, Drop)]
pub struct Exported<'a> {
    pub export: Export,
    /// The time of frame 0, in seconds.
    pub epoch: Option<u32>,
    /// The log; `-` is standard input.
    pub file: &'a str,
    /// The file that is written; `-` is standard output.
    pub output: &'a str,
}

/// Makes what is asked for of the log into an output. Says whether all of the log's lines are a log's.
fn write_export<R: Eprint + AllocGlobal, W: Workspace, O: Write>(
    rt: &R,
    workspace: &mut W,
    asked: &Exported<'_>,
    out: &mut O,
) -> Result<bool, Fault>
    ensures held { W.held workspace.new ≡ option_map (input_taken asked.now.file.now)
        (W.held workspace.old) }
    ensures made { IfOk result (λ whole. (before : Held) → W.held workspace.old ≡ Some before
        → IsExportOfInput asked.now before whole (O.contents out.old) (O.contents out.new)) }
{
    let telling = Telling {
        rt,
        alloc: rt.alloc(),
        name: input_name(asked.file),
    };
    match open_source(workspace, asked.file) {
        Ok(log) => asked.export.make(&telling, asked.epoch, log, out),
        Err(error) => Err(Fault::Read(error)),
    }
}

/// Makes something of the log that the words name.
pub fn export_log<R: Eprint + AllocGlobal, W: Workspace>(
    rt: &R,
    workspace: &mut W,
    asked: &Exported<'_>,
) -> Status
    ensures { (before : Held) → W.held workspace.old ≡ Some before
        → IsExported asked.now result before (W.held workspace.new) }
{
    if replaces(workspace, asked.output, asked.file) {
        tell_replaced(rt, asked.output);
        return Status::WordsRefused;
    }
    let output = output_name(asked.output);
    let mut draft = match workspace.begin(asked.output) {
        Ok(draft) => draft,
        Err(error) => return tell_unwritten(rt, output, &error),
    };
    let made = write_export(rt, workspace, asked, &mut draft);
    let settled = workspace.settle(asked.output, draft, made.is_ok());
    match made {
        Ok(true) => status_made(rt, output, settled, Status::Done),
        Ok(false) => status_made(rt, output, settled, Status::FileRefused),
        Err(fault) => tell_fault(rt, input_name(asked.file), output, &fault),
    }
}
