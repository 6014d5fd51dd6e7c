//! The verbs that make something of a log.

ghost use Rattle.std.specs.Prelude.{◌≡◌, IfOk};
ghost use Rattle.clap.specs.Simple.{app_of};
ghost use Rattle.verb_words.specs.Words.{words_app, csv_app, pcap_app, diff_app};

use crate::arguments::{epoch, log, output, time_of_frame_0};
use clap::Command;
use std::alloc::{AllocError, Global};

pub(crate) fn words<'a>(alloc: Global) -> Result<Command<'a>, AllocError>
    ensures { IfOk result (λ command. app_of command ≡ words_app) }
{
    Command::new(alloc, "words")
        .about("Tells a log in words, a sentence a line")
        .arg(time_of_frame_0(alloc))?
        .arg(output(alloc))?
        .arg(log(alloc, "input"))
}

pub(crate) fn csv<'a>(alloc: Global) -> Result<Command<'a>, AllocError>
    ensures { IfOk result (λ command. app_of command ≡ csv_app) }
{
    Command::new(alloc, "csv")
        .about(
            "Makes a log comma-separated rows: one a line of the log, with a column for each field",
        )
        .arg(output(alloc))?
        .arg(log(alloc, "input"))
}

pub(crate) fn pcap<'a>(alloc: Global) -> Result<Command<'a>, AllocError>
    ensures { IfOk result (λ command. app_of command ≡ pcap_app) }
{
    let time = epoch(
        alloc,
        "The time of frame 0 in seconds since 1970; a packet's time is its frame behind it",
    );
    Command::new(alloc, "pcap")
        .about(
            "Makes the packets of a log a capture, which Wireshark and tshark open with no setting",
        )
        .arg(time.required(true))?
        .arg(output(alloc))?
        .arg(log(alloc, "input"))
}

pub(crate) fn diff<'a>(alloc: Global) -> Result<Command<'a>, AllocError>
    ensures { IfOk result (λ command. app_of command ≡ diff_app) }
{
    Command::new(alloc, "diff")
        .about(
            "Tells the lines in which two logs differ in more than sequence counts; status 10 where there are some",
        )
        .arg(time_of_frame_0(alloc))?
        .arg(output(alloc))?
        .arg(log(alloc, "one"))?
        .arg(log(alloc, "other"))
}
