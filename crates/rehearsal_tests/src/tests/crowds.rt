//! Rehearsals beside simulated applications.

use super::runs::{HEADER, HONEST, Line, Ran, assert_text, log_of, run_beside, shelf_of, words_of};
use super::tables::{Count, Monitor, apps_file, counts_file, events_file};
use fsw_outside::{MemSink, OpenGate};
use packet_forms::Name;
use rehearsal::{Report, Status, vigil_with};
use std::alloc::{AllocError, Global};
use std::process::Abort;
use std::test::Fail;
use std::thread::Threads;
use subjects::{Hanging, Listed, Steady, Subject};

/// How a subject goes on: its kind, and what that kind is made with.
#[derive(Clone, Copy)]
enum Sort<'a> {
    Steady,
    Hanging(u32),
    Listed(&'a [u32], u32),
}

/// A subject: its name, and how it goes on.
type Made<'a> = (&'a str, Sort<'a>);

/// Runs these words beside these subjects, of which there are at most 64.
fn run_with<R: Threads + Sync + AllocGlobal>(
    rt: &R,
    words: &[&str],
    made: &[Made<'_>],
    text: &str,
    files: &[&[u8]],
) -> Result<Ran, Fail> {
    let alloc = rt.alloc();
    let given = words_of(alloc, words)?;
    let mut shelf = shelf_of(alloc, text, files, &HONEST)?;
    let mut out = MemSink::new(alloc, &[], 16_000_000)?;
    let mut err = MemSink::new(alloc, &[], 256)?;
    let mut subjects: Vec<Box<dyn Subject + Send>> = Vec::new(alloc);
    for (name, sort) in made.iter() {
        let name = Name::from_text(name).ok_or("no name")?;
        match *sort {
            Sort::Steady => subjects.push(Box::new(alloc, Steady::new(name))?)?,
            Sort::Hanging(after) => {
                let after = after.max(1).min(1000);
                subjects.push(Box::new(alloc, Hanging::new(name, after))?)?;
            }
            Sort::Listed(values, back) => {
                let mut list = Vec::new(alloc);
                list.extend_from_slice(values)?;
                let listed = Listed::new(name, list, back).ok().ok_or("no plan")?;
                subjects.push(Box::new(alloc, listed)?)?;
            }
        }
    }
    if subjects.len() > 64 {
        return Err(Fail::from("too many subjects"));
    }
    let report = vigil_with(
        rt, alloc, &given, subjects, &mut shelf, &mut out, &mut err, &OpenGate,
    );
    Ok(Ran { report, out, err })
}

/// Asserts that a rehearsal ran to its end, in so many frames, and wrote this log.
fn assert_ran<R: Abort>(rt: &R, ran: &Ran, frames: u32, log: &str) {
    assert_text(rt, "out", ran.out.bytes(), log);
    assert_text(rt, "err", ran.err.bytes(), "");
    assert_eq!(rt; ran.report, Report::at(Status::Done, frames));
}

/// Lines that stand in a frame of a scenario: the frame's number, and the lines.
type Part<'a> = (u32, &'a str);

/// A rehearsal that runs to its end: how many frames it has, what stands in them, and the lines that it must write.
#[derive(Clone, Copy)]
struct Rehearsal<'a> {
    frames: u32,
    parts: &'a [Part<'a>],
    lines: &'a [Line<'a>],
}

/// Appends a frame: those parts that stand in it.
fn push_frame(text: &mut String, parts: &[Part<'_>], frame: u32) -> Result<(), AllocError> {
    for part in parts.iter() {
        if part.0 == frame {
            text.push_str(part.1)?;
        }
    }
    text.push_str("tick\n")
}

/// The text of a rehearsal.
fn text_of(alloc: Global, rehearsal: &Rehearsal<'_>) -> Result<String, AllocError> {
    let mut text = String::from_str(alloc, HEADER)?;
    for frame in 0..rehearsal.frames {
        push_frame(&mut text, rehearsal.parts, frame)?;
    }
    text.push_str("end\n")?;
    Ok(text)
}

/// A rehearsal beside subjects, with the entries of two tables, which stand in rising places.
#[derive(Clone, Copy)]
struct Row {
    subjects: &'static [Made<'static>],
    apps: &'static [Monitor<'static>],
    events: &'static [Monitor<'static>],
    rehearsal: Rehearsal<'static>,
}

const ROWS: [Row; 4] = [
    // Two of one name are restarted and deleted together; none is left.
    Row {
        subjects: &[
            ("PWR", Sort::Hanging(3)),
            ("NAV", Sort::Steady),
            ("PWR", Sort::Steady),
        ],
        apps: &[(1, "PWR", 2, 2)],
        events: &[(1, "PWR", 7, 3)],
        rehearsal: Rehearsal {
            frames: 13,
            parts: &[
                (4, "send 18AEC0000001028A\n"),
                (
                    9,
                    "send 0808C0000025000003E800005057520000000000000000000000000000000000000700020000004200000001\n",
                ),
                (10, "send 18AEC0000001028A\n"),
            ],
            lines: &[
                Line::Event("HS", 4, 0, 102, 3),
                Line::Text("4 restart PWR"),
                Line::Event("HS", 5, 1, 18, 2),
                Line::Event("HS", 9, 2, 102, 3),
                Line::Text("9 restart PWR"),
                Line::Event("HS", 10, 3, 113, 3),
                Line::Text("10 delete PWR"),
                Line::Event("HS", 11, 4, 18, 2),
                Line::Event("HS", 12, 5, 102, 3),
                Line::Text("12 restart PWR"),
            ],
        },
    },
    // Requests for a name that nobody has change nothing.
    Row {
        subjects: &[("PWR", Sort::Hanging(4))],
        apps: &[(1, "XYZ", 2, 2), (2, "PWR", 2, 3)],
        events: &[(1, "XYZ", 7, 3)],
        rehearsal: Rehearsal {
            frames: 7,
            parts: &[(
                0,
                "send 0808C0000025000003E8000058595A0000000000000000000000000000000000000700020000004200000001\n",
            )],
            lines: &[
                Line::Event("HS", 1, 0, 102, 3),
                Line::Text("1 restart XYZ"),
                Line::Event("HS", 1, 1, 113, 3),
                Line::Text("1 delete XYZ"),
                Line::Event("HS", 5, 2, 103, 3),
            ],
        },
    },
    // A name is restarted and deleted in one frame.
    Row {
        subjects: &[("PWR", Sort::Listed(&[9], 0))],
        apps: &[(1, "PWR", 2, 2)],
        events: &[(1, "PWR", 7, 3)],
        rehearsal: Rehearsal {
            frames: 7,
            parts: &[
                (
                    1,
                    "send 0808C0000025000003E800005057520000000000000000000000000000000000000700020000004200000001\n",
                ),
                (3, "send 18AEC0000001028A\n"),
            ],
            lines: &[
                Line::Event("HS", 2, 0, 102, 3),
                Line::Text("2 restart PWR"),
                Line::Event("HS", 2, 1, 113, 3),
                Line::Text("2 delete PWR"),
                Line::Event("HS", 4, 2, 18, 2),
                Line::Event("HS", 5, 3, 102, 3),
                Line::Text("5 restart PWR"),
            ],
        },
    },
    // A processor reset in the same frame restarts all.
    Row {
        subjects: &[
            ("PWR", Sort::Hanging(2)),
            ("THM", Sort::Listed(&[5, 6, 7], 2)),
        ],
        apps: &[(1, "GONE", 4, 1), (2, "PWR", 2, 2), (3, "THM", 2, 3)],
        events: &[],
        rehearsal: Rehearsal {
            frames: 9,
            parts: &[],
            lines: &[
                Line::Event("HS", 3, 0, 101, 3),
                Line::Text("3 reset"),
                Line::Event("HS", 3, 1, 102, 3),
                Line::Text("3 restart PWR"),
                Line::Event("HS", 7, 2, 101, 3),
                Line::Text("7 reset"),
                Line::Event("HS", 7, 3, 102, 3),
                Line::Text("7 restart PWR"),
            ],
        },
    },
];

/// The words of each row.
const WORDS: [&[&str]; 3] = [
    &["--subjects", "s", "a", "b"],
    &["s", "--workers", "5", "a", "--subjects", "b"],
    &["--workers=16", "--subjects", "--", "s", "a", "b"],
];

#[test]
fn subjects_are_watched(rt: HostRuntime) -> Result<(), Fail> {
    for row in ROWS.iter() {
        let apps = apps_file(rt.alloc(), row.apps)?;
        let events = events_file(rt.alloc(), row.events)?;
        let text = text_of(rt.alloc(), &row.rehearsal)?;
        let log = log_of(rt.alloc(), row.rehearsal.lines)?;
        for words in WORDS {
            let ran = run_with(&rt, words, row.subjects, text.as_str(), &[&apps, &events])?;
            assert_ran(&rt, &ran, row.rehearsal.frames, log.as_str());
        }
    }
    Ok(())
}

/// A counter that moves in the scenario, and is acted on where it stays.
const STALLED: Rehearsal<'static> = Rehearsal {
    frames: 7,
    parts: &[
        (0, "app LOAD 5\n"),
        (1, "app LOAD 5\n"),
        (2, "app LOAD 6\n"),
        (3, "app LOAD 6\n"),
        (4, "app LOAD 6\n"),
        (5, "app LOAD 6\n"),
        (6, "app LOAD 6\n"),
    ],
    lines: &[
        Line::Event("HS", 5, 0, 102, 3),
        Line::Text("5 restart LOAD"),
    ],
};

/// Without subjects the flag leaves no counter at all; without the flag the subjects are dropped.
#[test]
fn flag_alone_counts(rt: HostRuntime) -> Result<(), Fail> {
    let apps = apps_file(rt.alloc(), &[(1, "LOAD", 3, 2)])?;
    let text = text_of(rt.alloc(), &STALLED)?;
    let empty = [
        Line::Event("HS", 2, 0, 102, 3),
        Line::Text("2 restart LOAD"),
    ];
    let empty = log_of(rt.alloc(), &empty)?;
    let scripted = log_of(rt.alloc(), STALLED.lines)?;
    let with_flag: [&str; 3] = ["--subjects", "s", "a"];
    let ran = run_with(&rt, &with_flag, &[], text.as_str(), &[&apps])?;
    assert_ran(&rt, &ran, 7, empty.as_str());
    let ran = run_beside(&rt, &with_flag, text.as_str(), &[&apps], &HONEST)?;
    assert_ran(&rt, &ran, 7, empty.as_str());
    let others = [("LOAD", Sort::Steady)];
    let ran = run_with(&rt, &["s", "a"], &others, text.as_str(), &[&apps])?;
    assert_ran(&rt, &ran, 7, scripted.as_str());
    let ran = run_with(&rt, &with_flag, &others, text.as_str(), &[&apps])?;
    assert_ran(&rt, &ran, 7, "");
    Ok(())
}

/// The names N00 to N63.
fn crowd_names(alloc: Global) -> Result<Vec<String>, Fail> {
    let mut names = Vec::new(alloc);
    for number in 0..64_u32 {
        names.push(format!(in alloc; "N{number:02}")?)?;
    }
    Ok(names)
}

/// A list for each of 64 subjects, which begins with its number.
fn crowd_lists(alloc: Global) -> Result<Vec<[u32; 3]>, Fail> {
    let mut lists = Vec::new(alloc);
    for number in 0..64_u32 {
        lists.push([number, 5, 6])?;
    }
    Ok(lists)
}

/// 64 subjects of the three kinds, in turn: steady, hanging once called as often as the number says, and along the list.
fn crowd_of<'a>(
    alloc: Global,
    names: &'a [String],
    lists: &'a [[u32; 3]],
) -> Result<Vec<Made<'a>>, Fail> {
    let mut crowd = Vec::new(alloc);
    for (name, list) in names.iter().zip(lists.iter()) {
        let [number, _, _] = *list;
        let sort = match number % 3 {
            0 => Sort::Steady,
            1 => Sort::Hanging(number),
            _ => Sort::Listed(list, 1),
        };
        crowd.push((name.as_str(), sort))?;
    }
    Ok(crowd)
}

/// Execution counters of every second name.
fn crowd_counts<'a>(alloc: Global, names: &'a [String]) -> Result<Vec<Count<'a>>, Fail> {
    let mut counts: Vec<Count<'a>> = Vec::new(alloc);
    let mut place = 1_usize;
    let mut shown = true;
    for name in names.iter() {
        if shown {
            counts.push((place, name.as_str(), 1))?;
            place = place.saturating_add(1);
        }
        shown = !shown;
    }
    Ok(counts)
}

const CROWD_APPS: [Monitor<'static>; 17] = [
    (1, "N01", 2, 2),
    (2, "N04", 2, 3),
    (3, "N07", 2, 2),
    (4, "N10", 2, 3),
    (5, "N13", 2, 2),
    (6, "N16", 2, 3),
    (7, "N19", 2, 2),
    (8, "N22", 2, 3),
    (9, "N02", 2, 3),
    (10, "N05", 2, 2),
    (11, "N08", 2, 3),
    (12, "N11", 2, 2),
    (13, "N00", 2, 3),
    (14, "N03", 2, 2),
    (15, "N33", 2, 2),
    (16, "N63", 2, 2),
    (17, "N61", 2, 2),
];

const CROWD_WATCHED: Rehearsal<'static> = Rehearsal {
    frames: 26,
    parts: &[(11, "send 18AFC00000010089\n")],
    lines: &[
        Line::Event("HS", 2, 0, 102, 3),
        Line::Text("2 restart N01"),
        Line::Event("HS", 5, 1, 103, 3),
        Line::Event("HS", 8, 2, 102, 3),
        Line::Text("8 restart N07"),
        Line::Event("HS", 11, 3, 103, 3),
        Line::Text(
            "12 pkt 08ADC0000095000003F400000000010100000003000000000001FFF000000001000000060000000400000001000000060000000A00000001000000060000000D00000001000000060000000D00000001000000060000000D00000001000000060000000D00000001000000060000000D00000001000000060000000D00000001000000060000000D00000001000000060000000D0000000100000006",
        ),
        Line::Event("HS", 14, 4, 102, 3),
        Line::Text("14 restart N13"),
        Line::Event("HS", 17, 5, 103, 3),
        Line::Event("HS", 20, 6, 102, 3),
        Line::Text("20 restart N19"),
        Line::Event("HS", 23, 7, 103, 3),
    ],
};

#[test]
fn large_crowd_is_watched(rt: HostRuntime) -> Result<(), Fail> {
    let apps = apps_file(rt.alloc(), &CROWD_APPS)?;
    let names = crowd_names(rt.alloc())?;
    let lists = crowd_lists(rt.alloc())?;
    let crowd = crowd_of(rt.alloc(), &names, &lists)?;
    let counts = counts_file(rt.alloc(), &crowd_counts(rt.alloc(), &names)?)?;
    let text = text_of(rt.alloc(), &CROWD_WATCHED)?;
    let log = log_of(rt.alloc(), CROWD_WATCHED.lines)?;
    for words in WORDS {
        let ran = run_with(&rt, words, &crowd, text.as_str(), &[&apps, &counts])?;
        assert_ran(&rt, &ran, CROWD_WATCHED.frames, log.as_str());
    }
    Ok(())
}
