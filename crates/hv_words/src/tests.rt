//! The table of words, beside a parser of command lines.

use super::*;
use clap::{Arg, ArgAction};
use std::alloc::Global;
use std::test::Fail;

// The command that a parser of command lines finds in the words.
fn parsed(alloc: Global, words: &[&str]) -> Result<Option<Command>, clap::Error> {
    let command = Arg::new(alloc, "command").required(true);
    let number = Arg::new(alloc, "number");
    let plain = Arg::new(alloc, "plain")
        .long("plain")
        .action(ArgAction::SetTrue);
    let program = clap::Command::new(alloc, "virtualizer")
        .no_binary_name(true)
        .arg(command)?
        .arg(number)?
        .arg(plain)?;
    let matches = program.try_get_matches_from(words)?;
    Ok(match matches.get_str("command") {
        Some("run") => Some(Command::Run {
            plain: matches.get_flag("plain"),
        }),
        Some("check") => Some(Command::Check),
        Some("asm") => Some(Command::Asm),
        Some("dis") => Some(Command::Dis),
        Some("debug") => Some(Command::Debug),
        Some("save") => Some(Command::Save),
        Some("gen") => match matches.get_one::<u32>("number") {
            Some(number) => Some(Command::Gen { number }),
            None => None,
        },
        _ => None,
    })
}

#[test]
fn the_rows_are_read_as_a_parser_reads_them(rt: HostRuntime) -> Result<(), Fail> {
    let alloc = rt.alloc();
    let rows: [&[&str]; 10] = [
        &["run"],
        &["run", "--plain"],
        &["check"],
        &["asm"],
        &["dis"],
        &["debug"],
        &["save"],
        &["gen", "0"],
        &["gen", "5"],
        &["gen", "4294967295"],
    ];
    for row in rows {
        let command = parsed(alloc, row)?.ok_or("a command")?;
        let mut words = Vec::new(alloc);
        for word in row {
            words.push(String::from_str(alloc, word)?)?;
        }
        assert_eq!(rt; read_words(&words), Ok(command), "at {row:?}");
    }
    Ok(())
}
