//! What the words of a command stand for.

use covd_core::options_of;

/// The first word; none where there is none.
pub(crate) fn command_of(words: &[String]) -> &str {
    match words.first() {
        Some(word) => word.as_str(),
        None => "",
    }
}

/// The words that a command takes.
pub(crate) fn form_of(command: &str) -> &'static str {
    match command {
        "check" => "covd check DESIGN",
        "tables" => "covd tables DESIGN",
        "count" => "covd count DESIGN RECORD",
        "report" =>
            "covd report [OPTION ..] DESIGN RECORD .., with one record or more, where an OPTION, each once at most, is --goal PERCENT (at most 100, with two digits behind its point at most), --keep-going, --passed, --short or --waivers FILE",
        "export" =>
            "covd export [OPTION ..] FORM DESIGN RECORD .., where FORM is bins, holes, json, ucis or html, and an OPTION, each once at most, is --goal PERCENT (at most 100, with two digits behind its point at most), --keep-going, --passed or --waivers FILE",
        "make" =>
            "covd make [OPTION ..] DESIGN SEED EVENTS TESTS, three numbers in digits: up to 18446744073709551615, 1048576 and 4096; an OPTION, each once at most, is --goal PERCENT (at most 100, with two digits behind its point at most), --keep-going, --passed, --short or --waivers FILE",
        "record" => "covd record DESIGN DUMP SCOPE ID, where ID has 1 to 255 signs from ! to ~",
        "session" => "covd session DESIGN",
        "serve" => "covd serve DESIGN --listen ADDR, or with --seats N behind it, N from 1 to 256",
        _ =>
            "covd check, tables, count, report, export, make, record, session or serve, and what each of them takes, all in UTF-8",
    }
}

/// The words behind a command's word and its options.
fn behind_options(words: &[String]) -> &[String] {
    let Some((command, rest)) = words.split_first() else {
        return words;
    };
    match command.as_str() {
        "report" | "export" | "make" => match options_of(rest) {
            Some((_, further)) => further,
            None => &[],
        },
        _ => rest,
    }
}

/// The name of the file of waivers, where one is named.
pub(crate) fn waivers_of(words: &[String]) -> Option<&str> {
    let (command, rest) = words.split_first()?;
    match command.as_str() {
        "report" | "export" | "make" => options_of(rest)?.0.waivers,
        _ => None,
    }
}

/// The words from the design's name on, which stands behind the form of `export`.
fn from_design(words: &[String]) -> &[String] {
    let behind = if command_of(words) == "export" { 1 } else { 0 };
    match behind_options(words).get(behind..) {
        Some(rest) => rest,
        None => &[],
    }
}

/// The name of the design text.
pub(crate) fn design_of(words: &[String]) -> Option<&str> {
    match from_design(words).first() {
        Some(design) => Some(design.as_str()),
        None => None,
    }
}

/// The names of the records; none where the command takes none.
pub(crate) fn records_of(words: &[String]) -> &[String] {
    match (command_of(words), from_design(words)) {
        ("count" | "report" | "export", [_, records @ ..]) => records,
        _ => &[],
    }
}

/// The name of the dump.
pub(crate) fn dump_of(words: &[String]) -> Option<&str> {
    match (command_of(words), from_design(words)) {
        ("record", [_, dump, ..]) => Some(dump.as_str()),
        _ => None,
    }
}
