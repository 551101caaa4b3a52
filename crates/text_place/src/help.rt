//! The texts of `covd --help` and `covd --version`.
ghost use Rattle.std.specs.Prelude.{◌≡◌, map, string_bytes};
ghost use Rattle.text_place.specs.declared.help.Command.TheVariants as commands;
ghost use Rattle.text_place.specs.declared.help.Topic.TheVariants as topics;
ghost use Rattle.text_place.specs.Early.{command_of as command_meant, is_help_flag as is_help_flag_meant, is_help as is_help_meant, is_version as is_version_meant, asked_alone as asked_alone_meant, asked_before as asked_before_meant, asked_behind as asked_behind_meant, asked_by_two as asked_by_two_meant, asked};

use crate::pages::{CHECK, COUNT, EXPORT, MAKE, RECORD, REPORT, SERVE, SESSION, TABLES};

/// What `covd --help` prints.
pub const HELP: &str = "\
covd counts the functional coverage of SystemVerilog designs.

Usage:
  covd check DESIGN          prints how many signals, instances and bins the
                             design has, and a line a bin: covd check bus.sv
  covd tables DESIGN         prints the signals, instances and arguments that a
                             writer of records announces: covd tables bus.sv
  covd count DESIGN RECORD   counts how often the record hits each bin of the
                             design, and prints a line a bin:
                             covd count bus.sv t1.rec
  covd report DESIGN RECORD ..
                             merges the records of tests and prints the coverage
                             and the ranking of the tests:
                             covd report bus.sv t1.rec t2.rec
  covd export FORM DESIGN RECORD ..
                             prints the merge as lines of bins or of holes, as
                             JSON, as UCIS XML or as a page of HTML:
                             covd export html bus.sv t1.rec > page.html
  covd make DESIGN SEED EVENTS TESTS
                             the same for TESTS made-up tests of EVENTS rounds of
                             random values: covd make bus.sv 7 20000 3
  covd record DESIGN DUMP SCOPE ID
                             writes the record of a simulator's dump to standard
                             output: covd record bus.sv bus.vcd tb t1 > t1.rec
  covd session DESIGN        answers requests on standard input, to standard
                             output: covd session bus.sv < requests > replies
  covd serve DESIGN --listen ADDR [--seats N]
                             answers requests over the network, of up to N
                             callers at a time (16, or 1 to 256):
                             covd serve bus.sv --listen 127.0.0.1:7000
  covd help [COMMAND]        prints this text, or more on a command
  covd --version             prints the version and the kit that proved it

Files:
  DESIGN   a design text in SystemVerilog, at most 1,048,576 bytes
  RECORD   a test record, binary, at most 8,388,608 bytes
  DUMP     a value change dump (VCD), at most 33,554,432 bytes

Options, between the command's word and its others, in any order (-- ends them):
  --goal PERCENT   of report, export and make: status 19 where the coverage
                   overall is below, as 95 or 99.5 (two digits behind the point
                   at most): covd report --goal 95 bus.sv t1.rec
  --keep-going     of the same: a record that can't be taken in is left out,
                   with a line in the report, and status 18
  --passed         of the same: tests alone that ended with OK
  --waivers FILE   of the same: nodes that a line waive PATTERN \"REASON\" of the
                   file matches are left out of coverage; * stands for a part of
                   a name, ** for anything
  --short          of report and make: no line for each test, and no ranking

Words:
  FORM     bins, holes, json, ucis or html
  SCOPE    the scope of the dump whose variables are the design's: tb, TOP.tb
  ID       the test's name, 1 to 255 letters, digits and signs without blanks
  SEED     1 to 20 digits, at most 18446744073709551615
  EVENTS   1 to 7 digits, at most 1048576
  TESTS    1 to 4 digits, 1 to 4096

What is printed goes to standard output. The exit status is one of:
   0   done
   1   out of memory
   2   the words are no command
   3   the design is refused
   4   a record is refused
   5   a record is not admitted: its name is taken, or a limit is met
   6   standard input failed (session)
   7   standard output failed
   8   a file could not be read
   9   the requests end inside a frame (session)
  10   a frame states a length that is 0 or above 1,048,640 (session)
  11   the requests are too long (session)
  12   a file is too long
  13   the dump is refused
  14   the address can't be listened on, or no worker is left (serve)
  18   done, but for records that could not be taken in (--keep-going)
  19   done, and the coverage overall is below the goal
  20   the waivers are refused
";

/// What `covd --version` prints: the version, and the toolchain with which it is proved.
pub const VERSION: &str = "\
covd 0.1.0
proved with rattle-kit-13f logic dac8208d650f15bf
";

/// The commands.
#[derive(Clone, Copy, PartialEq, Eq)]
pub enum Command {
    Check,
    Tables,
    Count,
    Report,
    Export,
    Make,
    Record,
    Session,
    Serve,
}

/// What is asked for before any command is looked at.
#[derive(Clone, Copy, PartialEq, Eq)]
pub enum Topic {
    /// The text on all commands.
    Help,
    /// The text on one command.
    Page(Command),
    Version,
}

/// The command that a word is.
fn command_of(word: &str) -> Option<Command>
    ensures { result ≡ command_meant word.now }
{
    match word {
        "check" => Some(Command::Check),
        "tables" => Some(Command::Tables),
        "count" => Some(Command::Count),
        "report" => Some(Command::Report),
        "export" => Some(Command::Export),
        "make" => Some(Command::Make),
        "record" => Some(Command::Record),
        "session" => Some(Command::Session),
        "serve" => Some(Command::Serve),
        _ => None,
    }
}

/// Whether a word asks for help, in front of a command and behind it.
fn is_help_flag(word: &str) -> bool
    ensures { result ≡ is_help_flag_meant word.now }
{
    word == "-h" || word == "--help"
}

/// Whether a word asks for help in front of a command.
fn is_help(word: &str) -> bool
    ensures { result ≡ is_help_meant word.now }
{
    word == "help" || is_help_flag(word)
}

/// Whether a word asks for the version.
fn is_version(word: &str) -> bool
    ensures { result ≡ is_version_meant word.now }
{
    word == "-V" || word == "--version"
}

/// What one word asks for.
fn asked_alone(word: &str) -> Option<Topic>
    ensures { result ≡ asked_alone_meant word.now }
{
    if is_help(word) {
        return Some(Topic::Help);
    }
    if is_version(word) {
        return Some(Topic::Version);
    }
    None
}

/// What a word asks for that stands in front of a command.
fn asked_before(word: &str, command: Command) -> Option<Topic>
    ensures { result ≡ asked_before_meant word.now command }
{
    if is_help(word) {
        return Some(Topic::Page(command));
    }
    if is_version(word) {
        return Some(Topic::Version);
    }
    None
}

/// What a word asks for that stands behind a command.
fn asked_behind(command: Command, word: &str) -> Option<Topic>
    ensures { result ≡ asked_behind_meant command word.now }
{
    if is_help_flag(word) {
        return Some(Topic::Page(command));
    }
    if is_version(word) {
        return Some(Topic::Version);
    }
    None
}

/// What two words ask for, one of which is a command's.
fn asked_by_two(first: &str, second: &str) -> Option<Topic>
    ensures { result ≡ asked_by_two_meant first.now second.now (command_meant first.now) (command_meant second.now) }
{
    if let Some(command) = command_of(second) {
        return asked_before(first, command);
    }
    match command_of(first) {
        Some(command) => asked_behind(command, second),
        None => None,
    }
}

/// What the words ask for before any command is looked at, if they do: help or the version, alone, or in front of a
/// command's word or behind it. The words don't have the program's name.
pub fn topic_of(words: &[String]) -> Option<Topic>
    ensures { result ≡ asked (map string_bytes words.now) }
{
    match words {
        [word] => asked_alone(word.as_str()),
        [first, second] => asked_by_two(first.as_str(), second.as_str()),
        _ => None,
    }
}

/// The text on a command.
fn page_of(command: Command) -> &'static str
    ensures check { command ≡ commands.Check → result.now ≡ CHECK.now }
    ensures tables { command ≡ commands.Tables → result.now ≡ TABLES.now }
    ensures count { command ≡ commands.Count → result.now ≡ COUNT.now }
    ensures report { command ≡ commands.Report → result.now ≡ REPORT.now }
    ensures export { command ≡ commands.Export → result.now ≡ EXPORT.now }
    ensures make { command ≡ commands.Make → result.now ≡ MAKE.now }
    ensures of_record { command ≡ commands.Record → result.now ≡ RECORD.now }
    ensures session { command ≡ commands.Session → result.now ≡ SESSION.now }
    ensures serve { command ≡ commands.Serve → result.now ≡ SERVE.now }
{
    match command {
        Command::Check => CHECK,
        Command::Tables => TABLES,
        Command::Count => COUNT,
        Command::Report => REPORT,
        Command::Export => EXPORT,
        Command::Make => MAKE,
        Command::Record => RECORD,
        Command::Session => SESSION,
        Command::Serve => SERVE,
    }
}

/// The text on what is asked for.
pub fn text_of(topic: Topic) -> &'static str
    ensures help { topic ≡ topics.Help → result.now ≡ HELP.now }
    ensures version { topic ≡ topics.Version → result.now ≡ VERSION.now }
    ensures check { topic ≡ topics.Page commands.Check → result.now ≡ CHECK.now }
    ensures tables { topic ≡ topics.Page commands.Tables → result.now ≡ TABLES.now }
    ensures count { topic ≡ topics.Page commands.Count → result.now ≡ COUNT.now }
    ensures report { topic ≡ topics.Page commands.Report → result.now ≡ REPORT.now }
    ensures export { topic ≡ topics.Page commands.Export → result.now ≡ EXPORT.now }
    ensures make { topic ≡ topics.Page commands.Make → result.now ≡ MAKE.now }
    ensures of_record { topic ≡ topics.Page commands.Record → result.now ≡ RECORD.now }
    ensures session { topic ≡ topics.Page commands.Session → result.now ≡ SESSION.now }
    ensures serve { topic ≡ topics.Page commands.Serve → result.now ≡ SERVE.now }
{
    match topic {
        Topic::Help => HELP,
        Topic::Page(command) => page_of(command),
        Topic::Version => VERSION,
    }
}
