//! The pages of `covd help COMMAND`.

/// What `covd help check` prints.
pub const CHECK: &str = "\
covd check DESIGN

Reads a design text and prints how many signals, instances and bins the design
has, and a line for each bin: its number, its kind and its path.

  covd check bus.sv

The exit status is one of:
   0   done
   1   out of memory
   3   the design is refused
   7   standard output failed
   8   the file could not be read
  12   the file is too long
";

/// What `covd help tables` prints.
pub const TABLES: &str = "\
covd tables DESIGN

Prints the signals, instances and arguments of a design with their numbers,
widths and signs, as a writer of records announces them.

  covd tables bus.sv

The exit status is one of:
   0   done
   1   out of memory
   3   the design is refused
   7   standard output failed
   8   the file could not be read
  12   the file is too long
";

/// What `covd help count` prints.
pub const COUNT: &str = "\
covd count DESIGN RECORD

Counts how often a record hits each bin of the design, and prints a line for
each bin: its number, its kind, its count and its path.

  covd count bus.sv t1.rec

The exit status is one of:
   0   done
   1   out of memory
   3   the design is refused
   4   the record is refused
   7   standard output failed
   8   a file could not be read
  12   a file is too long
";

/// What `covd help report` prints.
pub const REPORT: &str = "\
covd report [OPTION ..] DESIGN RECORD ..

Merges the records of tests and prints the tests, the coverage overall, of each
type, instance, point and cross, the illegal bins that were hit, and the ranking
of the tests.

  --goal PERCENT   status 19 where the coverage overall is below, as 95 or 99.5
  --keep-going     a record that can't be taken in is left out, with a line, and
                   the status is 18
  --passed         tests alone that ended with OK
  --waivers FILE   nodes that a line waive PATTERN \"REASON\" of the file matches
                   are left out of coverage; * stands for a part of a name, **
                   for anything
  --short          no line for each test, and no ranking
  --               ends the options

  covd report --goal 95 --waivers bus.waivers bus.sv t1.rec t2.rec

The exit status is one of:
   0   done
   1   out of memory
   3   the design is refused
   4   a record is refused
   5   a record is not admitted: its name is taken, or a limit is met
   7   standard output failed
   8   a file could not be read
  12   a file is too long
  18   done, but for records that could not be taken in
  19   done, and the coverage overall is below the goal
  20   the waivers are refused
";

/// What `covd help export` prints.
pub const EXPORT: &str = "\
covd export [OPTION ..] FORM DESIGN RECORD ..

Merges the records of tests as covd report does, and prints the merge in a form:

  bins   a line for each bin: its number, kind, count, state and path
  holes  the bins that are not covered, item by item
  json   one object of JSON
  ucis   XML in the interchange format of UCIS 1.0
  html   one page with everything on it, for a browser

  --goal PERCENT   status 19 where the coverage overall is below, as 95 or 99.5
  --keep-going     a record that can't be taken in is left out, and the status is
                   18
  --passed         tests alone that ended with OK
  --waivers FILE   nodes that a line waive PATTERN \"REASON\" of the file matches
                   are left out of coverage; * stands for a part of a name, **
                   for anything
  --               ends the options

  covd export holes bus.sv t1.rec t2.rec
  covd export html bus.sv t1.rec t2.rec > page.html

The exit status is one of:
   0   done
   1   out of memory
   3   the design is refused
   4   a record is refused
   5   a record is not admitted: its name is taken, or a limit is met
   7   standard output failed
   8   a file could not be read
  12   a file is too long
  18   done, but for records that could not be taken in
  19   done, and the coverage overall is below the goal
  20   the waivers are refused
";

/// What `covd help make` prints.
pub const MAKE: &str = "\
covd make [OPTION ..] DESIGN SEED EVENTS TESTS

Makes TESTS tests of EVENTS rounds of random values each, merges them, and prints
what covd report prints. Equal words make equal tests.

  SEED     1 to 20 digits, at most 18446744073709551615
  EVENTS   1 to 7 digits, at most 1048576
  TESTS    1 to 4 digits, 1 to 4096

  --goal PERCENT   status 19 where the coverage overall is below, as 95 or 99.5
  --keep-going     a record that can't be taken in is left out, with a line, and
                   the status is 18
  --passed         tests alone that ended with OK
  --waivers FILE   nodes that a line waive PATTERN \"REASON\" of the file matches
                   are left out of coverage; * stands for a part of a name, **
                   for anything
  --short          no line for each test, and no ranking
  --               ends the options

  covd make bus.sv 7 20000 3

The exit status is one of:
   0   done
   1   out of memory
   3   the design is refused
   5   a test is not admitted: a limit is met
   7   standard output failed
   8   the file could not be read
  12   the file is too long
  18   done, but for records that could not be taken in
  19   done, and the coverage overall is below the goal
  20   the waivers are refused
";

/// What `covd help record` prints.
pub const RECORD: &str = "\
covd record DESIGN DUMP SCOPE ID

Reads a simulator's value change dump (VCD) and writes the record of the test to
standard output.

  SCOPE    the scope of the dump whose variables are the design's: tb, TOP.tb
  ID       the test's name, 1 to 255 letters, digits and signs without blanks

  covd record bus.sv bus.vcd tb t1 > t1.rec

The exit status is one of:
   0   done
   1   out of memory
   3   the design is refused
   7   standard output failed
   8   a file could not be read
  12   a file is too long
  13   the dump is refused
";

/// What `covd help session` prints.
pub const SESSION: &str = "\
covd session DESIGN

Answers the requests on standard input, to standard output, until a Bye or the
end of the input.

  covd session bus.sv < requests > replies

The exit status is one of:
   0   done
   1   out of memory
   3   the design is refused
   6   standard input failed
   7   standard output failed
   8   the file could not be read
   9   the requests end inside a frame
  10   a frame states a length that is 0 or above 1,048,640
  11   the requests are too long
  12   the file is too long
";

/// What `covd help serve` prints.
pub const SERVE: &str = "\
covd serve DESIGN --listen ADDR [--seats N]

Answers requests over the network, of up to N callers at a time (16, or 1 to
256), until it is ended. ADDR is HOST:PORT. There is no password and nothing is
encrypted: listen on loopback, or behind what keeps others out.

  covd serve bus.sv --listen 127.0.0.1:7000

The exit status is one of:
   1   out of memory
   3   the design is refused
   7   standard output failed
   8   the file could not be read
  12   the file is too long
  14   the address can't be listened on, or no worker is left
";
