//! Command lines with the commands that they ask for. A `|` separates two words.
//!
//! A line of a table has a command, a `:`, and the command line. Of `run` and `runcode` it has the steps, the goroutines, the
//! pages, the words of a page, the regions, the workers, and whether it has `--stats`. Lines that begin with `#` are remarks.

use crate::checks::same;
use crate::lines::words_of;
use rgo_command_line::{Command, RunOptions, WordsError, read_words};
use std::alloc::{AllocError, Global};
use std::process::Abort;
use std::test::Fail;

fn shown_options(alloc: Global, name: &str, options: RunOptions) -> Result<String, AllocError> {
    let RunOptions {
        limits,
        sizes,
        workers,
        stats,
    } = options;
    format!(in alloc;
        "{name} {} {} {} {} {} {workers} {stats}",
        limits.steps, limits.goroutines, sizes.pages, sizes.page_words, sizes.regions
    )
}

/// A command as the tables write it.
fn shown(alloc: Global, found: Result<Command, WordsError>) -> Result<String, AllocError> {
    match found {
        Ok(Command::Run(options)) => shown_options(alloc, "run", options),
        Ok(Command::RunCode(options)) => shown_options(alloc, "runcode", options),
        Ok(Command::Big(number)) => format!(in alloc; "big {number}"),
        Ok(Command::Check) => String::from_str(alloc, "check"),
        Ok(Command::Emit) => String::from_str(alloc, "emit"),
        Ok(Command::Code) => String::from_str(alloc, "code"),
        Ok(Command::Record(options)) => shown_options(alloc, "record", options),
        Ok(Command::Replay) => String::from_str(alloc, "replay"),
        Err(WordsError::Usage) => String::from_str(alloc, "usage"),
        Err(WordsError::NoMemory) => String::from_str(alloc, "no memory"),
    }
}

/// Command lines that ask for `run`, with its steps and its goroutines. The other options are the defaults.
const RUNS: &str = "\
run 4398046511104 100000 4096 256 65536 4 false: rgo|run
run 4398046511104 100000 4096 256 65536 4 false: rgo|run|--
run 4398046511104 100000 4096 256 65536 4 false: |run
run 4398046511104 100000 4096 256 65536 4 false: --help|run
run 4398046511104 100000 4096 256 65536 4 false: --steps=5|run
run 4398046511104 100000 4096 256 65536 4 false: check|run
# An option and its number, apart and joined.
run 5 100000 4096 256 65536 4 false: rgo|run|--steps|5
run 5 100000 4096 256 65536 4 false: rgo|run|--steps=5
run 4398046511104 5 4096 256 65536 4 false: rgo|run|--goroutines|5
run 4398046511104 5 4096 256 65536 4 false: rgo|run|--goroutines=5
run 5 100000 4096 256 65536 4 false: rgo|run|--steps|5|--
run 5 100000 4096 256 65536 4 false: rgo|run|--steps=5|--
run 4398046511104 5 4096 256 65536 4 false: rgo|run|--goroutines|5|--
run 4398046511104 5 4096 256 65536 4 false: rgo|run|--goroutines=5|--
# Both, in any order and form.
run 5 6 4096 256 65536 4 false: rgo|run|--steps|5|--goroutines|6
run 5 6 4096 256 65536 4 false: rgo|run|--steps|5|--goroutines=6
run 5 6 4096 256 65536 4 false: rgo|run|--steps=5|--goroutines|6
run 5 6 4096 256 65536 4 false: rgo|run|--steps=5|--goroutines=6
run 5 6 4096 256 65536 4 false: rgo|run|--goroutines|6|--steps|5
run 5 6 4096 256 65536 4 false: rgo|run|--goroutines|6|--steps=5
run 5 6 4096 256 65536 4 false: rgo|run|--goroutines=6|--steps|5
run 5 6 4096 256 65536 4 false: rgo|run|--goroutines=6|--steps=5
run 5 6 4096 256 65536 4 false: rgo|run|--goroutines=6|--steps|5|--
run 5 6 4096 256 65536 4 false: rgo|run|--steps|5|--goroutines=6|--
# The ends of each range.
run 1 1 4096 256 65536 4 false: rgo|run|--steps|1|--goroutines|1
run 4398046511104 100000 4096 256 65536 4 false: rgo|run|--steps|4398046511104
run 4398046511103 100000 4096 256 65536 4 false: rgo|run|--steps|4398046511103
run 4398046511104 1000000 4096 256 65536 4 false: rgo|run|--goroutines|1000000
run 4398046511104 999999 4096 256 65536 4 false: rgo|run|--goroutines|999999
run 4398046511104 100001 4096 256 65536 4 false: rgo|run|--goroutines|100001
# Leading zeros.
run 7 100000 4096 256 65536 4 false: rgo|run|--steps|007
run 7 100000 4096 256 65536 4 false: rgo|run|--steps=007
run 4398046511104 1000000 4096 256 65536 4 false: rgo|run|--goroutines|01000000
run 4398046511104 10 4096 256 65536 4 false: rgo|run|--goroutines=010
run 9 100000 4096 256 65536 4 false: rgo|run|--steps|00000000000000000000000000000000000000009
run 4398046511104 100000 4096 256 65536 4 false: rgo|run|--steps=0004398046511104
run 10 100000 4096 256 65536 4 false: rgo|run|--steps|10
";

/// The same with pages, the words of a page, regions, and `--stats`.
const SIZED: &str = "\
run 4398046511104 100000 4096 256 65536 4 false: rgo|run
run 4398046511104 100000 4096 256 65536 4 true: rgo|run|--stats
run 4398046511104 100000 4096 256 65536 4 true: rgo|run|--stats|--
# An option and its number, apart and joined.
run 4398046511104 100000 5 256 65536 4 false: rgo|run|--pages|5
run 4398046511104 100000 5 256 65536 4 false: rgo|run|--pages=5
run 4398046511104 100000 4096 32 65536 4 false: rgo|run|--page-words|32
run 4398046511104 100000 4096 32 65536 4 false: rgo|run|--page-words=32
run 4398046511104 100000 4096 256 5 4 false: rgo|run|--regions|5
run 4398046511104 100000 4096 256 5 4 false: rgo|run|--regions=5
run 4398046511104 100000 5 256 65536 4 false: rgo|run|--pages|5|--
run 4398046511104 100000 4096 32 65536 4 false: rgo|run|--page-words=32|--
run 4398046511104 100000 4096 256 5 4 false: rgo|run|--regions|5|--
# Several, in any order and form.
run 4398046511104 100000 1 256 65536 4 true: rgo|run|--pages=1|--stats
run 4398046511104 100000 1 256 65536 4 true: rgo|run|--stats|--pages=1
run 4398046511104 100000 1 256 65536 4 true: rgo|run|--stats|--pages|1|--
run 4398046511104 100000 5 32 7 4 false: rgo|run|--pages|5|--page-words|32|--regions|7
run 4398046511104 100000 5 32 7 4 false: rgo|run|--regions=7|--page-words=32|--pages=5
run 4398046511104 100000 5 32 7 4 true: rgo|run|--page-words|32|--regions=7|--stats|--pages|5
run 4398046511104 100000 5 32 7 4 true: rgo|run|--regions|7|--stats|--pages=5|--page-words=32
run 4398046511104 100000 5 32 7 4 true: rgo|run|--steps=4398046511104|--pages=5|--goroutines|100000|--stats|--regions|7|--page-words=32
run 4398046511104 100000 5 32 7 4 true: rgo|run|--stats|--regions|7|--page-words=32|--goroutines=100000|--pages|5|--steps|4398046511104|--
# The ends of each range.
run 4398046511104 100000 1 256 65536 4 false: rgo|run|--pages|1
run 4398046511104 100000 2 256 65536 4 false: rgo|run|--pages|2
run 4398046511104 100000 65535 256 65536 4 false: rgo|run|--pages|65535
run 4398046511104 100000 65536 256 65536 4 false: rgo|run|--pages|65536
run 4398046511104 100000 4096 16 65536 4 false: rgo|run|--page-words|16
run 4398046511104 100000 4096 17 65536 4 false: rgo|run|--page-words|17
run 4398046511104 100000 4096 4095 65536 4 false: rgo|run|--page-words|4095
run 4398046511104 100000 4096 4096 65536 4 false: rgo|run|--page-words|4096
run 4398046511104 100000 4096 256 1 4 false: rgo|run|--regions|1
run 4398046511104 100000 4096 256 2 4 false: rgo|run|--regions|2
run 4398046511104 100000 4096 256 65535 4 false: rgo|run|--regions|65535
run 4398046511104 100000 4096 256 65536 4 false: rgo|run|--regions|65536
# The most words of all pages.
run 4398046511104 100000 65536 256 65536 4 false: rgo|run|--pages=65536|--page-words=256
run 4398046511104 100000 4096 4096 65536 4 false: rgo|run|--page-words=4096|--pages=4096
run 4398046511104 100000 65536 16 65536 4 false: rgo|run|--pages=65536|--page-words=16
run 4398046511104 100000 5592 3000 65536 4 false: rgo|run|--pages=5592|--page-words=3000
run 4398046511104 100000 1 16 1 4 false: rgo|run|--pages=1|--page-words=16|--regions=1
# Leading zeros.
run 4398046511104 100000 5 256 65536 4 false: rgo|run|--pages|005
run 4398046511104 100000 4096 32 65536 4 false: rgo|run|--page-words=00000032
run 4398046511104 100000 4096 256 7 4 false: rgo|run|--regions|0000000000000000000000000000007
";

/// The same with workers and `--stats`.
const WORKED: &str = "\
run 4398046511104 100000 4096 256 65536 4 false: rgo|run
run 4398046511104 100000 4096 256 65536 4 true: rgo|run|--stats
run 4398046511104 100000 4096 256 65536 2 false: rgo|run|--workers|2
run 4398046511104 100000 4096 256 65536 2 false: rgo|run|--workers=2
run 4398046511104 100000 4096 256 65536 2 false: rgo|run|--workers|2|--
run 4398046511104 100000 4096 256 65536 2 false: rgo|run|--workers=2|--
# With other options, in any order.
run 4398046511104 100000 4096 256 65536 2 true: rgo|run|--workers|2|--stats
run 4398046511104 100000 4096 256 65536 2 true: rgo|run|--stats|--workers=2
run 4398046511104 100000 4096 256 65536 2 true: rgo|run|--stats|--workers|2|--
run 4398046511104 100000 4096 256 65536 2 false: rgo|run|--workers=2|--steps=4398046511104
run 4398046511104 100000 4096 256 65536 9 true: rgo|run|--regions=65536|--goroutines|100000|--workers|9|--pages=4096|--stats|--steps=4398046511104|--page-words|256
# The ends of the range.
run 4398046511104 100000 4096 256 65536 1 false: rgo|run|--workers|1
run 4398046511104 100000 4096 256 65536 1 false: rgo|run|--workers=1
run 4398046511104 100000 4096 256 65536 3 false: rgo|run|--workers|3
run 4398046511104 100000 4096 256 65536 4 false: rgo|run|--workers|4
run 4398046511104 100000 4096 256 65536 5 false: rgo|run|--workers|5
run 4398046511104 100000 4096 256 65536 63 false: rgo|run|--workers|63
run 4398046511104 100000 4096 256 65536 64 false: rgo|run|--workers|64
run 4398046511104 100000 4096 256 65536 64 false: rgo|run|--workers=64
# Leading zeros.
run 4398046511104 100000 4096 256 65536 7 false: rgo|run|--workers|007
run 4398046511104 100000 4096 256 65536 64 false: rgo|run|--workers=0064
run 4398046511104 100000 4096 256 65536 9 false: rgo|run|--workers|00000000000000000000000000000000000000009
";

/// Command lines that ask for other commands.
const OTHERS: &str = "\
check: rgo|check
check: rgo|check|--
check: -|check
emit: rgo|emit
emit: rgo|emit|--
emit: -|emit
code: rgo|code
code: rgo|code|--
code: -|code
replay: rgo|replay
replay: rgo|replay|--
replay: -|replay
big 5: rgo|big|5
big 5: rgo|big|5|--
big 5: rgo|big|--|5
big 5: --steps=5|big|5
# The ends of the range.
big 1: rgo|big|1
big 2: rgo|big|2
big 9999: rgo|big|9999
big 10000: rgo|big|10000
big 10000: rgo|big|--|10000
# Leading zeros.
big 7: rgo|big|007
big 10: rgo|big|--|0010
big 10000: rgo|big|0010000|--
# `record` has the options of `run` but for `--workers` and `--stats`.
record 4398046511104 100000 4096 256 65536 4 false: rgo|record
record 4398046511104 100000 4096 256 65536 4 false: rgo|record|--
record 4398046511104 100000 4096 256 65536 4 false: |record
record 4398046511104 100000 4096 256 65536 4 false: replay|record
record 5 100000 4096 256 65536 4 false: rgo|record|--steps|5
record 1 2 5 32 7 4 false: rgo|record|--pages=5|--regions=7|--page-words|32|--goroutines=2|--steps|1|--
record 4398046511104 100000 65536 256 65536 4 false: rgo|record|--pages=65536|--page-words=256
# `runcode` has the options of `run`.
runcode 4398046511104 100000 4096 256 65536 4 false: rgo|runcode
runcode 4398046511104 100000 4096 256 65536 4 false: rgo|runcode|--
runcode 4398046511104 100000 4096 256 65536 4 false: |runcode
runcode 4398046511104 100000 4096 256 65536 4 false: run|runcode
runcode 5 100000 4096 256 65536 4 false: rgo|runcode|--steps|5
runcode 4398046511104 5 4096 256 65536 4 false: rgo|runcode|--goroutines=5
runcode 4398046511104 100000 4096 256 65536 4 true: rgo|runcode|--stats
runcode 1 2 5 32 7 9 true: rgo|runcode|--workers|9|--stats|--pages=5|--regions=7|--page-words|32|--goroutines=2|--steps|1|--
runcode 4398046511104 100000 65536 256 65536 64 false: rgo|runcode|--pages=65536|--page-words=256|--workers=0064
big 9: rgo|big|00000000000000000000000000000000000000009
";

/// Command lines that name no command.
const REFUSED: &str = "\
usage: rgo
usage:\x20
usage: run
usage: check
usage: rgo|
usage: rgo|-
usage: rgo|--
usage: rgo|--|run
usage: rgo|--|check
usage: rgo||run
usage: rgo|rgo|run
usage: rgo|run|
usage: rgo|run|-
usage: rgo|run|5
usage: rgo|run|--|
usage: rgo|run|--|5
usage: rgo|run|--|--
usage: rgo|run|run
usage: rgo|run|check
usage: rgo|run|help
usage: rgo|run|-h
usage: rgo|run|--help
usage: rgo|run|--version
usage: rgo|check|
usage: rgo|check|-
usage: rgo|check|x
usage: rgo|check|--|x
usage: rgo|check|run
usage: rgo|check|check
usage: rgo|check|help
usage: rgo|check|--help
usage: rgo|help
usage: rgo|help|run
usage: rgo|--help
usage: rgo|-h
usage: rgo|version
usage: rgo|--version
usage: rgo|-V
usage: rgo|ru
usage: rgo|chec
usage: rgo|runs
usage: rgo| run
usage: rgo|Run
usage: rgo|RUN
usage: rgo|ruñ
usage: rgo|--run
usage: rgo|--stats|run
usage: rgo|emi
usage: rgo|codes
usage: rgo|Emit
usage: rgo|--code
usage: rgo|emit|code
usage: rgo|emit|
usage: rgo|emit|--|x
usage: rgo|emit|--steps=5
usage: rgo|code|x
usage: rgo|code|--|--
usage: rgo|code|--goroutines|5
usage: rgo|records
usage: rgo|record|
usage: rgo|record|x
usage: rgo|record|record
usage: rgo|record|replay
usage: rgo|record|--|--
usage: rgo|record|--workers|1
usage: rgo|record|--workers=1
usage: rgo|record|--stats
usage: rgo|record|--steps|0
usage: rgo|record|--steps=5|--steps=5
usage: rgo|record|--pages=65536|--page-words=257
usage: rgo|--steps=5|record
usage: rgo|--record
usage: rgo|replays
usage: rgo|replay|
usage: rgo|replay|x
usage: rgo|replay|replay
usage: rgo|replay|--|--
usage: rgo|replay|--steps=5
usage: rgo|replay|--stats
usage: rgo|run|replay
usage: rgo|--replay
# The number of an option is missing, or no number.
usage: rgo|run|--steps
usage: rgo|run|--goroutines
usage: rgo|run|--steps|
usage: rgo|run|--steps=
usage: rgo|run|--goroutines|
usage: rgo|run|--goroutines=
usage: rgo|run|--steps|--
usage: rgo|run|--steps|--|5
usage: rgo|run|--steps|-
usage: rgo|run|--steps|+5
usage: rgo|run|--steps|-5
usage: rgo|run|--steps=+5
usage: rgo|run|--steps=-5
usage: rgo|run|--steps| 5
usage: rgo|run|--steps|5\x20
usage: rgo|run|--steps=5\x20
usage: rgo|run|--steps|5x
usage: rgo|run|--steps|x
usage: rgo|run|--steps|0x5
usage: rgo|run|--steps|5_000
usage: rgo|run|--steps|5,000
usage: rgo|run|--steps|5.0
usage: rgo|run|--steps|1e3
usage: rgo|run|--steps|٥
usage: rgo|run|--steps|５
usage: rgo|run|--steps==5
usage: rgo|run|--goroutines|+1
usage: rgo|run|--goroutines=many
usage: rgo|run|--steps|--goroutines|5
usage: rgo|run|--steps|--goroutines=5
usage: rgo|run|--steps|--steps
usage: rgo|run|--steps|run
# A number that its option does not take.
usage: rgo|run|--steps|0
usage: rgo|run|--steps=0
usage: rgo|run|--steps|000
usage: rgo|run|--steps|4398046511105
usage: rgo|run|--steps=4398046511105
usage: rgo|run|--steps|18446744073709551615
usage: rgo|run|--steps|18446744073709551616
usage: rgo|run|--steps|18446744073709551617
usage: rgo|run|--steps=18446744073709551621
usage: rgo|run|--steps|340282366920938463463374607431768211457
usage: rgo|run|--steps|99999999999999999999999999999999999999999999999999999999999999
usage: rgo|run|--goroutines|0
usage: rgo|run|--goroutines=0
usage: rgo|run|--goroutines|1000001
usage: rgo|run|--goroutines=1000001
usage: rgo|run|--goroutines|4294967297
usage: rgo|run|--goroutines|18446744073709551617
usage: rgo|run|--steps|5|--goroutines|0
usage: rgo|run|--steps|0|--goroutines|5
# An option that occurs twice.
usage: rgo|run|--steps|5|--steps|6
usage: rgo|run|--steps|5|--steps|5
usage: rgo|run|--steps=5|--steps=5
usage: rgo|run|--steps|5|--steps=5
usage: rgo|run|--steps=5|--steps|5
usage: rgo|run|--goroutines|5|--goroutines|5
usage: rgo|run|--goroutines=5|--goroutines=6
usage: rgo|run|--steps|5|--goroutines|6|--steps|5
usage: rgo|run|--goroutines=6|--steps=5|--goroutines=6
# Further words.
usage: rgo|run|--steps|5|6
usage: rgo|run|--steps=5|6
usage: rgo|run|--steps|5|
usage: rgo|run|--steps=5|
usage: rgo|run|--steps|5|-
usage: rgo|run|--steps|5|--|6
usage: rgo|run|--steps|5|--|--
usage: rgo|run|--|--steps|5
usage: rgo|run|--|--steps=5
usage: rgo|run|6|--steps|5
usage: rgo|run|--steps|5|--goroutines|6|7
usage: rgo|run|--steps=5|run
# Words that name no option of `run`.
usage: rgo|run|--step|5
usage: rgo|run|--s=5
usage: rgo|run|--stepsx=5
usage: rgo|run|--STEPS|5
usage: rgo|run|--Steps=5
usage: rgo|run|--stéps|5
usage: rgo|run|-steps|5
usage: rgo|run|-s|5
usage: rgo|run|-s5
usage: rgo|run|-g|5
usage: rgo|run|--goroutine|5
usage: rgo|run|--g|5
usage: rgo|run|steps|5
usage: rgo|run|steps=5
usage: rgo|run|---steps|5
usage: rgo|run|--=5
usage: rgo|run|--steps |5
usage: rgo|run|--steps|5|--help
usage: rgo|run|--steps=5|-h
usage: rgo|run|--steps=5|--version
# `--pages`, `--page-words` and `--regions`: no number, or one that the option does not take.
usage: rgo|run|--pages
usage: rgo|run|--pages=
usage: rgo|run|--pages|
usage: rgo|run|--pages|--stats
usage: rgo|run|--pages|--
usage: rgo|run|--pages|many
usage: rgo|run|--pages|+5
usage: rgo|run|--pages|-5
usage: rgo|run|--pages|0
usage: rgo|run|--pages=0
usage: rgo|run|--pages|65537
usage: rgo|run|--pages=65537
usage: rgo|run|--pages|4294967297
usage: rgo|run|--pages|18446744073709551617
usage: rgo|run|--page-words
usage: rgo|run|--page-words=
usage: rgo|run|--page-words|0
usage: rgo|run|--page-words|15
usage: rgo|run|--page-words=15
usage: rgo|run|--page-words|4097
usage: rgo|run|--page-words=4097
usage: rgo|run|--page-words|18446744073709551648
usage: rgo|run|--regions
usage: rgo|run|--regions=
usage: rgo|run|--regions|0
usage: rgo|run|--regions=0
usage: rgo|run|--regions|65537
usage: rgo|run|--regions=65537
usage: rgo|run|--regions|18446744073709551617
# `--workers`: no number, one that it does not take, twice, and in another place.
usage: rgo|run|--workers
usage: rgo|run|--workers=
usage: rgo|run|--workers|
usage: rgo|run|--workers|--
usage: rgo|run|--workers|--|4
usage: rgo|run|--workers|--stats
usage: rgo|run|--workers|--steps=5
usage: rgo|run|--workers|x
usage: rgo|run|--workers=x
usage: rgo|run|--workers|-1
usage: rgo|run|--workers=-1
usage: rgo|run|--workers|+4
usage: rgo|run|--workers|4x
usage: rgo|run|--workers|0
usage: rgo|run|--workers=0
usage: rgo|run|--workers|000
usage: rgo|run|--workers|65
usage: rgo|run|--workers=65
usage: rgo|run|--workers|260
usage: rgo|run|--workers|4294967300
usage: rgo|run|--workers|18446744073709551620
usage: rgo|run|--workers=4|--workers=4
usage: rgo|run|--workers|2|--workers|3
usage: rgo|run|--workers|2|--steps=5|--workers=3
usage: rgo|run|--workers|2|3
usage: rgo|run|--|--workers=2
usage: rgo|run|--worker|2
usage: rgo|run|--workerss=2
usage: rgo|run|--Workers=2
usage: rgo|run|-workers|2
usage: rgo|run|-w|2
usage: rgo|run|workers|2
usage: rgo|--workers=2|run
usage: rgo|check|--workers|2
usage: rgo|emit|--workers=2
usage: rgo|code|--workers=2
usage: rgo|big|3|--workers|2
usage: rgo|big|3|--workers=2
usage: rgo|big|--workers=2|3
# All pages together have too many words.
usage: rgo|run|--pages=65536|--page-words=257
usage: rgo|run|--page-words|257|--pages|65536
usage: rgo|run|--pages=65536|--page-words=4096
usage: rgo|run|--pages=4097|--page-words=4096
usage: rgo|run|--pages=5593|--page-words=3000
usage: rgo|run|--pages=65536|--page-words=257|--stats
# `--stats` with a value, and options that occur twice.
usage: rgo|run|--stats=true
usage: rgo|run|--stats=false
usage: rgo|run|--stats=x
usage: rgo|run|--stats=
usage: rgo|run|--stats|true
usage: rgo|run|--stats|x
usage: rgo|run|--stats|
usage: rgo|run|--stats|--stats
usage: rgo|run|--stats|--pages=5|--stats
usage: rgo|run|--stats|--|--stats
usage: rgo|run|--pages=5|--pages=5
usage: rgo|run|--pages|5|--pages=6
usage: rgo|run|--page-words=32|--page-words=32
usage: rgo|run|--page-words|32|--page-words|33
usage: rgo|run|--regions=5|--regions=5
usage: rgo|run|--regions|5|--stats|--regions=5
usage: rgo|run|--pages=5|--steps=5|--pages=5
# Words that are nearly one of these options.
usage: rgo|run|--stat
usage: rgo|run|--statss
usage: rgo|run|-stats
usage: rgo|run|stats
usage: rgo|run|--Stats
usage: rgo|run|--page|5
usage: rgo|run|--page=5
usage: rgo|run|--page_words|32
usage: rgo|run|--pagewords=32
usage: rgo|run|--page-word=32
usage: rgo|run|--page|words|32
usage: rgo|run|--region|5
usage: rgo|run|-p|5
usage: rgo|run|--p=5
usage: rgo|check|--pages|5
usage: rgo|check|--stats
usage: rgo|emit|--page-words=32
usage: rgo|code|--regions=5
usage: rgo|--pages=5|run
# Options in another place.
usage: rgo|--steps|5
usage: rgo|--steps=5
usage: rgo|--steps|5|run
usage: rgo|--steps=5|run
usage: rgo|--goroutines|5|run
usage: rgo|check|--steps|5
usage: rgo|check|--steps=5
usage: rgo|check|--goroutines|5
usage: rgo|check|--goroutines=5
usage: rgo|check|--|--steps=5
# `big`: no number, or one that it does not take, further words, and options.
usage: big
usage: rgo|big
usage: rgo|big|
usage: rgo|big|-
usage: rgo|big|--
usage: rgo|big|--|
usage: rgo|big|--|--
usage: rgo|big|x
usage: rgo|big|--|x
usage: rgo|big|+5
usage: rgo|big|-5
usage: rgo|big|--|+5
usage: rgo|big|--|-5
usage: rgo|big| 5
usage: rgo|big|5\x20
usage: rgo|big|5.0
usage: rgo|big|1e3
usage: rgo|big|0x5
usage: rgo|big|5_000
usage: rgo|big|10,000
usage: rgo|big|٥
usage: rgo|big|0
usage: rgo|big|000
usage: rgo|big|--|0
usage: rgo|big|10001
usage: rgo|big|--|10001
usage: rgo|big|4294967297
usage: rgo|big|18446744073709551617
usage: rgo|big|5|5
usage: rgo|big|5|6
usage: rgo|big|--|5|5
usage: rgo|big|5|--|5
usage: rgo|big|5|--|--
usage: rgo|big|--|5|--
usage: rgo|big|5|
usage: rgo|big|5|-
usage: rgo|big|--steps=5|5
usage: rgo|big|--steps|5
usage: rgo|big|5|--steps=5
usage: rgo|big|5|--stats
usage: rgo|big|--stats|5
usage: rgo|big|--|--steps=5
usage: rgo|big|--help
usage: rgo|big|-h
usage: rgo|big|help
usage: rgo|big|run
usage: rgo|big|5|run
usage: rgo|run|big
usage: rgo|5|big
usage: rgo|--|big|5
usage: rgo|Big|5
usage: rgo|bigs|5
usage: rgo|--big|5
usage: rgo|--big=5
usage: rgo|big=5
usage: rgo|big5
# `runcode`: other names, options out of their ranges or twice, and further words.
usage: rgo|runcod
usage: rgo|runcodes
usage: rgo|run-code
usage: rgo|run|code
usage: rgo|code|run
usage: rgo|Runcode
usage: rgo|--runcode
usage: rgo|runcode|
usage: rgo|runcode|x
usage: rgo|runcode|5
usage: rgo|runcode|runcode
usage: rgo|runcode|--|x
usage: rgo|runcode|--help
usage: rgo|runcode|--steps
usage: rgo|runcode|--steps|0
usage: rgo|runcode|--steps=4398046511105
usage: rgo|runcode|--goroutines=1000001
usage: rgo|runcode|--pages=0
usage: rgo|runcode|--page-words=15
usage: rgo|runcode|--regions=65537
usage: rgo|runcode|--workers=65
usage: rgo|runcode|--workers|+4
usage: rgo|runcode|--pages=65536|--page-words=257
usage: rgo|runcode|--stats=true
usage: rgo|runcode|--stats|--stats
usage: rgo|runcode|--steps=5|--steps|5
usage: rgo|--steps=5|runcode
";

fn asks<R: Abort + AllocGlobal>(rt: &R, row: &str) -> Result<(), Fail> {
    let Some((wanted, line)) = row.split_once(": ") else {
        return Err(Fail::new(format_args!("not a row: {row}")));
    };
    let words = words_of(rt.alloc(), line, '|')?;
    let found = shown(rt.alloc(), read_words(rt.alloc(), words.as_slice()))?;
    same(rt, line, &found.as_str(), &wanted);
    Ok(())
}

fn all_ask<R: Abort + AllocGlobal>(rt: &R, table: &str) -> Result<(), Fail> {
    for row in table.lines() {
        if !row.starts_with('#') {
            asks(rt, row)?;
        }
    }
    Ok(())
}

#[test]
fn words_ask_for_their_commands(rt: HostRuntime) -> Result<(), Fail> {
    all_ask(&rt, RUNS)?;
    all_ask(&rt, SIZED)?;
    all_ask(&rt, WORKED)?;
    all_ask(&rt, OTHERS)
}

#[test]
fn other_words_ask_for_none(rt: HostRuntime) -> Result<(), Fail> {
    all_ask(&rt, REFUSED)?;
    let none = read_words(rt.alloc(), &[]);
    same(&rt, "no words", &none, &Err(WordsError::Usage));
    Ok(())
}

#[test]
fn errors_have_their_texts(rt: HostRuntime) -> Result<(), Fail> {
    let alloc = rt.alloc();
    let memory = format!(in alloc; "{}", WordsError::NoMemory)?;
    same(&rt, "memory", &memory.as_str(), &"out of memory");
    let usage = format!(in alloc; "{}", WordsError::Usage)?;
    same(&rt, "usage", &usage.as_str(), &"no command");
    Ok(())
}
