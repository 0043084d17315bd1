//! The limits of a run and the number of its workers, as the options of `run` set them. Each number has its bounds here and nowhere
//! else: what runs a program takes them as premises and makes no test of its own.

ghost use Rattle.std.specs.Prelude.{◌≡◌, false, IfSome};
ghost use Rattle.clap.specs.Words.{found_of, rows_of};
ghost use Rattle.rgo_command_line.specs.Limits.{PagesFit, IsBig, LieInBounds, LiesInBounds, LimitsLieInBounds, SizesLieInBounds};
ghost use Rattle.rgo_command_line.specs.Limits.{big_of, fitting, is_given, limit_of, limits_of, options_of, recording_of, sizes_of};

use crate::numbers::number_within;
use clap::ArgMatches;
use rgo_machine::{Limits, Sizes};

/// What the options of `run` set.
#[derive(Clone, Copy, Debug, PartialEq, Eq)]
pub struct RunOptions {
    /// `--steps`, from 1 to 4,398,046,511,104 instructions that all goroutines execute together, and
    /// `--goroutines`, from 1 to 1,000,000 goroutines that are started, `main` included.
    pub limits: Limits,
    /// `--page-words`, from 16 to 4,096 words in a page; `--pages`, from 1 to 65,536 pages in use at
    /// one time; and `--regions`, from 1 to 65,536 regions that are live at one time, the global region
    /// not counted. All pages together have at most 16,777,216 words. A word has one field of a
    /// structure or one element of a slice.
    pub sizes: Sizes,
    /// `--workers`: on how many workers (threads) the goroutines run, from 1 to 64.
    pub workers: u32,
    /// `--stats`: whether one line on standard error, after the run, counts its regions, pages, objects
    /// and goroutines.
    pub stats: bool,
}

impl Default for RunOptions {
    ghost use Rattle.rgo_command_line.specs.Limits.{default_options};

    ghost is_default = { λ options. options ≡ default_options };

    /// What `run` sets without options.
    fn default() -> RunOptions {
        RunOptions {
            limits: Limits {
                steps: STEPS.default,
                goroutines: GOROUTINES.default as usize,
            },
            sizes: Sizes {
                page_words: PAGE_WORDS.default as usize,
                pages: PAGES.default as usize,
                regions: REGIONS.default as usize,
            },
            workers: WORKERS.default as u32,
            stats: false,
        }
    }
}

/// The numbers that an option takes, and its default.
#[derive(Clone, Copy)]
pub(crate) struct Bounds {
    pub least: u64,
    pub most: u64,
    pub default: u64,
}

/// The most steps that all goroutines may take together; 4,398,046,511,104 is 2^42.
const STEPS: Bounds = Bounds {
    least: 1,
    most: 4_398_046_511_104,
    default: 4_398_046_511_104,
};

/// The most goroutines, `main` included.
const GOROUTINES: Bounds = Bounds {
    least: 1,
    most: 1_000_000,
    default: 100_000,
};

/// The most pages in use at one time.
const PAGES: Bounds = Bounds {
    least: 1,
    most: 65_536,
    default: 4_096,
};

/// The number of words of a page.
const PAGE_WORDS: Bounds = Bounds {
    least: 16,
    most: 4_096,
    default: 256,
};

/// The most live regions at one time, without the global one.
const REGIONS: Bounds = Bounds {
    least: 1,
    most: 65_536,
    default: 65_536,
};

/// The number of workers on which goroutines run. The default does not depend on the machine, so that a command depends on nothing but
/// its words.
const WORKERS: Bounds = Bounds {
    least: 1,
    most: 64,
    default: 4,
};

/// The most goroutines that `big` starts; the least is one.
const MOST_BIG: u64 = 10_000;

/// The most words of all pages together. The largest page size and the largest number of pages are not allowed together.
const MOST_WORDS: usize = 16_777_216;

#[tactic(auto, using(crate::proofs::RowLemmas::first_value_rows))]
fn limit(matches: &ArgMatches<'_>, name: &str, bounds: Bounds) -> Option<u64>
    ensures value { result ≡ limit_of name.now bounds (rows_of (found_of matches.now)) }
    ensures range { LiesInBounds bounds bounds.default → IfSome result (LiesInBounds bounds) }
{
    match matches.get_str(name) {
        Some(text) => number_within(text, bounds.least, bounds.most),
        None => Some(bounds.default),
    }
}

/// Whether the words have the flag of this name. `clap` gives a flag the value "false" if it is missing, so its presence is not enough.
#[tactic(auto, using(crate::proofs::RowLemmas::first_value_rows))]
fn is_given(matches: &ArgMatches<'_>, name: &str) -> bool
    ensures { result ≡ is_given name.now (rows_of (found_of matches.now)) }
{
    matches.get_str(name) == Some("true")
}

fn limits_of(matches: &ArgMatches<'_>) -> Option<Limits>
    ensures value { result ≡ limits_of (rows_of (found_of matches.now)) }
    ensures range { IfSome result LimitsLieInBounds }
{
    Some(Limits {
        steps: limit(matches, "steps", STEPS)?,
        goroutines: limit(matches, "goroutines", GOROUTINES)? as usize,
    })
}

/// The sizes, if all pages together have at most `MOST_WORDS` words.
fn fitting(sizes: Sizes) -> Option<Sizes>
    requires { SizesLieInBounds sizes }
    ensures value { result ≡ fitting sizes }
    ensures same { IfSome result (λ kept. kept ≡ sizes) }
    ensures fits { IfSome result PagesFit }
{
    if sizes.pages * sizes.page_words <= MOST_WORDS {
        Some(sizes)
    } else {
        None
    }
}

fn sizes_of(matches: &ArgMatches<'_>) -> Option<Sizes>
    ensures value { result ≡ sizes_of (rows_of (found_of matches.now)) }
    ensures range { IfSome result SizesLieInBounds }
    ensures fits { IfSome result PagesFit }
{
    fitting(Sizes {
        page_words: limit(matches, "page-words", PAGE_WORDS)? as usize,
        pages: limit(matches, "pages", PAGES)? as usize,
        regions: limit(matches, "regions", REGIONS)? as usize,
    })
}

/// What the options of `run` set, if each number is one that its option takes and the pages are not
/// too large together.
pub(crate) fn options_of(matches: &ArgMatches<'_>) -> Option<RunOptions>
    ensures value { result ≡ options_of (rows_of (found_of matches.now)) }
    ensures range { IfSome result LieInBounds }
{
    Some(RunOptions {
        limits: limits_of(matches)?,
        sizes: sizes_of(matches)?,
        workers: limit(matches, "workers", WORKERS)? as u32,
        stats: is_given(matches, "stats"),
    })
}

/// What the options of `record` set, which are those of `run` except for `--workers` and `--stats`; none if the words have one of
/// these two. `clap` reads both commands in the same way, so these are refused here.
#[tactic(auto, using(crate::proofs::RowLemmas::first_value_rows))]
pub(crate) fn recording_of(matches: &ArgMatches<'_>) -> Option<RunOptions>
    ensures value { result ≡ recording_of (rows_of (found_of matches.now)) }
    ensures range { IfSome result LieInBounds }
    ensures plain { IfSome result (λ options. options.stats ≡ false) }
{
    let options = options_of(matches)?;
    if matches.get_str("workers").is_some() || options.stats {
        return None;
    }
    Some(options)
}

/// How many goroutines `big` starts, if that is a number from 1 to `MOST_BIG`.
#[tactic(auto, using(crate::proofs::RowLemmas::first_value_rows))]
pub(crate) fn big_of(matches: &ArgMatches<'_>) -> Option<u32>
    ensures value { result ≡ big_of (rows_of (found_of matches.now)) }
    ensures range { IfSome result IsBig }
{
    let number = number_within(matches.get_str("goroutines")?, 1, MOST_BIG)?;
    Some(number as u32)
}
