//! Tables of three sizes. The expected words are computed by hand from the layout.
//!
//! 32 words come first: the clock is word 0, the number of goroutines word 16. Two rows have a word for each page: states and
//! links. Two rows have a word for each slot and one for Global: counts and heads. 16 words that nobody uses follow each row.
//! The words of the pages and then the package variables come last. In a new table the number of goroutines is 1, the count
//! of Global is 2, and each other word is 0.

ghost use Rattle.std.specs.Prelude.{◌≡◌, ◌≤◌, ◌^◌, length};
ghost use Rattle.std.specs.Mem.Slots.{IsFull, slots_len};
ghost use Rattle.rgo_core.specs.Image.{table_sizes};
ghost use Rattle.rgo_core_memory.specs.Words.{all_words};
ghost use Rattle.rgo_machine.specs.Limits.{most_goroutines};

use crate::texts;
use atomic_table::Closed;
use rgo_checker::check_code;
use rgo_code::Checked;
use rgo_code_text::read_code;
use rgo_core::table::{close, look, open};
use rgo_machine::{Limits, Sizes};
use std::alloc::{AllocError, Global};
use std::process::Abort;
use std::test::Fail;

/// The code of a text that keeps all rules.
fn checked(alloc: Global, text: &str) -> Result<Checked, Fail> {
    let Ok(code) = read_code(alloc, text.as_bytes()) else {
        return Err(Fail::from("the text has no code"));
    };
    match check_code(alloc, &code) {
        Ok(()) => Ok(Checked::new(code)),
        Err(_) => Err(Fail::from("the code breaks a rule")),
    }
}

/// The words that are not 0, each with its position.
fn filled(
    alloc: Global,
    closed: &Closed<(), Global>,
    count: usize,
) -> Result<Vec<(usize, u64)>, AllocError>
    requires count { count ≡ slots_len closed.now.words }
    requires full { IsFull closed.now.words }
{
    let mut found = Vec::new(alloc);
    for i in 0..count {
        let word = closed.word(i);
        if word != 0 {
            found.push((i, word))?;
        }
    }
    Ok(found)
}

/// A table opens with `words` words. It shows at two looks that the run has not ended. When it closes, the number of
/// goroutines is 1, the count of Global, at `global`, is 2, and each other word is 0.
fn opens<R: Abort + AllocGlobal>(
    rt: &R,
    code: &Checked,
    variables: usize,
    sizes: Sizes,
    limits: Limits,
    words: usize,
    global: usize,
) -> Result<(), Fail>
    requires variables { variables ≡ length code.now.variables }
    requires fits { all_words (table_sizes code.now sizes) ≤ 2 ^ 32 }
    requires goroutines { most_goroutines limits ≤ 1000000 }
{
    let (table, mut seat) = open(rt.alloc(), code, variables, sizes, limits)?;
    let count = table.word_count();
    let first = look(&table, &mut seat);
    let second = look(&table, &mut seat);
    let closed = close(table, seat);
    let found = filled(rt.alloc(), &closed, count);
    closed.free();
    assert_eq!(rt; (first, second), (false, false));
    assert_eq!(rt; count, words);
    assert_eq!(rt; found?.as_slice(), [(16, 1), (global, 2)].as_slice());
    Ok(())
}

/// 96 words, and one for Global in each row of slots. The limits are the least.
#[test]
fn a_table_of_the_least_size_opens(rt: HostRuntime) -> Result<(), Fail> {
    let code = checked(rt.alloc(), texts::EMPTY)?;
    let variables = code.code().tac().variables().len();
    assert_eq!(&rt; variables, 0);
    let sizes = Sizes {
        page_words: 0,
        pages: 0,
        regions: 0,
    };
    let limits = Limits {
        steps: 0,
        goroutines: 0,
    };
    opens(&rt, &code, variables, sizes, limits, 98, 64)
}

/// 96 words, 4 in each row of pages, 3 in each row of slots, 4 pages of 16 words, and a variable.
#[test]
fn a_table_of_four_pages_opens(rt: HostRuntime) -> Result<(), Fail> {
    let code = checked(rt.alloc(), texts::SEVEN)?;
    let variables = code.code().tac().variables().len();
    assert_eq!(&rt; variables, 1);
    let sizes = Sizes {
        page_words: 16,
        pages: 4,
        regions: 2,
    };
    let limits = Limits {
        steps: 1000,
        goroutines: 10,
    };
    opens(&rt, &code, variables, sizes, limits, 175, 74)
}

/// 96 words, 256 in each row of pages, 101 in each row of slots, 256 pages of 512 words, and three variables. The limit of
/// goroutines is the greatest that `open` takes.
#[test]
fn a_table_of_many_pages_opens(rt: HostRuntime) -> Result<(), Fail> {
    let code = checked(rt.alloc(), texts::CALL)?;
    let variables = code.code().tac().variables().len();
    assert_eq!(&rt; variables, 3);
    let sizes = Sizes {
        page_words: 512,
        pages: 256,
        regions: 100,
    };
    let limits = Limits {
        steps: u64::MAX,
        goroutines: 1_000_000,
    };
    opens(&rt, &code, variables, sizes, limits, 131_885, 676)
}
