//! Where the words of a table are. By its contract each position is the one that the image of a state uses. All contracts require
//! at most 2^32 words, so no sum or product overflows.
//!
//! Word 0 is the clock, and word 16 the number of goroutines. These two and each row begin at least 16 words after what comes
//! before them, so that no two share a cache line; within a row words lie side by side. Why: docs/DECISIONS.md, "Tables of words".
ghost use Rattle.std.specs.Prelude.{◌≡◌, ◌<◌, ◌≤◌, ◌^◌, ◌+◌, suc};
ghost use Rattle.rgo_core_memory.specs.Words.{all_words as words_in_all, cell_at as cell_is_at, count_at as count_is_at, head_at as head_is_at, next_at as next_is_at, state_at as state_is_at, variable_at as variable_is_at};

/// How large a table is: its pages, and the words of each; its slots for regions, not counting that of Global, which comes after
/// them; and its package variables. It is fixed for a run: no word of a table ever moves, so positions need no access to find.
#[derive(Clone, Copy)]
pub struct TableSizes {
    pub pages: usize,
    pub page_words: usize,
    pub slots: usize,
    pub variables: usize,
}

/// The number of words.
pub fn all_words(sizes: &TableSizes) -> usize
    requires fits { words_in_all sizes.now ≤ 2 ^ 32 }
    ensures { result ≡ words_in_all sizes.now }
{
    96 + sizes.pages
        + sizes.pages
        + (sizes.slots + 1)
        + (sizes.slots + 1)
        + (sizes.pages * sizes.page_words + sizes.variables)
}

/// The word with the state of a page: 0 if it is free, otherwise the slot for which it is claimed, plus 1. So one exchange shows
/// whether the page is free and claims it.
pub fn state_at(sizes: &TableSizes, page: usize) -> usize
    requires fits { words_in_all sizes.now ≤ 2 ^ 32 }
    requires page { page < sizes.now.pages }
    ensures { result ≡ state_is_at sizes.now page }
{
    32 + page
}

/// The word with the page that follows in the chain, plus 1; 0 if none does. It is meaningful only while the page is on a chain.
pub fn next_at(sizes: &TableSizes, page: usize) -> usize
    requires fits { words_in_all sizes.now ≤ 2 ^ 32 }
    requires page { page < sizes.now.pages }
    ensures { result ≡ next_is_at sizes.now page }
{
    48 + sizes.pages + page
}

/// The word with the count of a slot: 0 if it is free, 1 while its chain is being returned, n + 1 for a region with n stakes. So one
/// subtraction ends a stake and shows whether it was the last one. That of Global is 2 from the start and never changes.
pub fn count_at(sizes: &TableSizes, slot: usize) -> usize
    requires fits { words_in_all sizes.now ≤ 2 ^ 32 }
    requires slot { slot ≤ sizes.now.slots }
    ensures { result ≡ count_is_at sizes.now slot }
{
    64 + sizes.pages + sizes.pages + slot
}

/// The word with the first page of a slot's chain, plus 1; 0 if it has none.
pub fn head_at(sizes: &TableSizes, slot: usize) -> usize
    requires fits { words_in_all sizes.now ≤ 2 ^ 32 }
    requires slot { slot ≤ sizes.now.slots }
    ensures { result ≡ head_is_at sizes.now slot }
{
    80 + sizes.pages + sizes.pages + (sizes.slots + 1) + slot
}

/// A word of a page.
pub fn cell_at(sizes: &TableSizes, page: usize, offset: usize) -> usize
    requires fits { words_in_all sizes.now ≤ 2 ^ 32 }
    requires page { page < sizes.now.pages }
    requires offset { offset < sizes.now.page_words }
    ensures { result ≡ cell_is_at sizes.now page offset }
{
    let before = page * sizes.page_words;
    96 + sizes.pages + sizes.pages + (sizes.slots + 1) + (sizes.slots + 1) + (before + offset)
}

/// A package variable.
pub fn variable_at(sizes: &TableSizes, number: usize) -> usize
    requires fits { words_in_all sizes.now ≤ 2 ^ 32 }
    requires number { number < sizes.now.variables }
    ensures { result ≡ variable_is_at sizes.now number }
{
    96 + sizes.pages
        + sizes.pages
        + (sizes.slots + 1)
        + (sizes.slots + 1)
        + (sizes.pages * sizes.page_words + number)
}
