//! What holds of code texts.

ghost use Rattle.rgo_code_text.specs.Examples.{CodeTextExamples};
ghost use Rattle.rgo_code_text.specs.Laws.{TextOrRefusal, OneTextRefusal, OneText, RulesSuffice};

/// No two codes have one text.
pub fn one_text()
    ensures { OneText }
{}

/// A text has at most one first line without form, and the text of code has none.
pub fn one_refusal()
    ensures { OneTextRefusal }
{}

/// Each text is the text of code, or has a first line without form.
pub fn one_of_both()
    ensures { TextOrRefusal }
{}

/// Code that keeps all rules and declares what it uses has a text, if its names are words and its numbers are printable.
pub fn rules_suffice()
    ensures { RulesSuffice }
{}

/// Small code whose parts are printable, and code that has one part that is not; how long texts may be.
pub fn examples()
    ensures { CodeTextExamples }
{}
