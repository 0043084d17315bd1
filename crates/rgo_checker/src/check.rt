//! The checker.

ghost use Rattle.std.specs.Prelude.{◌≡◌, ◌↔◌, Err, IfOk, MatchOption, MatchResult};
ghost use Rattle.rgo_code.specs.Checked.{IsChecked, IsFirstBroken};
ghost use Rattle.rgo_checker.specs.declared.errors.CheckError.TheVariants.{TooLarge};
ghost use Rattle.rgo_checker.specs.Outcomes.{CheckFails};
ghost use Rattle.rgo_checker.specs.Sizes.{HasNumbers, IsTooLargeToCheck};

use crate::errors::CheckError;
use crate::existence::walk_existence;
use crate::sizes::is_too_large;
use crate::walking::walk_rules;
use rgo_code::{Code, CodeRefusal};
use std::alloc::{AllocError, Global};

/// The least rule that is broken, and the first line that breaks it. The first rule is checked at all lines before the
/// others are: these may then rely on numbers that exist, which bounds the memory that they need. If a line breaks it, no
/// other rule can be the least.
fn find_broken(alloc: Global, code: &Code) -> Result<Option<CodeRefusal>, AllocError>
    requires { HasNumbers code.now }
    ensures { IfOk result (λ broken. MatchOption broken (IsChecked code.now)
        (λ x. IsFirstBroken code.now x.rule x.line)) }
{
    match walk_existence(alloc, code)? {
        Some(refusal) => Ok(Some(refusal)),
        None => walk_rules(alloc, code),
    }
}

fn report(code: &Code, broken: Option<CodeRefusal>) -> Result<(), CheckError>
    requires { MatchOption broken (IsChecked code.now) (λ x. IsFirstBroken code.now x.rule x.line) }
    ensures checked { MatchResult result (λ done. IsChecked code.now) (λ e. CheckFails e code.now) }
    ensures fits { (result ≡ Err TooLarge) → ⊥ }
{
    match broken {
        Some(refusal) => Err(CheckError::Refused(refusal)),
        None => Ok(()),
    }
}

/// Whether code keeps the fourteen rules.
///
/// # Errors
///
/// The least rule that it breaks, and the first line that breaks it. `TooLarge` if the lines of its text, with that after
/// the last one, do not all have numbers of 32 bits, which is known before any rule is checked; `NoMemory` on allocation
/// failure.
pub fn check_code(alloc: Global, code: &Code) -> Result<(), CheckError>
    ensures checked { MatchResult result (λ done. IsChecked code.now) (λ e. CheckFails e code.now) }
    ensures large { (result ≡ Err TooLarge) ↔ IsTooLargeToCheck code.now }
{
    if is_too_large(code) {
        return Err(CheckError::TooLarge);
    }
    match find_broken(alloc, code) {
        Ok(broken) => report(code, broken),
        Err(_) => Err(CheckError::NoMemory),
    }
}
