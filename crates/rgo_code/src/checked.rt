//! Code that keeps all rules. A function that takes a `Checked` needs no premise on its code, and no second check.

ghost use Rattle.std.specs.Prelude.{◌≡◌};
ghost use Rattle.rgo_code.specs.Checked.{IsChecked};

use crate::code::Code;
use std::marker::Model;

/// Code that keeps the fourteen rules.
#[derive(Drop)]
pub struct Checked {
    code: Code,
}

impl Model for Checked {
    ghost use Rattle.rgo_code.specs.Code as spec;
    ghost use Rattle.rgo_code.specs.Checked.{IsChecked};

    ghost Value = { spec.Code };

    ghost view = { λ c. c.code };

    ghost invariant = { λ c. IsChecked c.code };
}

impl Checked {
    /// Code that is known to keep the rules: by the contract of `insert`, or by an `Ok` of `check_code`.
    pub fn new(code: Code) -> Checked
        requires { IsChecked code }
        ensures { result ≡ code }
    {
        Checked { code }
    }

    pub fn code(&self) -> &Code
        ensures code { result.now ≡ self.now }
        ensures checked { IsChecked result.now }
    {
        &self.code
    }
}
