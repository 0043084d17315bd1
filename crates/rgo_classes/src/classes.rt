//! Classes of a function's members, and what callers see of them.

ghost use Rattle.std.specs.Prelude.{◌≡◌, slice_index_or};
ghost use Rattle.rgo_tac.specs.declared.regions.Class.TheVariants as class;

use rgo_tac::Class;
use rgo_typed::Row;

/// The classes of a function's parameters and of its result, as its callers see them.
#[derive(Drop)]
pub struct Summary {
    pub params: Row<Class>,
    pub result: Class,
}

/// The summaries of a program's functions, by number.
#[derive(Drop)]
pub struct Summaries {
    pub functions: Row<Summary>,
}

/// The classes of a function's variables, by number, and of its result.
#[derive(Drop)]
pub struct Classes {
    pub variables: Row<Class>,
    pub result: Class,
}

impl Classes {
    /// The class of the variable of this number; `NoClass` if the function has none.
    pub fn of(&self, variable: u32) -> Class
        ensures { result ≡ slice_index_or self.now.variables variable class.NoClass }
    {
        match self.variables.items().get(variable as usize) {
            Some(class) => *class,
            None => Class::NoClass,
        }
    }

    /// The class of the result; `NoClass` if it is neither a pointer nor a slice nor a channel, or if there is none.
    pub fn of_result(&self) -> Class
        ensures { result ≡ self.now.result }
    {
        self.result
    }
}
