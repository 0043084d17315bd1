//! The rules of checked code, and the lines of a code text at which they are kept or broken.

ghost use Rattle.std.specs.Prelude.{◌≡◌};
ghost use Rattle.rgo_code.specs.Checked.{rule_number};

/// A rule, in the order of the rules' numbers. The order matters: the least broken rule is reported, and a rule may rely on those
/// before it.
#[derive(Clone, Copy, Debug, PartialEq, Eq)]
pub enum Rule {
    /// Numbers, names and targets exist, names differ, and there is a `main`.
    Exists,
    /// Variables have the types that instructions need.
    Types,
    /// A variable or a result has a class exactly where it is a pointer, a slice or a channel.
    Classes,
    /// The variables that an instruction joins have one class.
    Joins,
    /// A variable that package variables are joined with has the class Global.
    Globals,
    /// A call passes the classes of its arguments.
    Calls,
    /// The start of a goroutine does, too, and the function has no result.
    Starts,
    /// The names that are live at the start are those of parameters.
    Entry,
    /// An instruction creates the own names that it uses and that were not held.
    Creations,
    /// A call protects the names that it passes and that are needed after it, so that the callee's removals do not end them.
    Protections,
    /// A returned variable has the class of the result.
    Returns,
    /// The region of the result is neither created nor removed, since it is the caller's.
    Lending,
    /// Names are removed exactly where they die.
    Removals,
    /// Before a return no name is held, and a return creates none.
    Endings,
}

impl Rule {
    /// From 1 to 14.
    pub fn number(self) -> u8
        ensures { result ≡ rule_number self }
    {
        match self {
            Rule::Exists => 1,
            Rule::Types => 2,
            Rule::Classes => 3,
            Rule::Joins => 4,
            Rule::Globals => 5,
            Rule::Calls => 6,
            Rule::Starts => 7,
            Rule::Entry => 8,
            Rule::Creations => 9,
            Rule::Protections => 10,
            Rule::Returns => 11,
            Rule::Lending => 12,
            Rule::Removals => 13,
            Rule::Endings => 14,
        }
    }
}

/// A line of a code text after its first: of a struct, of a package variable, and of a function its head, a variable,
/// the line `entry`, an instruction and the line `end`; then the place after the last line, where a missing `main` is reported.
#[derive(Clone, Copy, Debug, PartialEq, Eq)]
pub enum Line {
    Struct(usize),
    Variable(usize),
    Function(usize),
    Slot(usize, usize),
    Entry(usize),
    Instr(usize, usize),
    End(usize),
    AfterLast,
}

/// The least rule that code breaks, and the number of the first line that breaks it, counted from 1.
#[derive(Clone, Copy, Debug, PartialEq, Eq)]
pub struct CodeRefusal {
    pub rule: Rule,
    pub line: u32,
}
