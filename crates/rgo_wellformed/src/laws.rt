//! Laws and examples of the definitions.

ghost use Rattle.rgo_wellformed.specs.Examples.{IllFormedExamples, ProgramExamples, WellFormedExamples};
ghost use Rattle.rgo_wellformed.specs.Laws.{
  OneType,
  StmtsInParts,
  TypesByIndex,
  TypesExist,
};

/// A term has one type, and the struct that its type names exists.
pub fn one_type()
    ensures one_type { OneType }
    ensures exists { TypesExist }
{}

/// A list of terms has its types item by item, and a list of statements is well-formed in two parts.
pub fn lists()
    ensures terms { TypesByIndex }
    ensures stmts { StmtsInParts }
{}

/// Statements and programs that are well-formed, and others that are not.
pub fn examples()
    ensures well { WellFormedExamples }
    ensures ill { IllFormedExamples }
    ensures programs { ProgramExamples }
{}
