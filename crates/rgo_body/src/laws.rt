//! What is true of all bodies, and examples.

ghost use Rattle.rgo_body.specs.Examples.{BodyExamples};
ghost use Rattle.rgo_body.specs.Shows.{LikeShown};

/// A body shows no more of a record than is compared. With this, an access that changes only the rest needs no operation here.
pub fn like_shown()
    ensures { LikeShown }
{}

/// Where each definition holds and where it does not.
pub fn examples()
    ensures { BodyExamples }
{}
