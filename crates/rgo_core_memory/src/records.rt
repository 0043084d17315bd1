//! What the record of a goroutine has of the table's memory, as a type that views can hold.
ghost use Rattle.rgo_core_memory.specs.Opening.{first_record};
ghost use Rattle.rgo_core_memory.specs.Records.{Rec};

use std::marker::Model;

/// A record. No value of it is ever made: contracts see one as the record of `specs/Records.antt`.
pub struct MemoryRecord;

impl Model for MemoryRecord {
    ghost Value = { Rec };

    ghost view = { λ a. first_record };
}
