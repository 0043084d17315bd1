//! The record of a goroutine, as a type that views can hold.
ghost use Rattle.rgo_core.specs.Records.{Record as Whole, begins_with};
ghost use Rattle.rgo_core_frames.specs.goroutines.Opening.{no_record};

use std::marker::Model;

/// A record. No value of it is ever made: contracts see one as the record of `specs/Records.antt`.
pub struct Record;

impl Model for Record {
    ghost Value = { Whole };

    ghost view = { λ a. begins_with no_record };
}
