//! The record of a goroutine, as a type that views can hold.
ghost use Rattle.rgo_core_frames.specs.Records.{FramesRec};
ghost use Rattle.rgo_core_frames.specs.goroutines.Opening.{no_record};

use std::marker::Model;

/// A record. No value of it is ever made: contracts see one as the record of `specs/Records.antt`.
pub struct FrameRecord;

impl Model for FrameRecord {
    ghost Value = { FramesRec };

    ghost view = { λ a. no_record };
}
