//! What the record of a goroutine has of channels, as a type that views can hold.
ghost use Rattle.rgo_core_channels.specs.Records.{ChannelRec, at_rest};

use std::marker::Model;

/// A record. No value of it is ever made: contracts see one as the record of `specs/Records.antt`.
pub struct ChannelRecord;

impl Model for ChannelRecord {
    ghost Value = { ChannelRec };

    ghost view = { λ a. at_rest };
}
