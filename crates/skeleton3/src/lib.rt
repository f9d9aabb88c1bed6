//! Packets of an Ogg Skeleton, version 3.0, read and written (Xiph, "Ogg Skeleton 3.0").
//!
//! A Skeleton is a logical stream that says what the other streams of its link are: one fishead for the link, and one
//! fisbone for each stream. What is read borrows from the packet, and no memory is taken; exactly the packets without a
//! fault are accepted, and of any other the first fault is reported. Writing appends the whole packet to the caller's
//! vector, or nothing. What was written is read as the same value.
//!
//! Start at `specs/Fishead.antt` and `specs/Fisbone.antt`, which say what the packets are, and at
//! `specs/Fields.antt` for the message fields, in which a fisbone names its media type.
#![tactic(auto)]

mod fault;
mod field;
mod fields;
mod fisbone;
mod fishead;
mod laws;
mod message;
mod rules;

pub use fault::SkeletonFault;
pub use field::Field;
pub use fields::is_content_type;
pub use fisbone::Fisbone;
pub use fishead::Fishead;
pub use laws::{
    fields_of_commands_are_fields, fisbones_with_fields_are_held, media_types_are_field_values,
};
pub use message::MessageFields;
pub use rules::{LONGEST_NAME, LONGEST_VALUE, MOST_FIELDS, is_field, is_media_type};
pub use std::alloc::AllocError as Memory;
