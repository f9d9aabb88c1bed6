//! What the Skeletons that are left out say, if a `Begin` may have it.
ghost use Rattle.std.specs.Prelude.{◌≡◌, ◌∷◌, [], Some, None, IfOk, if◌then◌else◌, option_map, unwrap_or, drop};
ghost use Rattle.chain_rules.specs.Decision.{is_positive};
ghost use Rattle.skeleton3.specs.Fields.{fields_of, is_field};
ghost use Rattle.skeleton3.specs.Fisbone.{fisbone_of};
ghost use Rattle.import_changes.specs.Said.{IsFoundIn, IsHeadIn, IsOfIn, fields_said, found_of, further, is_head, is_of, kept_fields};

use ogg_command::{Listed, Memory};
use skeleton3::{
    Field, Fisbone, Fishead, LONGEST_NAME, LONGEST_VALUE, MOST_FIELDS, MessageFields,
    is_content_type, is_field, is_media_type,
};
use std::alloc::Global;

/// Whether a number is above 0.
fn is_positive(number: i64) -> bool
    ensures { result ≡ is_positive number }
{
    number > 0
}

/// Whether a `Begin` may have the times of this fishead.
fn is_head(fishead: &Fishead) -> bool
    ensures { result ≡ is_head fishead.now }
{
    is_positive(fishead.presentation.1) && is_positive(fishead.base.1)
}

/// The fishead that this packet is, if a `Begin` may have its times.
pub fn head_in(packet: &[u8]) -> Option<Fishead>
    ensures { IsHeadIn packet.now result }
{
    match Fishead::read(packet) {
        Ok(fishead) => {
            if is_head(&fishead) {
                return Some(fishead);
            }
            None
        }
        Err(_) => None,
    }
}

/// Whether this fisbone is that of the stream with this serial, and a `Begin` may have its media type and its rate.
fn is_of(fisbone: &Fisbone<'_>, serial: u32) -> bool
    ensures { result ≡ is_of serial (fisbone_of fisbone.now) }
{
    fisbone.serial == serial
        && (is_media_type(fisbone.media)
            && (is_positive(fisbone.rate.0) && is_positive(fisbone.rate.1)))
}

/// The fisbone that this packet is, if it is that of the stream with this serial and a `Begin` may have its media type
/// and its rate.
fn of_in(packet: &[u8], serial: u32) -> Option<Fisbone<'_>>
    ensures { IsOfIn serial packet.now (option_map fisbone_of result) }
{
    match Fisbone::read(packet) {
        Ok(fisbone) => {
            if is_of(&fisbone, serial) {
                return Some(fisbone);
            }
            None
        }
        Err(_) => None,
    }
}

/// The first of the packets that is such a fisbone of the stream, and what it is read as.
pub fn found_in(said: &[Listed<u8>], serial: u32) -> Option<(&[u8], Fisbone<'_>)>
    ensures { IsFoundIn serial said.now (option_map found_of result) }
{
    for packet in said {
        match of_in(packet.as_slice(), serial) {
            Some(fisbone) => return Some((packet.as_slice(), fisbone)),
            None => {}
        }
    }
    None
}

/// A copy of a message field, if a `Begin` may have it.
fn field_in(alloc: Global, name: &[u8], value: &[u8]) -> Result<Option<Field>, Memory>
    ensures { IfOk result (λ now. now ≡ (if is_field (name.now, value.now) then Some (name.now, value.now) else None)) }
{
    // A long field isn't copied first.
    if name.len() > LONGEST_NAME || value.len() > LONGEST_VALUE {
        return Ok(None);
    }
    let field = Field::of(name.to_vec(alloc)?, value.to_vec(alloc)?);
    if is_field(&field) {
        return Ok(Some(field));
    }
    Ok(None)
}

/// Copies of the fields that don't name a media type, if a `Begin` may have all of them.
fn kept_fields(alloc: Global, message: MessageFields<'_>) -> Result<Vec<Field>, Memory>
    ensures { IfOk result (λ now. now.items ≡ kept_fields (further message.entry)) }
{
    let mut now = Vec::new(alloc);
    for (name, value) in message {
        if !is_content_type(name) {
            match field_in(alloc, name, value)? {
                Some(field) => {
                    if now.len() >= MOST_FIELDS {
                        return Ok(Vec::new(alloc));
                    }
                    now.push(field)?;
                }
                None => return Ok(Vec::new(alloc)),
            }
        }
    }
    Ok(now)
}

/// Copies of a fisbone's message fields but for its media type, if a `Begin` may have all of them.
pub fn fields_said(alloc: Global, packet: &[u8]) -> Result<Vec<Field>, Memory>
    ensures { IfOk result (λ now. now.items ≡ fields_said packet.now) }
{
    match Fisbone::message(packet) {
        Ok(message) => kept_fields(alloc, message),
        Err(_) => Ok(Vec::new(alloc)),
    }
}
