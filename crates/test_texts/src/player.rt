//! The player, and the policy that lets it run.
use base64::engine::general_purpose::STANDARD;
use memchr::memmem::find;
use serve_texts::{PLAYER, PLAYER_FRONT, append_player};
use sha2::{Digest, Sha256};
use std::alloc::{AllocError, Global};
use std::test::Fail;

/// What stands between the two, if each stands in the text.
fn between<'a>(before: &[u8], after: &[u8], text: &'a [u8]) -> Option<&'a [u8]> {
    let start = find(text, before)?.saturating_add(before.len());
    let rest = text.get(start..)?;
    let end = find(rest, after)?;
    rest.get(..end)
}

/// A source of a Content Security Policy: the directive, and the hash of the text.
fn source_of(alloc: Global, directive: &[u8], text: &[u8]) -> Result<Vec<u8>, AllocError> {
    let mut hasher = Sha256::new();
    hasher.update(text);
    let hash = STANDARD.encode(alloc, &hasher.finalize())?;
    let mut source = Vec::from_slice(alloc, directive)?;
    source.extend_from_slice(b" 'sha256-")?;
    source.extend_from_slice(hash.as_bytes())?;
    source.extend_from_slice(b"'; ")?;
    Ok(source)
}

#[test]
fn the_policy_has_the_hashes_of_the_style_and_of_the_script(rt: HostRuntime) -> Result<(), Fail> {
    let parts: [(&[u8], &[u8], &[u8]); 2] = [
        (b"<style>", b"</style>", b"style-src"),
        (b"<script>", b"</script>", b"script-src"),
    ];
    for &(before, after, directive) in &parts {
        let text = between(before, after, PLAYER).unwrap_or(b"");
        assert!(rt; !text.is_empty());
        let source = source_of(rt.alloc(), directive, text)?;
        assert!(rt; find(PLAYER_FRONT, source.as_slice()).is_some());
    }
    Ok(())
}

#[test]
fn the_page_is_small_and_has_nothing_from_elsewhere(rt: HostRuntime) {
    assert!(rt; PLAYER.len() < 12_000);
    let foreign: [&[u8]; 8] = [
        b"http:",
        b"https:",
        b"\"//",
        b"@import",
        b"url(",
        b"innerHTML",
        b" style=",
        b" onclick=",
    ];
    for &text in &foreign {
        assert!(rt; find(PLAYER, text).is_none());
    }
}

#[test]
fn it_plays_without_its_script(rt: HostRuntime) {
    let needed: [&[u8]; 7] = [
        b"<html lang=\"en\">",
        b"<meta name=\"viewport\"",
        b"controls preload=\"none\" src=\"live\"",
        b"<a href=\"live\">",
        b"<a href=\"all\">",
        b"<a href=\"./\">",
        b"<a href=\"status\">",
    ];
    for &text in &needed {
        assert!(rt; find(PLAYER, text).is_some());
    }
}

#[test]
fn head_gets_the_head_alone(rt: HostRuntime) -> Result<(), Fail> {
    let mut whole = Vec::new(rt.alloc());
    append_player(&mut whole, false)?;
    let mut head = Vec::new(rt.alloc());
    append_player(&mut head, true)?;
    assert!(rt; head.as_slice().ends_with(b"\r\n\r\n"));
    assert!(rt; whole.as_slice().strip_prefix(head.as_slice()) == Some(PLAYER));
    Ok(())
}
