//! What a recorder's file holds, and what is read of it.
use super::scripts::FIRST;
use super::tools::{
    Answer, ByHand, Given, ROW_1, ROW_2, ROW_3, file_of, give, group, joined, opened,
};
use disk_model::{Disk, MemDisk};
use ogg_page::{PageBuffer, PageSource, Window};
use ogg_recorder::Recorder;
use std::alloc::Global;
use std::test::Fail;

/// A new file after the first `count` commands.
fn recorded(alloc: Global, count: usize) -> Result<Recorder<MemDisk>, Fail> {
    let mut recorder = opened(alloc, MemDisk::of(alloc, b"")?)?;
    for (given, _) in FIRST.iter().take(count) {
        let _ = give(alloc, &mut recorder, *given)?;
    }
    Ok(recorder)
}

/// How many commands were given, and the pages that the file then has before the closed byte.
const PAGES: [(usize, &[ByHand]); 5] = [
    (1, &[ROW_1]),
    (2, &[ROW_1]),
    (3, &[ROW_1, ROW_2]),
    (4, &[ROW_1, ROW_2]),
    (5, &[ROW_1, ROW_2, ROW_3]),
];

/// Seals the file if it can be sealed, and gives the disk back.
pub(super) fn sealed<D: Disk>(recorder: Recorder<D>) -> D {
    if recorder.is_failed() || recorder.held() > 0 {
        return recorder.give_back();
    }
    match recorder.seal() {
        Ok(disk) => disk,
        Err((_, disk)) => disk,
    }
}

#[test]
fn the_file_is_the_pages_and_one_closed_byte(rt: HostRuntime) -> Result<(), Fail> {
    let alloc = rt.alloc();
    for &(count, pages) in &PAGES {
        let disk = recorded(alloc, count)?.give_back();
        assert!(rt; disk.contents() == file_of(alloc, pages, b"\0")?.as_slice());
    }
    // A sealed file has no closed byte.
    let disk = sealed(recorded(alloc, 5)?);
    assert!(rt; disk.contents() == joined(alloc, &[ROW_1, ROW_2, ROW_3])?.as_slice());
    Ok(())
}

/// A new file with two commands, and a third that waits for its group.
fn waiting(alloc: Global) -> Result<(Answer, Recorder<MemDisk>), Fail> {
    let mut recorder = recorded(alloc, 3)?;
    group(&mut recorder, 2);
    let answer = give(alloc, &mut recorder, Given::End(1))?;
    Ok((answer, recorder))
}

/// Five committed bytes.
fn read(recorder: &mut Recorder<MemDisk>) -> Option<[u8; 5]> {
    let mut packet = [0; 5];
    if recorder.end() != 64 || recorder.read(59, &mut packet).is_err() {
        return None;
    }
    Some(packet)
}

/// The number of the next page.
fn next_sequence<S: PageSource>(window: &mut Window<S>) -> Option<u32> {
    if window.advance().is_err() {
        return None;
    }
    window.lent().map(|(_, page)| page.sequence())
}

/// The numbers of the first two pages, if the recorder is their source.
fn sequences<D: Disk + Drop>(recorder: Recorder<D>, buffer: PageBuffer) -> [Option<u32>; 2] {
    let end = recorder.end();
    let mut window = Window::new(recorder, buffer, 0, end);
    [next_sequence(&mut window), next_sequence(&mut window)]
}

#[test]
fn what_is_committed_is_read_while_a_command_waits(rt: HostRuntime) -> Result<(), Fail> {
    let buffer = PageBuffer::new(rt.alloc())?;
    let (answer, mut recorder) = waiting(rt.alloc())?;
    assert!(rt; answer == Answer::Held(3));
    assert!(rt; (recorder.count(), recorder.held(), recorder.end()) == (3, 1, 64));
    assert!(rt; read(&mut recorder) == Some(*b"hello"));
    assert!(rt; sequences(recorder, buffer) == [Some(0), Some(1)]);
    Ok(())
}
