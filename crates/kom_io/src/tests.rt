use crate::{
    FileShelf, Got, MemoryShelf, MemorySink, Opened, OutSink, Put, Shelf, Sink, TextRead, Words,
    Written, read_text, write_all_of,
};
use std::alloc::{AllocError, Global};
use std::fs;
use std::test::Fail;

/// A shelf that holds one file, `a`, of the bytes `hello`.
fn shelf_of(alloc: Global, piece: usize, fails: &[u64]) -> Result<MemoryShelf, AllocError> {
    let mut files = Vec::new(alloc);
    let name = String::from_str(alloc, "a")?;
    let bytes = b"hello".to_vec(alloc)?;
    files.push((name, bytes))?;
    let fails = fails.to_vec(alloc)?;
    MemoryShelf::make(alloc, files, piece.max(1), fails)
}

/// What `read_text` answers, as the length of the text or a word.
fn answer_of(read: &TextRead) -> (usize, &'static str) {
    match read {
        TextRead::Text(text) => (text.len(), "text"),
        TextRead::TooLong => (0, "too long"),
        TextRead::ReadFault => (0, "fault"),
        TextRead::Memory => (0, "memory"),
    }
}

#[test]
fn reads_texts_in_pieces(rt: HostRuntime) -> Result<(), Fail> {
    for (name, piece, limit, fails, want) in [
        ("a", 9, 5, 99, (5, "text")),
        ("a", 1, 5, 99, (5, "text")),
        ("a", 2, 4, 99, (0, "too long")),
        ("a", 2, 5, 0, (0, "fault")),
        ("a", 2, 5, 3, (0, "fault")),
        ("b", 2, 5, 99, (0, "fault")),
    ] {
        let mut shelf = shelf_of(rt.alloc(), piece, &[fails])?;
        let read = read_text(rt.alloc(), &mut shelf, name, limit);
        assert_eq!(rt; answer_of(&read), want, "{name} {piece} {limit} {fails}");
    }
    Ok(())
}

#[test]
fn counts_faults_of_each_name(rt: HostRuntime) -> Result<(), Fail> {
    let mut shelf = shelf_of(rt.alloc(), 2, &[0, 2])?;
    assert!(rt; shelf.open_file("a") == Opened::Failed);
    assert_eq!(rt; shelf.faults("a"), 1);
    assert_eq!(rt; shelf.faults("b"), u64::MAX);
    Ok(())
}

#[test]
fn writes_in_pieces(rt: HostRuntime) -> Result<(), Fail> {
    for (room, fails, want, held) in [
        (100, 99, Written::All, 11),
        (100, 1, Written::WriteFault, 4),
        (6, 99, Written::WriteFault, 6),
    ] {
        let fails = [fails].to_vec(rt.alloc())?;
        let mut sink = MemorySink::make(rt.alloc(), room, 4, fails)?;
        let written = write_all_of(&mut sink, b"hello world");
        assert!(rt; written == want, "{room}");
        assert_eq!(rt; sink.bytes().len(), held, "{room}");
    }
    Ok(())
}

#[test]
fn reads_files_of_the_system(rt: HostRuntime) -> Result<(), Fail> {
    let mut words = Words::new(rt.alloc());
    words.push("kom_io_test.txt")?;
    words.push("kom_io_absent.txt")?;
    fs::write(&rt, "kom_io_test.txt", "some text")?;
    let mut shelf = FileShelf::make(&rt, rt.alloc(), &words)?;
    let read = read_text(rt.alloc(), &mut shelf, "kom_io_test.txt", 9);
    fs::remove_file(&rt, "kom_io_test.txt")?;
    assert_eq!(rt; answer_of(&read), (9, "text"));
    let read = read_text(rt.alloc(), &mut shelf, "kom_io_absent.txt", 9);
    assert_eq!(rt; answer_of(&read), (0, "fault"));
    assert_eq!(rt; shelf.faults("kom_io_absent.txt"), 1);
    assert_eq!(rt; shelf.faults("kom_io_test.txt"), 0);
    Ok(())
}

#[test]
fn writes_to_standard_output(rt: HostRuntime) -> Result<(), Fail> {
    let mut sink = OutSink::new(&rt);
    assert!(rt; write_all_of(&mut sink, b"some output\n") == Written::All);
    assert_eq!(rt; sink.faults(), 0);
    Ok(())
}

#[test]
fn keeps_words_in_order(rt: HostRuntime) -> Result<(), Fail> {
    let mut words = Words::new(rt.alloc());
    words.push("sim")?;
    words.push("a")?;
    assert_eq!(rt; words.len(), 2);
    assert_eq!(rt; words.at(1), Some("a"));
    assert_eq!(rt; words.at(2), None);
    Ok(())
}
