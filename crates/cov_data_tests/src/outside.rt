use cov_outside::{
    Failed, FolderShelf, MemShelf, MemSink, MemSource, NullSink, Shelf, ShelfError, Sink,
    SinkError, Source, StdSink, StdSource, Stream, SureShelf, SureSink, SureSource,
};
use std::alloc::{AllocError, Global};
use std::process::Abort;
use std::test::Fail;
use std::{env, fs, process};

/// What the reads of a source give, each into a buffer of three bytes that holds `...` before.
fn assert_reads<S: Source>(
    rt: &impl Abort,
    source: &mut S,
    expected: &[(Result<usize, Failed>, [u8; 3])],
) {
    for (answer, bytes) in expected {
        let mut buf = *b"...";
        let result = source.read(&mut buf);
        assert_eq!(rt; result, *answer);
        assert_eq!(rt; buf, *bytes);
    }
}

#[test]
fn sources_give_their_bytes(rt: HostRuntime) -> Result<(), Fail> {
    let alloc = rt.alloc();
    let mut source = MemSource::new(b"abcde".to_vec(alloc)?, vec![in alloc; 1, 4]?);
    assert_reads(
        &rt,
        &mut source,
        &[
            (Ok(3), *b"abc"),
            (Err(Failed), *b"..."),
            (Ok(2), *b"de."),
            (Ok(0), *b"..."),
            (Err(Failed), *b"..."),
            (Ok(0), *b"..."),
        ],
    );
    let mut sure = SureSource::new(b"abcd".to_vec(alloc)?);
    assert_eq!(rt; sure.read(&mut []), Ok(0));
    assert_reads(
        &rt,
        &mut sure,
        &[(Ok(3), *b"abc"), (Ok(1), *b"d.."), (Ok(0), *b"...")],
    );
    Ok(())
}

#[test]
fn sinks_hold_what_was_written(rt: HostRuntime) -> Result<(), Fail> {
    let alloc = rt.alloc();
    let mut sink = MemSink::new(alloc, b"<".to_vec(alloc)?, vec![in alloc; 0, 2]?);
    let answers = [
        (b"ab", Err(SinkError::Failed)),
        (b"cd", Ok(())),
        (b"ef", Err(SinkError::Failed)),
        (b"gh", Ok(())),
    ];
    for (piece, answer) in answers {
        assert_eq!(rt; sink.write(alloc, piece), answer);
    }
    assert_eq!(rt; sink.into_bytes().as_slice(), b"<cdgh".as_slice());

    let mut sure = SureSink::new(alloc, Vec::new(alloc));
    assert_eq!(rt; sure.write(alloc, b"ab"), Ok(()));
    assert_eq!(rt; sure.write(alloc, b"c"), Ok(()));
    assert_eq!(rt; sure.into_bytes().as_slice(), b"abc".as_slice());

    assert_eq!(rt; NullSink.write(alloc, b"ab"), Ok(()));
    Ok(())
}

/// Two files, the first of which is named twice.
fn two_files(alloc: Global) -> Result<Vec<(String, Vec<u8>)>, AllocError> {
    let mut files = Vec::new(alloc);
    for (name, bytes) in [("a", "one"), ("b", "two"), ("a", "three")] {
        let bytes = Vec::from_slice(alloc, bytes.as_bytes())?;
        files.push((String::from_str(alloc, name)?, bytes))?;
    }
    Ok(files)
}

fn assert_file<S: Shelf>(
    rt: &impl Abort,
    alloc: Global,
    shelf: &mut S,
    name: &str,
    expected: Result<&str, ShelfError>,
) {
    match shelf.read(alloc, name, 4) {
        Ok(bytes) => {
            assert!(rt;
                expected.is_ok_and(|text| text.as_bytes() == bytes.as_slice()),
                "{name}"
            )
        }
        Err(error) => assert_eq!(rt; expected.err(), Some(error), "{name}"),
    }
}

#[test]
fn shelves_keep_files_by_name(rt: HostRuntime) -> Result<(), Fail> {
    let alloc = rt.alloc();
    let mut shelf = MemShelf::new(alloc, two_files(alloc)?, vec![in alloc; 1, 4]?);
    assert_file(&rt, alloc, &mut shelf, "a", Ok("one"));
    assert_file(&rt, alloc, &mut shelf, "a", Err(ShelfError::Failed));
    assert_eq!(rt; shelf.put(alloc, "a", b"12345"), Ok(()));
    assert_file(&rt, alloc, &mut shelf, "a", Err(ShelfError::TooLarge));
    assert_eq!(rt; shelf.put(alloc, "c", b"more"), Err(ShelfError::Failed));
    assert_file(&rt, alloc, &mut shelf, "c", Err(ShelfError::Absent));
    assert_file(&rt, alloc, &mut shelf, "b", Ok("two"));

    let mut sure = SureShelf::new(alloc, two_files(alloc)?);
    assert_eq!(rt; sure.put(alloc, "c", b""), Ok(()));
    assert_file(&rt, alloc, &mut sure, "a", Ok("one"));
    assert_file(&rt, alloc, &mut sure, "c", Ok(""));
    assert_file(&rt, alloc, &mut sure, "d", Err(ShelfError::Absent));
    Ok(())
}

#[test]
fn standard_streams_are_there(rt: HostRuntime) -> Result<(), Fail> {
    let mut input = StdSource::new(&rt)?;
    let mut buf = [0; 1];
    assert!(rt; input.read(&mut buf).is_ok());
    for stream in [Stream::Output, Stream::Error] {
        let mut sink = StdSink::new(&rt, stream)?;
        assert_eq!(rt; sink.write(rt.alloc(), b"written\n"), Ok(()));
    }
    Ok(())
}

#[test]
fn folders_are_shelves(rt: HostRuntime) -> Result<(), Fail> {
    let alloc = rt.alloc();
    let folder = env::temp_dir(&rt)?.join(
        alloc,
        format!(in alloc; "shelf-{}", process::id(rt.process()))?,
    )?;
    fs::create_dir_all(&rt, folder.as_path())?;
    let mut shelf = FolderShelf::new(alloc, &rt, folder.as_str())?;
    assert_file(&rt, alloc, &mut shelf, "a", Err(ShelfError::Absent));
    for text in ["one", "two!"] {
        assert_eq!(rt; shelf.put(alloc, "a", text.as_bytes()), Ok(()));
        assert_file(&rt, alloc, &mut shelf, "a", Ok(text));
    }
    let absolute = folder.join(alloc, "a")?;
    assert_file(&rt, alloc, &mut shelf, absolute.as_str(), Ok("two!"));
    assert_eq!(rt; shelf.put(alloc, absolute.as_str(), b"12345"), Ok(()));
    assert_file(&rt, alloc, &mut shelf, "a", Err(ShelfError::TooLarge));
    assert_file(&rt, alloc, &mut shelf, "", Err(ShelfError::Absent));
    assert_file(&rt, alloc, &mut shelf, "a/b", Err(ShelfError::Absent));
    assert_eq!(rt; shelf.put(alloc, "no/b", b""), Err(ShelfError::Failed));
    fs::remove_dir_all(&rt, folder.as_path())?;
    Ok(())
}
