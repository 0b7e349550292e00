//! What `make` writes and answers, also where its maker or its output fails.

use cov_exclude::MemMaker;
use cov_made::make;
use cov_outside::MemSink;
use cov_why::Why;
use std::alloc::Global;
use std::test::Fail;

/// A seed and a size of at most 16,000, the calls that fail, the text of the answer, and the line.
struct Row {
    title: &'static str,
    seed: u64,
    size: u32,
    maker_fails: &'static [u64],
    out_fails: &'static [u64],
    answer: &'static str,
    out: &'static str,
}

const TEN: &str = "\
make 7 10: 30 lines, 28 statements, 11 missing, 16 branches, 7 partial, 59%, 19 arcs, 21 steps
";

const LARGEST: &str = "\
make 7 16000: 48246 lines, 44174 statements, 14847 missing, 23900 branches, 7885 partial, 67%, \
33393 arcs, 51775 steps
";

static ROWS: [Row; 7] = [
    Row {
        title: "Ten blocks",
        seed: 7,
        size: 10,
        maker_fails: &[],
        out_fails: &[],
        answer: "",
        out: TEN,
    },
    Row {
        title: "The largest size",
        seed: 7,
        size: 16_000,
        maker_fails: &[],
        out_fails: &[],
        answer: "",
        out: LARGEST,
    },
    Row {
        title: "The largest size once more",
        seed: 7,
        size: 16_000,
        maker_fails: &[],
        out_fails: &[],
        answer: "",
        out: LARGEST,
    },
    Row {
        title: "A maker that finds the exclusion too large",
        seed: 7,
        size: 10,
        maker_fails: &[0],
        out_fails: &[],
        answer: "coverage: pattern 0 is too large\n",
        out: "",
    },
    Row {
        title: "A maker that finds the partial pattern too large",
        seed: 7,
        size: 10,
        maker_fails: &[1],
        out_fails: &[],
        answer: "coverage: pattern 1 is too large\n",
        out: "",
    },
    Row {
        title: "A maker that finds the last pattern too large",
        seed: 7,
        size: 10,
        maker_fails: &[3],
        out_fails: &[],
        answer: "coverage: pattern 3 is too large\n",
        out: "",
    },
    Row {
        title: "An output that fails",
        seed: 7,
        size: 10,
        maker_fails: &[],
        out_fails: &[0],
        answer: "coverage: writing output failed\n",
        out: "",
    },
];

/// The text of the answer, and what the output holds.
fn made(alloc: Global, row: &Row) -> Result<(String, String), Fail> {
    let mut maker = MemMaker::new(Vec::from_slice(alloc, row.maker_fails)?);
    let out_fails = Vec::from_slice(alloc, row.out_fails)?;
    let mut out = MemSink::new(alloc, Vec::new(alloc), out_fails);
    let size = row.size.min(16_000);
    let why = match make(alloc, row.seed, size, &mut maker, &mut out) {
        Ok(answered) => {
            drop(answered);
            Why::Done
        }
        Err(why) => why,
    };
    let answer = why.message(alloc, "")?;
    drop(why);
    Ok((answer, String::from_utf8(out.into_bytes())?))
}

#[test]
fn made_sources(rt: HostRuntime) -> Result<(), Fail> {
    let alloc = rt.alloc();
    for row in &ROWS {
        let (answer, out) = made(alloc, row)?;
        assert_eq!(&rt; answer.as_str(), row.answer, "{}", row.title);
        assert_eq!(&rt; out.as_str(), row.out, "{}", row.title);
    }
    Ok(())
}
