//! What several tests are given, and do.

use pm_logic::{Bytes, Formula, List, Memory, Name, Pred, Preds, Pure};
use pm_top::{MemSink, Status, SureSource, top};
use std::alloc::Global;
use std::process::Abort;

/// The names of these spellings.
pub fn names(alloc: Global, texts: &[&str]) -> Result<List<Name>, Memory> {
    let mut names = List::new(alloc);
    for text in texts {
        names.push(Name::new(alloc, text)?)?;
    }
    Ok(names)
}

pub fn truth() -> Formula {
    Formula::Pure(Pure::True)
}

/// A table of predicates of these names and numbers of parameters.
pub fn table(alloc: Global, rows: &[(&str, u32)]) -> Result<Preds, Memory> {
    let mut list = List::new(alloc);
    for (name, arity) in rows {
        let name = Name::new(alloc, name)?;
        list.push(Pred {
            name,
            arity: *arity,
            body: truth(),
        })?;
    }
    Ok(Preds { list })
}

/// A piece so many times between two others.
pub fn repeated(
    alloc: Global,
    begin: &str,
    piece: &str,
    times: usize,
    end: &str,
) -> Result<Bytes, Memory> {
    let mut text = Bytes::from_slice(alloc, begin.as_bytes())?;
    for _i in 0..times {
        text.extend(piece.as_bytes())?;
    }
    text.extend(end.as_bytes())?;
    Ok(text)
}

/// The words of a command line.
pub fn words(alloc: Global, text: &str) -> Result<Vec<String>, Memory> {
    let mut words = Vec::new(alloc);
    for word in text.split_whitespace() {
        words.push(String::from_str(alloc, word)?)?;
    }
    Ok(words)
}

/// Does what the words ask for over memory that never fails, and compares the status and what is written.
pub fn answers(
    rt: &impl Abort,
    alloc: Global,
    word: &str,
    text: &[u8],
    status: Status,
    line: &str,
) -> Result<(), Memory> {
    let words = words(alloc, word)?;
    let mut source = SureSource::new(alloc, text)?;
    let mut sink = MemSink::new(alloc, 7, &[])?;
    let got = top(alloc, &words, &mut source, &mut sink);
    assert_eq!(rt; sink.bytes(), line.as_bytes());
    assert_eq!(rt; got, status);
    Ok(())
}
