//! The text of each kind of end.
use super::*;
use fx_item::{Bytes, Full, Name};
use fx_plain::{Answer, Kind, Names, Refusal};
use fx_script::read_script;
use std::alloc::{AllocError, Global};
use std::test::Fail;

/// What is printed at the commit 7 for each of `ends`, one row for each.
const ROWS: &str = "ok 7
ok 7
read 7 5 a%20%25%C3%A9
read 7 0
list 7 2 a%3Bb %C3%A9
list 7 0
stat 7 file 5000 2
stat 7 dir 3 0
err 7 2 notfound
err 7 0 full
synced 7 4294967296
err 7 0 device
err 7 0 memory";

fn bytes_of(alloc: Global, text: &str) -> Result<Vec<u8>, AllocError> {
    Vec::from_slice(alloc, text.as_bytes())
}

fn names_of(alloc: Global) -> Result<Names, AllocError> {
    let first = Name::new(bytes_of(alloc, "a;b")?);
    let second = Name::new(bytes_of(alloc, "é")?);
    Ok(Names::new(vec![in alloc; first, second]?))
}

/// One end of each kind, and of each kind of answer.
fn ends(alloc: Global) -> Result<Vec<EndKind>, AllocError> {
    let ends = vec![in alloc;
        EndKind::Committed,
        EndKind::Seen(Answer::Done),
        EndKind::Seen(Answer::Text(Bytes::new(bytes_of(alloc, "a %é")?))),
        EndKind::Seen(Answer::Text(Bytes::new(Vec::new(alloc)))),
        EndKind::Seen(Answer::Names(names_of(alloc)?)),
        EndKind::Seen(Answer::Names(Names::new(Vec::new(alloc)))),
        EndKind::Seen(Answer::Stat {
            kind: Kind::File,
            size: 5000,
            blocks: 2
        }),
        EndKind::Seen(Answer::Stat {
            kind: Kind::Dir,
            size: 3,
            blocks: 0
        }),
        EndKind::Refused(2, Refusal::NotFound),
        EndKind::Full(Full {
            live: 5,
            promised: 0,
            want: 9
        }),
        EndKind::Synced(4_294_967_296),
        EndKind::DeviceFault(1),
        EndKind::OutOfMemory,
    ]?;
    Ok(ends)
}

#[test]
fn each_end_is_printed(rt: HostRuntime) -> Result<(), Fail> {
    let alloc = rt.alloc();
    let mut script = Vec::new(alloc);
    let mut outcomes = Vec::new(alloc);
    let mut wanted = String::new(alloc);
    for (kind, row) in ends(alloc)?.into_iter().zip(ROWS.lines()) {
        script.extend_from_slice(b"3 sync\n".as_slice())?;
        outcomes.push(Outcome::new(7, kind))?;
        let number = outcomes.len();
        write!(wanted, "3 {number} {row}\n")?;
    }
    let Ok(tasks) = read_script(Bytes::new(script), true) else {
        return Err(Fail::from("not a script"));
    };
    assert_eq!(rt; (outcomes.len(), tasks.len() as usize), (13, 13));
    let text = result_text(alloc, &tasks, outcomes.as_slice())?;
    assert_eq!(rt; text.as_str(), wanted.as_str());
    line_laws();
    Ok(())
}
