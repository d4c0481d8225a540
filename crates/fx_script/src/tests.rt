//! Lines and scripts, read and printed.
use super::*;
use fx_item::{Bytes, Name};
use fx_plain::{Path, Step};
use std::alloc::{AllocError, Global};
use std::process::Abort;
use std::test::Fail;

/// Lines, and after ` => ` what each is: its fault, or how it is printed.
const LINES: &str = "mkdir / => mkdir /
mkdir /v => mkdir /v
mkdir /v/w => mkdir /v/w
mkdir /%76 => mkdir /v
mkdir /... => mkdir /...
mkdir /v; => mkdir /v%3B
mkdir /%C3%A9 => mkdir /%C3%A9
create /v/a => create /v/a
create / => create /
write /v/a 0 x => write /v/a 0 x
write /v/a 4294967295 x => write /v/a 4294967295 x
write /v/a 0 %41 => write /v/a 0 A
write /v/a 0 % => write /v/a 0 %25
write /v/a 0 %4 => write /v/a 0 %254
write /v/a 0 %zz => write /v/a 0 %25zz
write /v/a 0 %25 => write /v/a 0 %25
write /v/a 0 %3b => write /v/a 0 %3B
write /v/a 0 a;b => write /v/a 0 a%3Bb
write /v/a 0 / => write /v/a 0 %2F
write /v/a 0 .-_~ => write /v/a 0 .-_~
write /v/a 0 %00%20%FF => write /v/a 0 %00%20%FF
read /v/a 0 0 => read /v/a 0 0
read /v/a 0 1048577 => read /v/a 0 1048577
read / 10 4294967295 => read / 10 4294967295
list / => list /
list /v/%77 => list /v/w
list /v;w => list /v%3Bw
stat / => stat /
stat /v/w => stat /v/w
stat /%C3%A9 => stat /%C3%A9
sync => sync
 => empty
é => notascii
mkdir /é => notascii
sync é => notascii
rm é => notascii
; é => notascii
mkdir v é => notascii
; => unknownword
mkdir /v ; mkdir /w => unknownword
mkdir ; => unknownword
mkdir x ; => unknownword
write v 01 ; => unknownword
  => unknownword
 mkdir /v => unknownword
MKDIR /v => unknownword
mkdirs /v => unknownword
rmdir v 01 x y => unknownword
rm /v => unknownword
trunc /v/a 1 => unknownword
mv /v /w => unknownword
setattr /v a b => unknownword
delattr /v a => unknownword
attr /v a => unknownword
compact => unknownword
list /v ; sync => unknownword
sync ; list /v => unknownword
sync ; => unknownword
Sync => unknownword
syncs => unknownword
 sync => unknownword
mkdir => wordcount
mkdir /v  => wordcount
mkdir  /v => wordcount
mkdir v w => wordcount
create => wordcount
create /v/a /v/b => wordcount
write => wordcount
write /v/a 0 => wordcount
write /v/a 0 x y => wordcount
write v 01 => wordcount
read /v/a 0 => wordcount
read /v/a 0 1 2 => wordcount
list => wordcount
list v w => wordcount
list /v  => wordcount
stat => wordcount
stat /v /w => wordcount
sync x => wordcount
sync / => wordcount
sync  => wordcount
mkdir  => badpath
mkdir v => badpath
mkdir // => badpath
mkdir /v/ => badpath
mkdir //v => badpath
mkdir /. => badpath
mkdir /.. => badpath
mkdir /%2E => badpath
mkdir /%2e%2E => badpath
mkdir /%2F => badpath
mkdir /a%2Fb => badpath
mkdir /%00 => badpath
mkdir /a%00 => badpath
mkdir /%FF => badpath
mkdir /%C3 => badpath
create /v/../a => badpath
write  0 x => badpath
write v 01  => badpath
write v 0  => badpath
read v 01 01 => badpath
list v => badpath
list  => badpath
list /v/ => badpath
stat v => badpath
stat /v/.. => badpath
write /v/a 4294967296 x => badnumber
write /v/a 99999999999999999999999999 x => badnumber
write /v/a  x => badnumber
write /v/a 00 x => badnumber
write /v/a 01 x => badnumber
write /v/a +1 x => badnumber
write /v/a -1 x => badnumber
write /v/a 1a x => badnumber
write /v/a 0x1 x => badnumber
write /v/a %31 x => badnumber
write /v/a 01  => badnumber
read /v/a 0 01 => badnumber
read /v/a 01 4294967296 => badnumber
write /v/a 0  => badtext";

/// The fault of a line, or how it is printed.
fn told_of(alloc: Global, line: &[u8]) -> Result<Bytes, AllocError> {
    match read_line(alloc, line) {
        Ok(line) => print_line(alloc, &line),
        Err(fault) => Ok(Bytes::new(Vec::from_slice(alloc, fault.word().as_bytes())?)),
    }
}

#[test]
fn lines_are_read_and_printed(rt: HostRuntime) -> Result<(), Fail> {
    let mut count = 0u64;
    for row in LINES.lines() {
        let (line, wanted) = row.split_once(" => ").ok_or("a row without an arrow")?;
        let told = told_of(rt.alloc(), line.as_bytes())?;
        assert_eq!(rt; told.as_slice(), wanted.as_bytes(), "at {line}");
        if read_line(rt.alloc(), line.as_bytes()).is_ok() {
            let again = told_of(rt.alloc(), wanted.as_bytes())?;
            assert_eq!(rt; again.as_slice(), wanted.as_bytes(), "printed at {line}");
        }
        count = count.saturating_add(1);
    }
    assert_eq!(rt; count, 120);
    Ok(())
}

/// The first wrong line of a script and its fault, or each line after its client and its number.
fn told_script(alloc: Global, script: &[u8], many: bool) -> Result<Vec<u8>, AllocError> {
    let mut text = Vec::new(alloc);
    match read_script(Bytes::new(Vec::from_slice(alloc, script)?), many) {
        Ok(tasks) => {
            for sent in tasks.lines() {
                let head = format!(in alloc; "{} {} ", sent.client(), sent.number())?;
                text.extend_from_slice(head.as_bytes())?;
                let line = print_line(alloc, &sent.task(alloc)?.line)?;
                text.extend_from_slice(line.as_slice())?;
                text.push(b'|')?;
            }
        }
        Err(ScriptFault::BadLine { number, fault }) => {
            let end = format!(in alloc; "{} {}", number, fault.word())?;
            text.extend_from_slice(end.as_bytes())?;
        }
    }
    Ok(text)
}

/// Scripts of one client, with `$` for each line feed, and after ` => ` what each is.
const SCRIPTS_OF_ONE: &str = " => 
mkdir /v => 1 1 mkdir /v|
mkdir /v$ => 1 1 mkdir /v|
mkdir /v$read / 0 1 => 1 1 mkdir /v|1 2 read / 0 1|
sync$list /$stat /v$ => 1 1 sync|1 2 list /|1 3 stat /v|
$ => 1 empty
mkdir /v$$ => 2 empty
mkdir /v$$mkdir v => 2 empty
mkdir /v$mkdir v$foo$é => 2 badpath
sync$sync x => 2 wordcount
1 mkdir /v => 1 unknownword";

/// The same of many clients.
const SCRIPTS_OF_MANY: &str = " => 
1 mkdir /v => 1 1 mkdir /v|
3 sync$16 list /v => 3 1 sync|16 2 list /v|
16 mkdir /v$2 create /v/a$ => 16 1 mkdir /v|2 2 create /v/a|
$ => 1 empty
1 => 1 empty
1  => 1 empty
16 => 1 empty
0 => 1 badclient
17 => 1 badclient
17  => 1 badclient
0 mkdir /v => 1 badclient
17 mkdir /v => 1 badclient
01 mkdir /v => 1 badclient
mkdir /v => 1 badclient
 mkdir /v => 1 badclient
17 ; => 1 badclient
17 rm => 1 badclient
sync => 1 badclient
17 sync x => 1 badclient
17 é => 1 notascii
1  mkdir /v => 1 unknownword
1 ; => 1 unknownword
1 mkdir /v$2 mkdir => 2 wordcount
1 sync 1 => 1 wordcount
1 write v 01  => 1 badpath";

/// Tells each script of a table, and says how many there are.
fn expect_scripts(
    rt: &(impl Abort + AllocGlobal),
    many: bool,
    table: &str,
) -> Result<u64, AllocError> {
    let mut count = 0u64;
    for row in table.lines() {
        if let Some((script, wanted)) = row.split_once(" => ") {
            let script: Vec<u8> = script
                .bytes()
                .map(|b| if b == b'$' { b'\n' } else { b })
                .collect(rt.alloc())?;
            let told = told_script(rt.alloc(), script.as_slice(), many)?;
            assert_eq!(rt; told.as_slice(), wanted.as_bytes(), "at {row}");
            count = count.saturating_add(1);
        }
    }
    Ok(count)
}

#[test]
fn scripts_are_read_up_to_the_first_wrong_line(rt: HostRuntime) -> Result<(), Fail> {
    let one = expect_scripts(&rt, false, SCRIPTS_OF_ONE)?;
    let many = expect_scripts(&rt, true, SCRIPTS_OF_MANY)?;
    assert_eq!(rt; (one, many), (11, 26));
    Ok(())
}

/// The bytes so many times over.
fn repeated(alloc: Global, bytes: &[u8], count: usize) -> Result<Vec<u8>, AllocError> {
    let mut all = Vec::new(alloc);
    for _ in 0..count {
        all.extend_from_slice(bytes)?;
    }
    Ok(all)
}

/// Whether the line is right that makes a directory whose path begins so and goes on with bytes so
/// many times over.
fn is_right(alloc: Global, begin: &[u8], bytes: &[u8], count: usize) -> Result<bool, AllocError> {
    let mut line = Vec::from_slice(alloc, b"mkdir ".as_slice())?;
    line.extend_from_slice(begin)?;
    line.extend_from_slice(repeated(alloc, bytes, count)?.as_slice())?;
    Ok(read_line(alloc, line.as_slice()).is_ok())
}

#[test]
fn limits_of_paths_are_exact(rt: HostRuntime) -> Result<(), Fail> {
    let alloc = rt.alloc();
    assert!(rt; is_right(alloc, b"", b"/a", 64)?);
    assert!(rt; !is_right(alloc, b"", b"/a", 65)?);
    assert!(rt; is_right(alloc, b"/%62", b"a", 254)?);
    assert!(rt; !is_right(alloc, b"/%62", b"a", 255)?);
    Ok(())
}

#[test]
fn limit_of_lines_is_exact(rt: HostRuntime) -> Result<(), Fail> {
    let alloc = rt.alloc();
    let mut script = repeated(alloc, b"mkdir /\n", 65_536)?;
    let tasks = read_script(Bytes::new(script.clone()?), false)?;
    assert_eq!(rt; tasks.len(), 65_536);
    assert_eq!(rt; tasks.lines().count(), 65_536);
    script.extend_from_slice(b"mkdir /".as_slice())?;
    let told = told_script(alloc, script.as_slice(), false)?;
    assert_eq!(rt; told.as_slice(), b"65537 toomanylines".as_slice());
    Ok(())
}

#[test]
fn each_byte_is_printed_and_read_again(rt: HostRuntime) -> Result<(), Fail> {
    let alloc = rt.alloc();
    let mut bytes = Vec::new(alloc);
    let mut wanted = String::from_str(alloc, "write /a 7 ")?;
    for b in 0..=255u8 {
        bytes.push(b)?;
        if b.is_ascii_alphanumeric() || b".-_~".contains(&b) {
            wanted.push(char::from(b))?;
        } else {
            write!(wanted, "%{b:02X}")?;
        }
    }
    let name = Name::new(Vec::from_slice(alloc, b"a".as_slice())?);
    let path = Path::new(vec![in alloc; name]?);
    let line = Line::Single(Step::Write {
        path,
        at: 7,
        text: Bytes::new(bytes.clone()?),
    });
    let printed = print_line(alloc, &line)?;
    assert_eq!(rt; printed.as_slice(), wanted.as_bytes());
    match read_line(alloc, printed.as_slice())? {
        Line::Single(Step::Write { path, at, text }) => {
            assert_eq!(rt; path.as_slice().len(), 1);
            assert_eq!(rt; at, 7);
            assert_eq!(rt; text.as_slice(), bytes.as_slice());
        }
        _ => return Err(Fail::from("another step")),
    }
    Ok(())
}

/// A path of names of one byte each.
fn short_path(alloc: Global, names: &[u8]) -> Result<Path, AllocError> {
    let mut path = Vec::new(alloc);
    for name in names {
        path.push(Name::new(vec![in alloc; *name]?))?;
    }
    Ok(Path::new(path))
}

/// Whether a script can say the client's write of the text, which was made by hand.
fn is_sayable(alloc: Global, client: u32, names: &[u8], text: &[u8]) -> Result<bool, AllocError> {
    let line = Line::Single(Step::Write {
        path: short_path(alloc, names)?,
        at: 0,
        text: Bytes::new(Vec::from_slice(alloc, text)?),
    });
    let task = Task {
        client,
        number: 1,
        line,
    };
    Ok(task.keeps_rules())
}

#[test]
fn each_rule_fails_once(rt: HostRuntime) -> Result<(), Fail> {
    let alloc = rt.alloc();
    let most = repeated(alloc, b"a", 64)?;
    let over = repeated(alloc, b"a", 65)?;
    assert!(rt; is_sayable(alloc, 1, most.as_slice(), b"\0")?);
    assert!(rt; is_sayable(alloc, 16, b"", b"x")?);
    assert!(rt; !is_sayable(alloc, 0, b"va", b"x")?, "no client");
    assert!(rt; !is_sayable(alloc, 17, b"va", b"x")?, "no such client");
    assert!(rt;
        !is_sayable(alloc, 1, over.as_slice(), b"x")?,
        "too many names"
    );
    assert!(rt; !is_sayable(alloc, 1, b"v.", b"x")?, "a name that is none");
    assert!(rt; !is_sayable(alloc, 1, b"va", b"")?, "no text");
    Ok(())
}
