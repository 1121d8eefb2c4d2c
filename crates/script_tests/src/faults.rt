//! Which fault an input has: the order of causes, forms of words, and inputs that are cut, long or random.
ghost use Rattle.std.specs.Prelude.{◌<◌, ◌≤◌};

use crate::inputs::SMALLEST;
use crate::rows::{has_fault, is_empty, is_fault, is_faulty, is_script, number, other, read};
use crate::told::{told, told_line};
use level_script::{Cause, Limits, ParseErr, SchemaErr, Script, ScriptErr, parse};
use std::alloc::{AllocError, Global};

// An unknown command before words, words before numbers, numbers before frames and names, frames before names, and
// names before what the table of classes refuses.
const FIRST_CAUSES: &str = "\
1 command: 0 frob x y z
1 command: gc begin
1 words: 9 open x
1 words: 9 new a
1 words: 0 put a.n[4294967296] x
1 words: field A x int 65 1
1 number: 4 close
1 number: 0 take a.n[4294967296]
1 number: 0 put a.n 18446744073709551616
1 number: field A x int 65
1 number: 9 new a B
1 frame: 0 new a B
1 frame: 0 take a.n
1 frame: 0 set a.n b
1 name: field A x int 64
2 command: 0 open|class A
2 command: 0 open|class Object B";

const FIRST_FAULTS: &str = "\
1 frame: 0 close|frob
6 name: #|| \t|0 open|#|0 new a B|frob|class
3 words: \r|0 open\r|0 open x\r|0 open\r|frob
1 parent: class A B|class A Object|class A Object
5 number: 0 open|1 open|2 open|3 open|4 open|5 open x
2 name: 0\topen|0 print\ta|0 print";

#[test]
fn the_first_fault_and_its_first_cause(rt: HostRuntime) {
    let alloc = rt.alloc();
    assert_eq!(rt; other(alloc, FIRST_CAUSES), None);
    assert_eq!(rt; other(alloc, FIRST_FAULTS), None);
    assert!(rt; is_fault(alloc, b"class A \xff", 1, Cause::Utf8));
    assert!(rt; is_fault(alloc, b"foo \xc3(", 1, Cause::Utf8));
    assert!(rt; is_fault(alloc, b"0 open\nclass \xff", 2, Cause::Utf8));
    assert!(rt; is_fault(alloc, b"frob\n\xff", 1, Cause::UnknownCommand));
    assert!(rt; is_fault(alloc, b"\n\xff\nfrob", 2, Cause::Utf8));
}

const ONE_WORD_MORE_OR_LESS: &str = "\
1 words: class A
1 words: class A Object x
1 words: field A x
1 words: field A x ref
1 words: field A x ref A 1 1
1 words: field A x weak 1 1
1 words: field A x int 1 1
1 words: 0 open x
1 words: 0 close x
1 words: 0 new a
1 words: 0 new a Object x
1 words: 0 root a
1 words: 0 root a on x
1 words: 0 set a.f
1 words: 0 set a.f a x
1 words: 0 get a
1 words: 0 get a a.f x
1 words: 0 put a.n
1 words: 0 put a.n 1 x
1 words: 0 take
1 words: 0 take a.n x
1 words: 0 print
1 words: 0 print a x
1 words: gc full x
1 command: 0
1 command: gc
1 command: 18446744073709551616";

#[test]
fn one_word_too_few_or_too_many(rt: HostRuntime) {
    assert_eq!(rt; other(rt.alloc(), ONE_WORD_MORE_OR_LESS), None);
}

const NONE_IN_EVERY_PLACE: &str = "\
1 command: none
1 command: none open
1 command: 0 none
1 command: gc none
1 words: class none
1 words: field none none
1 words: field A x none
1 words: field A x ref A none
1 words: field A x int none
1 words: 0 open none
1 words: 0 close none
1 words: 0 new none A
1 words: 0 root none on
1 words: 0 root a none
1 words: 0 set none a
1 words: 0 set none none
1 words: 0 set none.f a
1 words: 0 set none.f none
1 words: 0 set a.f[none] none
1 words: 0 get none a.f
1 words: 0 get a none
1 words: 0 get a none.f
1 words: 0 put none 1
1 words: 0 put none.n 1
1 words: 0 put a.n none
1 words: 0 take none
1 words: 0 take none.n
1 words: 0 print none
1 words: gc full none
1 name: field none x int
1 name: field Object x ref none
2 name: 0 open|0 new a none
3 name: 0 open|0 new a Object|0 take a.none
3 name: 0 open|0 new a Object|0 set a.none none
1 parent: class A none
1 parent: class none none";

#[test]
fn none_in_every_place(rt: HostRuntime) {
    let alloc = rt.alloc();
    let text =
        "class none Object\nfield none none ref none\nclass A none\nfield A none2 ref none 2\n0 open\n0 new a none\n0 set a.none none\n0 get b a.none";
    let lines = "5: 0 open|6: 0 new v0 c1|7: 0 set v0.f0[0] none|8: 0 get v1 v0.f0[0]";
    assert!(rt; is_script(alloc, text.as_bytes(), lines, &[2, 0, 0, 0]));
    assert_eq!(rt; other(alloc, NONE_IN_EVERY_PLACE), None);
}

const NAME_OF_64: &str = "aaaaaaaaaaaaaaaaaaaaaaaaaaaaaaaaaaaaaaaaaaaaaaaaaaaaaaaaaaaaaaaa";

const NAME_OF_65: &str = "aaaaaaaaaaaaaaaaaaaaaaaaaaaaaaaaaaaaaaaaaaaaaaaaaaaaaaaaaaaaaaaaa";

// With a name of 64 bytes in place of `@`, which is taken.
const LONG_NAMES: &str = "\
1 ok: class @ Object
1 parent: class A @
1 name: field @ x int
2 ok: class A Object|field A @ int 2
2 name: class A Object|field A x ref @
2 ok: 0 open|0 new @ Object
2 name: 0 open|0 new a @
2 name: 0 open|0 root @ on
2 name: 0 open|0 print @
2 name: 0 open|0 take @.x
2 name: 0 open|0 take a.@
2 name: 0 open|0 take a.@[1]
2 name: 0 open|0 put @.x 1
2 name: 0 open|0 set a.x @
2 name: 0 open|0 set @.x none
2 name: 0 open|0 get @ a.x
2 name: 0 open|0 get a @.x";

// Whether the text is a script with a name of 64 bytes, or has this fault.
fn takes_64(alloc: Global, want: &str, text: &str) -> bool {
    let Ok(text) = text.replace(alloc, '@', NAME_OF_64) else {
        return false;
    };
    if want.ends_with(" ok") {
        match text.replace(alloc, '|', "\n") {
            Ok(input) => read(alloc, input.as_bytes()).is_ok(),
            Err(_) => false,
        }
    } else {
        is_faulty(alloc, "", text.as_str(), want)
    }
}

// Whether the text has a fault of words at this line with a name of 65 bytes.
fn refuses_65(alloc: Global, want: &str, text: &str) -> bool {
    let Ok(text) = text.replace(alloc, '@', NAME_OF_65) else {
        return false;
    };
    match number(want.split(' ').next()) {
        Some(line) => {
            let Ok(input) = text.replace(alloc, '|', "\n") else {
                return false;
            };
            is_fault(alloc, input.as_bytes(), line, Cause::Words)
        }
        None => false,
    }
}

const OTHER_NAMES: &str = "\
1 words: class 9 Object
1 words: class \u{e9} Object
1 words: class A\u{e9} Object
1 words: class A@ Object
1 words: class A[ Object
1 words: class A` Object
1 words: class A{ Object
1 words: class A/ Object
1 words: class A: Object";

#[test]
fn names_of_64_bytes(rt: HostRuntime) {
    let alloc = rt.alloc();
    assert_eq!(rt; (NAME_OF_64.len(), NAME_OF_65.len()), (64, 65));
    for row in LONG_NAMES.split('\n') {
        let (want, text) = row.split_once(": ").unwrap_or(("", ""));
        assert!(rt; takes_64(alloc, want, text), "{row}");
        assert!(rt; refuses_65(alloc, want, text), "{row}");
    }
    for text in [
        "class _ Object",
        "class _9 Object\nfield _9 __ int",
        "class zZ_09 Object",
    ] {
        assert!(rt; is_empty(alloc, text.as_bytes()), "{text}");
    }
    assert_eq!(rt; other(alloc, OTHER_NAMES), None);
}

// What the first so many bytes of the smallest script are: so many lines that do something, or a fault.
fn cut(count: usize) -> Result<usize, ScriptErr> {
    let (line, cause) = match count {
        0 | 14 | 15 => return Ok(0),
        1..=4 => (1, Cause::UnknownCommand),
        5..=8 => (1, Cause::Words),
        9..=13 => (1, Cause::Schema(SchemaErr::NoParent)),
        16..=20 => (2, Cause::UnknownCommand),
        21 | 22 => return Ok(1),
        23..=26 => (3, Cause::UnknownCommand),
        27..=30 => (3, Cause::Words),
        31 | 32 => return Ok(2),
        33..=37 => (4, Cause::UnknownCommand),
        38..=42 => (4, Cause::Words),
        43 | 44 => return Ok(3),
        45..=50 => (5, Cause::UnknownCommand),
        51 | 52 => return Ok(4),
        53..=58 => (6, Cause::UnknownCommand),
        _ => return Ok(5),
    };
    Err(ScriptErr { line, cause })
}

// Whether the bytes are a script of the first lines of the smallest, or have a fault, as this says.
fn is_cut(alloc: Global, bytes: &[u8], want: Result<usize, ScriptErr>) -> bool {
    match (read(alloc, bytes), want) {
        (Ok(script), Ok(count)) => match told(alloc, &script) {
            Ok(said) => {
                script.lines.as_slice().len() == count && SMALLEST.starts_with(said.as_str())
            }
            Err(_) => false,
        },
        (Err(ParseErr::Bad(fault)), Err(want)) => fault == want,
        _ => false,
    }
}

#[test]
fn beginnings_of_the_smallest_script(rt: HostRuntime) {
    let alloc = rt.alloc();
    let text = "class A Object\n0 open\n0 new a A\n0 root a on\n0 close\ngc full\n";
    assert_eq!(rt; text.len(), 60);
    for count in 0..61 {
        let bytes = text.as_bytes();
        let (front, _) = bytes.split_at(count.min(bytes.len()));
        assert!(rt; is_cut(alloc, front, cut(count)), "the first {count} bytes");
    }
}

// Reads an input under other limits.
fn read_in(alloc: Global, lanes: u32, slots: u32, bytes: &[u8]) -> Result<Script, ParseErr>
    requires some_lanes { 1 ≤ lanes }
    requires few_lanes { lanes ≤ 8 }
    requires some_slots { 1 ≤ slots }
    requires few_slots { slots ≤ 64 }
{
    let limits = Limits {
        lanes,
        slots,
        strong: 1,
        markers: 1,
    };
    parse(alloc, bytes, limits)
}

// Whether there are so many lanes: the last has its number, and the next is out of its range.
fn has_lanes(alloc: Global, lanes: u32) -> Result<bool, AllocError>
    requires some { 1 ≤ lanes }
    requires few { lanes ≤ 8 }
{
    let last = lanes - 1;
    let text = format!(in alloc; "{last} open\n{lanes} open")?;
    let read = read_in(alloc, lanes, 1, text.as_bytes());
    Ok(has_fault(&read, 2, Cause::Number))
}

// What an input is that tells a field of so many elements, where an object has so many slots.
fn read_field(alloc: Global, slots: u32, count: u32) -> Result<Result<Script, ParseErr>, AllocError>
    requires some { 1 ≤ slots }
    requires few { slots ≤ 64 }
{
    let text = format!(in alloc; "class A Object\nfield A x int {count}")?;
    Ok(read_in(alloc, 1, slots, text.as_bytes()))
}

// Whether there are so many slots: a field may have as many elements, and not one more.
fn has_slots(alloc: Global, slots: u32) -> Result<bool, AllocError>
    requires some { 1 ≤ slots }
    requires few { slots ≤ 64 }
{
    let asked = slots + 1;
    let cause = if slots < 64 {
        Cause::Schema(SchemaErr::TooManySlots { used: 0, asked })
    } else {
        Cause::Number
    };
    let fits = read_field(alloc, slots, slots)?;
    let more = read_field(alloc, slots, asked)?;
    Ok(fits.is_ok() && has_fault(&more, 2, cause))
}

#[test]
fn lanes_and_slots_from_1_upwards(rt: HostRuntime) {
    let alloc = rt.alloc();
    for lanes in 1..9 {
        assert!(rt; has_lanes(alloc, lanes) == Ok(true), "{lanes} lanes");
    }
    for slots in 1..65 {
        assert!(rt; has_slots(alloc, slots) == Ok(true), "{slots} slots");
    }
}

// So many equal bytes, and then a text.
fn filled(alloc: Global, byte: u8, count: usize, text: &[u8]) -> Result<Vec<u8>, AllocError> {
    let mut bytes = vec![in alloc; byte; count]?;
    bytes.extend_from_slice(text)?;
    Ok(bytes)
}

#[test]
fn lines_of_1_000_000_bytes(rt: HostRuntime) {
    let alloc = rt.alloc();
    let mut bytes = filled(alloc, b'a', 1_000_000, b"").expect(&rt, "memory");
    assert!(rt; is_fault(alloc, &bytes, 1, Cause::UnknownCommand));
    assert!(rt; bytes.len() > 1);
    bytes[0] = b'#';
    bytes.push(0xff).expect(&rt, "memory");
    assert!(rt; is_fault(alloc, &bytes, 1, Cause::Utf8));
    let mut bytes = filled(alloc, b'0', 1_000_000, b" open").expect(&rt, "memory");
    assert!(rt; is_fault(alloc, &bytes, 1, Cause::Number));
    assert!(rt; bytes.len() > 1);
    bytes[0] = b'\n';
    bytes[1] = b'\n';
    assert!(rt; is_fault(alloc, &bytes, 3, Cause::Number));
}

#[test]
fn a_comment_of_16_777_216_bytes(rt: HostRuntime) {
    let alloc = rt.alloc();
    let mut bytes = filled(alloc, b'#', 16_777_216, b"").expect(&rt, "memory");
    assert!(rt; is_empty(alloc, &bytes));
    bytes.push(b'\n').expect(&rt, "memory");
    assert!(rt; is_fault(alloc, &bytes, 0, Cause::TooLong));
}

#[test]
fn a_command_at_the_end_of_16_777_216_bytes(rt: HostRuntime) {
    let alloc = rt.alloc();
    let bytes = filled(alloc, b'\t', 16_777_210, b"0 open").expect(&rt, "memory");
    assert!(rt; is_script(alloc, &bytes, "1: 0 open", &[0, 0, 0, 0]));
}

// 200,000 lines, with an object in each but the first and the last.
fn many_lines(alloc: Global) -> Result<Vec<u8>, AllocError> {
    let mut bytes = Vec::new(alloc);
    bytes.extend_from_slice(b"0 open\n".as_slice())?;
    for number in 2..200_000 {
        let line = format!(in alloc; "0 new v{number} Object\n")?;
        bytes.extend_from_slice(line.as_bytes())?;
    }
    bytes.extend_from_slice(b"0 close\n".as_slice())?;
    Ok(bytes)
}

#[test]
fn lines_up_to_200_000(rt: HostRuntime) {
    let alloc = rt.alloc();
    let mut bytes = many_lines(alloc).expect(&rt, "memory");
    let script = read(alloc, &bytes).expect(&rt, "a script");
    assert_eq!(rt; script.lines.as_slice().len(), 200_000);
    assert!(rt; script.vars.as_slice() == [199_998, 0, 0, 0].as_slice());
    let last = script.lines.as_slice().last().expect(&rt, "a line");
    let said = told_line(alloc, last).expect(&rt, "memory");
    assert_eq!(rt; said.as_str(), "200000: 0 close");
    bytes
        .extend_from_slice(b"\xff".as_slice())
        .expect(&rt, "memory");
    assert!(rt; is_fault(alloc, &bytes, 200_001, Cause::TooLong));
    assert!(rt; bytes.len() > 3);
    bytes[3] = b'x';
    assert!(rt; is_fault(alloc, &bytes, 1, Cause::UnknownCommand));
}

// The next of a row of random numbers, below this.
fn draw(state: &mut u64, below: u64) -> u64
    requires { 1 ≤ below }
    ensures { result < below }
{
    *state = state
        .wrapping_mul(6364136223846793005)
        .wrapping_add(1442695040888963407);
    (*state >> 33) % below
}

// A random byte: any, or one of these.
fn draw_byte(state: &mut u64, bytes: &[u8]) -> u8 {
    if bytes.is_empty() {
        return draw(state, 256) as u8;
    }
    let place = draw(state, bytes.len() as u64);
    bytes[place as usize]
}

fn random_bytes(
    alloc: Global,
    state: &mut u64,
    bytes: &[u8],
    count: usize,
) -> Result<Vec<u8>, AllocError> {
    let mut random = Vec::new(alloc);
    for _ in 0..count {
        random.push(draw_byte(state, bytes))?;
    }
    Ok(random)
}

// The cause of a line that is no command.
fn cause_of(line: &[u8]) -> Option<Cause> {
    if str::from_utf8(line).is_err() {
        return Some(Cause::Utf8);
    }
    let mut line = line;
    if let Some((last, front)) = line.split_last() {
        if *last == b'\r' {
            line = front;
        }
    }
    match line.iter().find(|b| **b != b' ' && **b != b'\t') {
        None => None,
        Some(first) if *first == b'#' => None,
        Some(_) => Some(Cause::UnknownCommand),
    }
}

// The first fault of an input in which no line is a command.
fn first_fault(bytes: &[u8]) -> Option<ScriptErr> {
    let mut number = 0u32;
    for line in bytes.split(|b| *b == b'\n') {
        number = number.saturating_add(1);
        if let Some(cause) = cause_of(line) {
            return Some(ScriptErr {
                line: number,
                cause,
            });
        }
    }
    None
}

// Whether the input has its first fault, or is a script with no line, where no line of it is a command.
fn is_first(alloc: Global, bytes: &[u8]) -> bool {
    match (read(alloc, bytes), first_fault(bytes)) {
        (Ok(script), None) => script.lines.as_slice().is_empty(),
        (Err(ParseErr::Bad(fault)), Some(want)) => fault == want,
        _ => false,
    }
}

#[test]
fn inputs_of_random_bytes(rt: HostRuntime) {
    let alloc = rt.alloc();
    let mut state = 7;
    let alphabets = [
        b"".as_slice(),
        b" \t\r\n#09zA_.[]-\xc3\xa9\x00".as_slice(),
        b" \t\r\n\n\n\n\n\n\n\n\n#".as_slice(),
        b"\r\n\n\n\n\n\n\n\n\n\n\n\n\n\n\n \t#9\xff".as_slice(),
    ];
    for alphabet in alphabets {
        for _ in 0..500 {
            let bytes = random_bytes(alloc, &mut state, alphabet, 100).expect(&rt, "memory");
            assert!(rt; is_first(alloc, &bytes));
        }
    }
}
