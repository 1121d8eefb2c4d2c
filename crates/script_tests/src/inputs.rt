//! Whole inputs, with the scripts and the faults that the language gives them.
use crate::rows::{is_empty, is_fault, is_script, other, read};
use level_script::Cause;
use std::alloc::Global;
use world_model::ClassId;

/// What the smallest script says, without the header.
pub(crate) const SMALLEST: &str = "2: 0 open|3: 0 new v0 c1|4: 0 root v0 on|5: 0 close|6: gc full";

// Whether the class of the smallest script is there.
fn has_class(alloc: Global, text: &str) -> bool {
    match read(alloc, text.as_bytes()) {
        Ok(script) => {
            script.classes.find_class("A") == Some(ClassId(1))
                && script.classes.has_class(ClassId(1))
                && script.classes.class_name(ClassId(1)) == "A"
        }
        Err(_) => false,
    }
}

#[test]
fn the_smallest_script(rt: HostRuntime) {
    let alloc = rt.alloc();
    for text in [
        "class A Object\n0 open\n0 new a A\n0 root a on\n0 close\ngc full\n",
        "class A Object\n0 open\n0 new a A\n0 root a on\n0 close\ngc full",
        "class A Object\r\n0 open\r\n0 new a A\r\n0 root a on\r\n0 close\r\ngc full\r\n",
        "\tclass  A\tObject \n000 open\n 0 new a A\n00 \troot a on\n0 close\t\ngc  full\n#\n\n # x",
    ] {
        assert!(rt;
            is_script(alloc, text.as_bytes(), SMALLEST, &[1, 0, 0, 0]),
            "{text}"
        );
        assert!(rt; has_class(alloc, text));
    }
}

#[test]
fn objects_without_roots(rt: HostRuntime) {
    let alloc = rt.alloc();
    let lines = "1: 0 open|2: 0 new v0 c0";
    for text in [
        "0 open\n0 new a Object",
        "0 open\n0 new a Object\n",
        "0 open\n0 new a Object\n# 0 root a on",
    ] {
        assert!(rt;
            is_script(alloc, text.as_bytes(), lines, &[1, 0, 0, 0]),
            "{text}"
        );
    }
    let text =
        "0 open\n1 open\n0 new a Object\n0 new b Object\n1 new b Object\n0 new a Object\n\n0 close\ngc full";
    let lines =
        "1: 0 open|2: 1 open|3: 0 new v0 c0|4: 0 new v1 c0|5: 1 new v0 c0|6: 0 new v0 c0|8: 0 close|9: gc full";
    assert!(rt; is_script(alloc, text.as_bytes(), lines, &[2, 1, 0, 0]));
}

#[test]
fn roots_on_and_off(rt: HostRuntime) {
    let text =
        "0 open\n0 new a Object\n0 root a off\n0 new b Object\n\n0 root a on\n00 root b on\n0\troot  a off\n0 root a on";
    let lines =
        "1: 0 open|2: 0 new v0 c0|3: 0 root v0 off|4: 0 new v1 c0|6: 0 root v0 on|7: 0 root v1 on|8: 0 root v0 off|9: 0 root v0 on";
    assert!(rt; is_script(rt.alloc(), text.as_bytes(), lines, &[2, 0, 0, 0]));
}

// The first four bytes of both names are the same, and so are the last four.
#[test]
fn names_that_look_alike(rt: HostRuntime) {
    let text =
        "0 open\n0 new name1tail Object\n0 new name2tail Object\n0 root name1tail on\n0 root name2tail off\n0 new name2tail Object";
    let lines =
        "1: 0 open|2: 0 new v0 c0|3: 0 new v1 c0|4: 0 root v0 on|5: 0 root v1 off|6: 0 new v1 c0";
    assert!(rt; is_script(rt.alloc(), text.as_bytes(), lines, &[2, 0, 0, 0]));
}

#[test]
fn empty_scripts(rt: HostRuntime) {
    let alloc = rt.alloc();
    for text in ["", "\n", "\r\n", "# none", "\n\n \t\n"] {
        assert!(rt; is_empty(alloc, text.as_bytes()));
    }
}

const COMMANDS_AND_WORDS: &str = "\
1 command: foo
1 command: -1 open
2 command: |0|
1 command: 9
1 command: gc
1 command: gc open
1 command: 0 class A Object
2 command: 0 open|class A Object
2 command: 0 open|class A
1 command: 0 off a
1 command: 9 roots a on
1 words: class A
1 words: class A Object x
1 words: class 1A Object
1 words: class A- Object
2 words: |class aaaaaaaaaaaaaaaaaaaaaaaaaaaaaaaaaaaaaaaaaaaaaaaaaaaaaaaaaaaaaaaaa Object
1 words: 0 open x
1 words: 9 close x
1 words: gc full 1
1 words: 0 new
1 words: 0 new a
1 words: 0 new a Object x
1 words: 0 new none Object
1 words: 0 new a 1A
1 words: 9 new 1a Object
1 words: 0 root
1 words: 0 root a
1 words: 0 root on
1 words: 0 root a of
1 words: 0 root a On
1 words: 0 root a maybe
1 words: 0 root a off x
1 words: 0 root none on
1 words: 0 root none off
1 words: 9 root a- off
3 words: 0 open|0 new a Object|0 root a of";

const NUMBERS_FRAMES_AND_NAMES: &str = "\
1 number: 4 open
1 number: 18446744073709551616 open
1 number: 000000000000000000000 open
2 number: 0 open|4 new a B
1 number: 9 root a on
1 number: 9 root a off
2 frame: 0 open|0 open
2 frame: 00000000000000000000 open|0 open
1 frame: 0 close
2 frame: 0 open|1 close
1 frame: 0 new a B
1 frame: 0 root a on
1 frame: 0 root a off
3 frame: 0 open|0 new a Object|1 root a on
4 frame: 0 open|0 new a Object|0 close|0 root a off
1 name: field A x int
2 name: 0 open|0 set a.f b
2 name: 0 open|0 root a on
2 name: 0 open|0 root a off
2 name: 0 open|0 new a B|0 root a on
2 name: 0 open|0 new a none
3 name: 0 open|0 new a Object|0 root b on
5 name: 0 open|0 new a Object|0 close|0 open|0 root a off
4 name: 0 open|1 open|0 new a Object|1 root a off
6 name: 0 open|0 new a Object|0 root a on|0 close|0 open|0 root a on
5 name: 0 open|1 open|0 new a Object|0 root a on|1 root a on";

const CLASSES: &str = "\
3 taken 2: |class A Object|class A B
1 taken 0: class Object Object
1 parent: class A B
1 parent: class A A
2 parent: class none Object|class A b";

#[test]
fn faults_of_lines(rt: HostRuntime) {
    assert_eq!(rt; other(rt.alloc(), COMMANDS_AND_WORDS), None);
    assert_eq!(rt; other(rt.alloc(), NUMBERS_FRAMES_AND_NAMES), None);
    assert_eq!(rt; other(rt.alloc(), CLASSES), None);
}

#[test]
fn bytes_that_are_no_text(rt: HostRuntime) {
    let alloc = rt.alloc();
    assert!(rt; is_fault(alloc, b"# \xff\n", 1, Cause::Utf8));
    assert!(rt; is_fault(alloc, b"0 open\nfoo \xc3\n", 2, Cause::Utf8));
}

#[test]
fn inputs_that_are_too_long(rt: HostRuntime) {
    let alloc = rt.alloc();
    let many = vec![in alloc; b'\n'; 200_001].expect(&rt, "memory");
    assert!(rt; is_fault(alloc, &many, 200_001, Cause::TooLong));
    assert!(rt; is_empty(alloc, &many[1..]));
    let long = vec![in alloc; b' '; 16_777_217].expect(&rt, "memory");
    assert!(rt; is_fault(alloc, &long, 0, Cause::TooLong));
    assert!(rt; is_empty(alloc, &long[1..]));
}

#[test]
fn a_new_in_the_last_line(rt: HostRuntime) {
    let alloc = rt.alloc();
    let mut bytes = vec![in alloc; b'\n'; 199_998].expect(&rt, "memory");
    bytes
        .extend_from_slice("0 open\n0 new a Object".as_bytes())
        .expect(&rt, "memory");
    let lines = "199999: 0 open|200000: 0 new v0 c0";
    assert!(rt; is_script(alloc, &bytes, lines, &[1, 0, 0, 0]));
    bytes
        .extend_from_slice("\n0 root a on".as_bytes())
        .expect(&rt, "memory");
    assert!(rt; is_fault(alloc, &bytes, 200_001, Cause::TooLong));
}
