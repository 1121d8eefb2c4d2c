//! Whole runs of scripts with references and numbers, with the texts that the language gives them.
use crate::runs::plays;
use std::alloc::Global;
use std::thread::Threads;
use world_play::Status;

// Whether `play` of this input writes this text of so many lines, and all is well.
fn writes<R: Threads + Sync>(rt: &R, alloc: Global, input: &str, text: &str, lines: u64) -> bool {
    plays(rt, alloc, input, 4096, Status::Ok, text, lines)
}

#[test]
fn a_cycle_that_no_root_reaches(rt: HostRuntime) {
    let script =
        "class A Object\nfield A next ref A\n0 open\n0 new a A\n0 new b A\n0 set a.next b\n0 set b.next a\n0 close\ngc full\n";
    let text =
        "0 open idle\n0 new 0:1\n0 new 0:2\n0 was none\n0 was none\n0 close\ngc full removed 2 left 0: 0:1 0:2\n";
    assert!(rt; writes(&rt, rt.alloc(), script, text, 7));
}

#[test]
fn a_cycle_that_a_root_reaches(rt: HostRuntime) {
    let script =
        "class A Object\nfield A next ref A\n0 open\n0 new a A\n0 new b A\n0 set a.next b\n0 set b.next a\n0 root b on\n0 close\ngc full\n1 open\n1 new c A\n1 close\ngc full\n";
    let text =
        "0 open idle\n0 new 0:1\n0 new 0:2\n0 was none\n0 was none\n0 was off\n0 close\ngc full removed 0 left 0\n1 open idle\n1 new 1:1\n1 close\ngc full removed 1 left 0: 1:1\n";
    assert!(rt; writes(&rt, rt.alloc(), script, text, 12));
}

#[test]
fn a_number_like_a_reference(rt: HostRuntime) {
    let script =
        "class A Object\nfield A n int\n0 open\n0 new a A\n0 root a on\n0 new b A\n0 put a.n 33554433\n0 close\ngc full\n";
    let text =
        "0 open idle\n0 new 0:1\n0 was off\n0 new 0:2\n0 was 0\n0 close\ngc full removed 1 left 0: 0:2\n";
    assert!(rt; writes(&rt, rt.alloc(), script, text, 7));
}

#[test]
fn elements_and_refusals(rt: HostRuntime) {
    let script =
        "class A Object\nclass B A\nfield B n int\nfield B r ref B 2\n0 open\n0 new a A\n0 new b B\n0 put a.n 5\n0 put b.r 5\n0 set b.r[2] b\n0 set b.r[1] a\n0 set b.r[1] b\n0 get c b.r[1]\n0 take c.n\n0 print c\n";
    let text =
        "0 open idle\n0 new 0:1\n0 new 0:2\n0 no field\n0 wrong kind\n0 no element\n0 wrong class\n0 was none\n0 is 0:2\n0 is 0\n0 object 0:2 B\n";
    assert!(rt; writes(&rt, rt.alloc(), script, text, 11));
    let script =
        "class A Object\nclass B A\nfield B n int\nfield B r ref B 2\nfield B w weak\n0 open\n0 new a A\n0 new b B\n0 put a.n 5\n0 put b.n 5\n0 put b.r 5\n0 set b.r[2] b\n0 set b.r[1] a\n0 set b.r[1] b\n0 get c b.r\n0 put c.n 1\n0 set b.r c\n0 print b\n0 take b.n\n";
    let text =
        "0 open idle\n0 new 0:1\n0 new 0:2\n0 no field\n0 was 0\n0 wrong kind\n0 no element\n0 wrong class\n0 was none\n0 is none\n0 none\n0 was none\n0 object 0:2 B\n0 is 5\n";
    assert!(rt; writes(&rt, rt.alloc(), script, text, 14));
}

// Each line has a refusal and all those that come after it, and the first is told.
#[test]
fn refusals_in_their_order(rt: HostRuntime) {
    let header =
        "class A Object\nfield A only ref A\nclass B Object\nfield B n int 2\nfield B r ref B 2\nfield B w weak\n0 open\n0 new a A\n0 new b B\n0 get x b.r\n";
    let said = "0 open idle\n0 new 0:1\n0 new 0:2\n0 is none\n";
    let lines =
        "0 set x.only[9] a\n0 set b.only[9] a\n0 set b.n[9] a\n0 set b.w[9] a\n0 set b.r[9] a\n0 set b.r a\n0 get y x.only[9]\n0 get y b.only[9]\n0 get y b.n[9]\n0 get y b.w[9]\n0 get y b.r[2]\n0 put x.only[9] 1\n0 put b.only[9] 1\n0 put b.r[9] 1\n0 put b.w[9] 1\n0 put b.n[2] 1\n0 take x.only[9]\n0 take b.only[9]\n0 take b.r[9]\n0 take b.w[9]\n0 take b.n[2]\n0 print x\n0 root x on\n";
    let replies =
        "0 none\n0 no field\n0 wrong kind\n0 wrong kind\n0 no element\n0 wrong class\n0 none\n0 no field\n0 wrong kind\n0 wrong kind\n0 no element\n0 none\n0 no field\n0 wrong kind\n0 wrong kind\n0 no element\n0 none\n0 no field\n0 wrong kind\n0 wrong kind\n0 no element\n0 none\n0 none\n";
    // A refusal changed nothing.
    let after = "0 get y b.r\n0 get y b.r[1]\n0 take b.n\n0 take b.n[1]\n0 get y a.only\n";
    let is = "0 is none\n0 is none\n0 is 0\n0 is 0\n0 is none\n";
    let mut script = String::from_str(rt.alloc(), header).expect(&rt, "memory");
    script.push_str(lines).expect(&rt, "memory");
    script.push_str(after).expect(&rt, "memory");
    let mut text = String::from_str(rt.alloc(), said).expect(&rt, "memory");
    text.push_str(replies).expect(&rt, "memory");
    text.push_str(is).expect(&rt, "memory");
    assert!(rt; writes(&rt, rt.alloc(), script.as_str(), text.as_str(), 32));
}

#[test]
fn a_refused_get_binds_to_none(rt: HostRuntime) {
    let script =
        "class A Object\nfield A r ref A\nclass B Object\n0 open\n0 new a A\n0 new b B\n0 set a.r a\n0 get c a.r\n0 print c\n0 get c b.r\n0 print c\n0 get c a.r\n0 get c a.r[1]\n0 print c\n0 get c a.r\n0 get c d.r\n";
    // The last line uses a variable that no line binds.
    let fault = Status::Script(level_script::ScriptErr {
        line: 16,
        cause: level_script::Cause::UnknownName,
    });
    assert!(rt; plays(&rt, rt.alloc(), script, 64, fault, "", 0));
    let script =
        "class A Object\nfield A r ref A\nclass B Object\n0 open\n0 new a A\n0 new b B\n0 set a.r a\n0 get c a.r\n0 print c\n0 get c b.r\n0 print c\n0 get c a.r\n0 get c a.r[1]\n0 print c\n0 get c a.r\n0 set a.r none\n0 print c\n0 get c c.r\n0 print c\n";
    let text =
        "0 open idle\n0 new 0:1\n0 new 0:2\n0 was none\n0 is 0:1\n0 object 0:1 A\n0 no field\n0 none\n0 is 0:1\n0 no element\n0 none\n0 is 0:1\n0 was 0:1\n0 object 0:1 A\n0 is none\n0 none\n";
    assert!(rt; writes(&rt, rt.alloc(), script, text, 16));
}

#[test]
fn numbers_of_all_sizes(rt: HostRuntime) {
    let script =
        "class A Object\nfield A n int 3\n0 open\n0 new a A\n0 put a.n 18446744073709551615\n0 put a.n[1] 0007\n0 put a.n[2] 4294967296\n0 take a.n\n0 take a.n[1]\n0 take a.n[2]\n0 put a.n 1\n0 take a.n[0]\n";
    let text =
        "0 open idle\n0 new 0:1\n0 was 0\n0 was 0\n0 was 0\n0 is 18446744073709551615\n0 is 7\n0 is 4294967296\n0 was 18446744073709551615\n0 is 1\n";
    assert!(rt; writes(&rt, rt.alloc(), script, text, 10));
}

// The cells of ancestors are followed, and those of several classes make one cycle.
#[test]
fn references_of_ancestors(rt: HostRuntime) {
    let header =
        "class A Object\nfield A one ref Object\nclass B A\nfield B n int\nclass C B\nfield C two ref A 2\nclass D C\n";
    let mut script = String::from_str(rt.alloc(), header).expect(&rt, "memory");
    script
        .push_str(
            "0 open\n0 new d D\n0 new a A\n0 new o Object\n0 new c C\n0 set d.one o\n0 set d.two[1] a\n0 set d.two[0] o\n0 set d.two c\n0 set a.one d\n0 set c.one a\n0 put d.n 3\n0 put c.n 2\n0 take d.n\n0 root c on\n0 close\ngc full\n0 open\n0 new e Object\n0 close\ngc full\n",
        )
        .expect(&rt, "memory");
    let text =
        "0 open idle\n0 new 0:1\n0 new 0:2\n0 new 0:3\n0 new 0:4\n0 was none\n0 was none\n0 wrong class\n0 was none\n0 was none\n0 was none\n0 was 0\n0 was 0\n0 is 3\n0 was off\n0 close\ngc full removed 0 left 0\n0 open idle\n0 new 0:5\n0 close\ngc full removed 1 left 0: 0:5\n";
    assert!(rt; writes(&rt, rt.alloc(), script.as_str(), text, 21));
}

// As many elements as an object has cells, of references and of numbers.
fn most_elements<R: Threads + Sync>(rt: &R, alloc: Global) -> Option<bool> {
    let mut script = String::from_str(
        alloc,
        "class A Object\nfield A r ref Object 12\nclass N Object\nfield N n int 12\n0 open\n0 new a A\n0 root a on\n0 new n N\n",
    )
    .ok()?;
    let mut text = String::from_str(alloc, "0 open idle\n0 new 0:1\n0 was off\n0 new 0:2\n").ok()?;
    for k in 0..12u32 {
        let made = k + 3;
        let line = format!(in alloc;
            "0 new b Object\n0 set a.r[{k}] b\n0 put n.n[{k}] {made}\n"
        ).ok()?;
        script.push_str(line.as_str()).ok()?;
        let line = format!(in alloc; "0 new 0:{made}\n0 was none\n0 was 0\n").ok()?;
        text.push_str(line.as_str()).ok()?;
    }
    script.push_str("0 set a.r[12] n\n0 put n.n[12] 1\n").ok()?;
    text.push_str("0 no element\n0 no element\n").ok()?;
    for k in 0..12u32 {
        let made = k + 3;
        let line = format!(in alloc; "0 take n.n[{k}]\n0 get b a.r[{k}]\n").ok()?;
        script.push_str(line.as_str()).ok()?;
        let line = format!(in alloc; "0 is {made}\n0 is 0:{made}\n").ok()?;
        text.push_str(line.as_str()).ok()?;
    }
    script.push_str("0 close\ngc full\n").ok()?;
    text.push_str("0 close\ngc full removed 1 left 0: 0:2\n")
        .ok()?;
    Some(writes(rt, alloc, script.as_str(), text.as_str(), 68))
}

#[test]
fn an_object_of_references_alone(rt: HostRuntime) {
    assert!(rt; most_elements(&rt, rt.alloc()) == Some(true));
}

// A chain of 8,000 objects from the first on; with a strong pointer to its first object, or with none.
fn chain<R: Threads + Sync>(rt: &R, alloc: Global, held: bool) -> Option<bool> {
    let mut script = String::from_str(
        alloc,
        "class A Object\nfield A next ref A\n0 open\n0 new n0 A\n",
    )
    .ok()?;
    let mut text = String::from_str(alloc, "0 open idle\n0 new 0:1\n").ok()?;
    if held {
        script.push_str("0 hold 0 n0\n").ok()?;
        text.push_str("0 was none\n").ok()?;
    }
    for j in 0..7999u32 {
        let k = j + 1;
        let made = j + 2;
        let line = format!(in alloc; "0 new n{k} A\n0 set n{j}.next n{k}\n").ok()?;
        script.push_str(line.as_str()).ok()?;
        let line = format!(in alloc; "0 new 0:{made}\n0 was none\n").ok()?;
        text.push_str(line.as_str()).ok()?;
    }
    script.push_str("0 close\ngc full\n").ok()?;
    if held {
        text.push_str("0 close\ngc full removed 0 left 0\n").ok()?;
    } else {
        text.push_str("0 close\ngc full removed 8000 left 0:").ok()?;
        for j in 0..8000u32 {
            let count = j + 1;
            let name = format!(in alloc; " 0:{count}").ok()?;
            text.push_str(name.as_str()).ok()?;
        }
        text.push_str("\n").ok()?;
    }
    let lines = if held { 16003 } else { 16002 };
    Some(writes(rt, alloc, script.as_str(), text.as_str(), lines))
}

#[test]
fn a_chain_of_8000_objects(rt: HostRuntime) {
    assert!(rt; chain(&rt, rt.alloc(), true) == Some(true));
    assert!(rt; chain(&rt, rt.alloc(), false) == Some(true));
}
