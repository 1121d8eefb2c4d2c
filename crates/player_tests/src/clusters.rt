//! Whole runs of scripts with clusters, with the texts that the language gives them.

use crate::rows::{Row, is_told, is_written};
use crate::runs::plays;
use std::alloc::Global;
use std::thread::Threads;
use world_play::Status;

const ROWS: [Row; 6] = [
    // a cluster lives by one of its members, and is removed whole
    Row {
        words: "play",
        script: "class A Object / 0 open / 0 cluster a:A b:A c:A / 0 root c on / 0 weak w c / 0 close / gc full / 0 open / 0 resolve c w / 0 root c off / 0 close / gc full",
        text: "0 open idle / 0 cluster 0:1 3 / 0 was off / 0 weak 0:3 / 0 close / gc full removed 0 left 0 / 0 open idle / 0 is 0:3 / 0 was on / 0 close / gc full removed 3 left 0: 0:1 0:2 0:3",
    },
    // quotas: what is full is told exactly, with the indexes that came back
    Row {
        words: "play --shape small",
        script: "class A Object / 0 open / 0 new h A / 0 hold 0 h / 0 new a A / 0 new a A / 0 new a A / 0 new a A / 0 new a A / 0 new a A / 0 new a A / 0 new a A / 0 close / gc full / 0 open / 0 new a A / 0 new a A / 0 new a A / 0 new a A / 0 new a A / 0 cluster x:A y:A z:A",
        text: "0 open idle / 0 new 0:1 / 0 was none / 0 new 0:2 / 0 new 0:3 / 0 new 0:4 / 0 new 0:5 / 0 new 0:6 / 0 new 0:7 / 0 new 0:8 / 0 full 0 / 0 close / gc full removed 7 left 0: 0:2 0:3 0:4 0:5 0:6 0:7 0:8 / 0 open idle / 0 new 0:9 / 0 new 0:10 / 0 new 0:11 / 0 new 0:12 / 0 new 0:13 / 0 full 2",
    },
    // a refused cluster binds its variables to none, and takes no name
    Row {
        words: "play --shape small",
        script: "class A Object / 0 open / 0 cluster a:A b:A c:A d:A e:A / 0 cluster a:A b:A c:A d:A / 0 print a / 0 print d / 0 print e / 0 cluster a:A b:A c:A / 0 print c / 0 new a A",
        text: "0 open idle / 0 cluster 0:1 5 / 0 full 3 / 0 none / 0 none / 0 object 0:5 A / 0 cluster 0:6 3 / 0 object 0:8 A / 0 full 0",
    },
    // a quota is filled by clusters, freed, and filled again
    Row {
        words: "play --shape small",
        script: "class A Object / 1 open / 1 cluster a:A b:A c:A d:A / 1 cluster e:A f:A g:A h:A / 1 hold 0 f / 1 close / gc full / 1 open / 1 cluster a:A b:A c:A d:A / 1 new i A / 1 hold 0 none / 1 close / gc full / 1 open / 1 cluster a:A b:A c:A d:A e:A f:A g:A h:A / 1 new i A",
        text: "1 open idle / 1 cluster 1:1 4 / 1 cluster 1:5 4 / 1 was none / 1 close / gc full removed 4 left 0: 1:1 1:2 1:3 1:4 / 1 open idle / 1 cluster 1:9 4 / 1 full 0 / 1 was 1:6 / 1 close / gc full removed 8 left 0: 1:5 1:6 1:7 1:8 1:9 1:10 1:11 1:12 / 1 open idle / 1 cluster 1:13 8 / 1 full 0",
    },
    // members of several classes; the last one has the reference that keeps another cluster
    Row {
        words: "play",
        script: "class Node Object / field Node next ref Object / class Leaf Node / field Leaf n int / 0 open / 0 cluster a:Leaf b:Node c:Leaf / 0 cluster d:Node e:Leaf / 0 put c.n 7 / 0 set c.next e / 0 root b on / 0 cluster f:Node g:Node / 0 set g.next a / 0 close / gc full / 0 open / 0 new x Node / 0 close / gc full",
        text: "0 open idle / 0 cluster 0:1 3 / 0 cluster 0:4 2 / 0 was 0 / 0 was none / 0 was off / 0 cluster 0:6 2 / 0 was none / 0 close / gc full removed 2 left 0: 0:6 0:7 / 0 open idle / 0 new 0:8 / 0 close / gc full removed 1 left 0: 0:8",
    },
    // clusters that refer to one another by their last members, and a cycle of them that no root reaches
    Row {
        words: "play",
        script: "class A Object / field A next ref A / 0 open / 0 cluster a:A b:A / 0 cluster c:A d:A e:A / 0 cluster f:A g:A / 0 set b.next d / 0 set e.next g / 0 set g.next a / 0 hold 2 d / 0 close / gc full / 0 open / 0 held d 2 / 0 hold 2 none / 0 close / gc full",
        text: "0 open idle / 0 cluster 0:1 2 / 0 cluster 0:3 3 / 0 cluster 0:6 2 / 0 was none / 0 was none / 0 was none / 0 was none / 0 close / gc full removed 0 left 0 / 0 open idle / 0 is 0:4 / 0 was 0:4 / 0 close / gc full removed 7 left 0: 0:1 0:2 0:3 0:4 0:5 0:6 0:7",
    },
];

#[test]
fn clusters(rt: HostRuntime) {
    for row in ROWS {
        assert_eq!(rt; is_written(&rt, rt.alloc(), row), Some(true));
    }
}

// A cluster of so many members, whose last one is rooted, and then is not.
fn of_size<R: Threads + Sync>(rt: &R, alloc: Global, count: u32) -> Option<bool> {
    let mut script = String::from_str(alloc, "class A Object\n0 open\n0 cluster").ok()?;
    let mut names = String::new(alloc);
    for k in 0..count {
        let member = format!(in alloc; " v{k}:A").ok()?;
        script.push_str(member.as_str()).ok()?;
        let made = k.saturating_add(1);
        let name = format!(in alloc; " 0:{made}").ok()?;
        names.push_str(name.as_str()).ok()?;
    }
    let last = count.saturating_sub(1);
    let line = format!(in alloc;
        "\n0 root v{last} on\n0 close\ngc full\n0 open\n0 new h A\n0 close\n"
    ).ok()?;
    script.push_str(line.as_str()).ok()?;
    let next = count.saturating_add(1);
    let text = format!(in alloc;
        "0 open idle\n0 cluster 0:1 {count}\n0 was off\n0 close\ngc full removed 0 left 0\n0 open idle\n0 new 0:{next}\n0 close\n"
    ).ok()?;
    if !plays(
        rt,
        alloc,
        script.as_str(),
        4096,
        Status::Ok,
        text.as_str(),
        8,
    ) {
        return Some(false);
    }
    let mut script = String::from_str(alloc, "class A Object\n0 open\n0 cluster").ok()?;
    for k in 0..count {
        let member = format!(in alloc; " v{k}:A").ok()?;
        script.push_str(member.as_str()).ok()?;
    }
    script.push_str("\n0 close\ngc full\n").ok()?;
    let text = format!(in alloc;
        "0 open idle\n0 cluster 0:1 {count}\n0 close\ngc full removed {count} left 0:{names}\n"
    ).ok()?;
    Some(plays(
        rt,
        alloc,
        script.as_str(),
        4096,
        Status::Ok,
        text.as_str(),
        4,
    ))
}

#[test]
fn clusters_of_all_sizes(rt: HostRuntime) {
    for count in [1u32, 2, 1023, 1024] {
        assert_eq!(rt; of_size(&rt, rt.alloc(), count), Some(true));
    }
}

/// A script that grows, and the text that it is to write.
#[derive(Drop)]
struct Told {
    script: String,
    text: String,
}

impl Told {
    // Adds lines of the script, and the lines that they are to write.
    fn add(&mut self, lines: &str, replies: &str) -> Option<()> {
        self.script.push_str(lines).ok()?;
        self.text.push_str(replies).ok()?;
        Some(())
    }

    // Adds a collection that removes the objects of a lane from one count to another.
    fn collect(&mut self, alloc: Global, lane: u32, from: u32, to: u32) -> Option<()> {
        let removed = to.saturating_sub(from).saturating_add(1);
        let line = format!(in alloc; "gc full removed {removed} left 0:").ok()?;
        self.add("gc full\n", line.as_str())?;
        for count in from..to.saturating_add(1) {
            let name = format!(in alloc; " {lane}:{count}").ok()?;
            self.text.push_str(name.as_str()).ok()?;
        }
        self.text.push_str("\n").ok()
    }
}

// Lane 0 makes a map and a chain of 2,000 pawns behind it, with weak pointers to three of them.
fn add_pawns(alloc: Global, told: &mut Told) -> Option<()> {
    told.add(
        "0 open\n0 new m Map\n0 hold 0 m\n0 new x1 Pawn\n",
        "0 open idle\n0 new 0:1\n0 was none\n0 new 0:2\n",
    )?;
    for j in 1..2000u32 {
        let k = j.saturating_add(1);
        let made = j.saturating_add(2);
        let lines = format!(in alloc; "0 new x{k} Pawn\n0 set x{k}.next x{j}\n").ok()?;
        let replies = format!(in alloc; "0 new 0:{made}\n0 was none\n").ok()?;
        told.add(lines.as_str(), replies.as_str())?;
    }
    told.add(
        "0 set m.first x2000\n0 weak w1 x401\n0 weak w2 x801\n0 weak w3 x1201\n0 close\n",
        "0 was none\n0 weak 0:402\n0 weak 0:802\n0 weak 0:1202\n0 close\n",
    )
}

// Lane 1 makes twelve clusters of eight actors, and holds the first member of each.
fn add_clusters(alloc: Global, told: &mut Told) -> Option<()> {
    told.add("1 open\n", "1 open idle\n")?;
    for j in 0..12u32 {
        let first = j.saturating_mul(8).saturating_add(1);
        let lines = format!(in alloc;
            "1 cluster c0:Actor c1:Actor c2:Actor c3:Actor c4:Actor c5:Actor c6:Actor c7:Actor\n1 hold {j} c0\n"
        ).ok()?;
        let replies = format!(in alloc; "1 cluster 1:{first} 8\n1 was none\n").ok()?;
        told.add(lines.as_str(), replies.as_str())?;
    }
    told.add("1 close\ngc full\n", "1 close\ngc full removed 0 left 0\n")
}

// A level: the chain is cut at three places, each found by its weak pointer, and four clusters are let go.
fn level<R: Threads + Sync>(rt: &R, alloc: Global) -> Option<bool> {
    let mut told = Told {
        script: String::new(alloc),
        text: String::new(alloc),
    };
    told.add(
        "class Actor Object\nfield Actor next ref Actor\nfield Actor hp int\nclass Pawn Actor\nfield Pawn target weak\nclass Map Object\nfield Map first ref Actor\n",
        "",
    )?;
    add_pawns(alloc, &mut told)?;
    add_clusters(alloc, &mut told)?;
    for i in 1..4u32 {
        let last = i.saturating_mul(400).saturating_add(1);
        let found = last.saturating_add(1);
        let first = last.saturating_sub(399);
        let lines = format!(in alloc;
            "0 open\n0 resolve x w{i}\n0 set x.next none\n0 close\n"
        ).ok()?;
        let replies = format!(in alloc;
            "0 open idle\n0 is 0:{found}\n0 was 0:{last}\n0 close\n"
        ).ok()?;
        told.add(lines.as_str(), replies.as_str())?;
        told.collect(alloc, 0, first, last)?;
    }
    told.add(
        "1 open\n1 hold 0 none\n1 hold 1 none\n1 hold 2 none\n1 hold 3 none\n1 close\n",
        "1 open idle\n1 was 1:1\n1 was 1:9\n1 was 1:17\n1 was 1:25\n1 close\n",
    )?;
    told.collect(alloc, 1, 1, 32)?;
    is_told(
        rt,
        alloc,
        "play --markers 4 --slice 64",
        told.script.as_str(),
        told.text.as_str(),
    )
}

#[test]
fn a_level_of_pawns_and_clusters(rt: HostRuntime) {
    assert_eq!(rt; level(&rt, rt.alloc()), Some(true));
}
