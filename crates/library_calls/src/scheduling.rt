//! Sets, event notices and scheduling with ample memory, for more than 65,536 objects, so that no smaller limit is met.
ghost use Rattle.std.specs.Prelude.{◌<◌};

use notice_tree::NoticeTree;
use notices::{NoticeSet, NoticeVec, ProcessNo};
use simset::Rings;
use simulation::Sim;
use std::test::Fail;

/// How many objects there are.
const MANY: usize = 70_000;

/// Makes as many links as there is room for, up to `count`, and answers how many there are.
fn links_made(rings: &mut Rings, count: usize) -> usize {
    for _ in 0..count {
        if rings.has_room() {
            rings.add_link();
        }
    }
    rings.len()
}

#[test]
fn links_of_many_objects(rt: HostRuntime) -> Result<(), Fail> {
    let mut rings = Rings::new(rt.alloc());
    rings.reserve(MANY)?;
    assert_eq!(rt; links_made(&mut rings, MANY), MANY);
    Ok(())
}

#[test]
fn notices_of_many_processes(rt: HostRuntime) -> Result<(), Fail> {
    let mut set = NoticeVec::new(rt.alloc());
    set.reserve(MANY)?;
    set.put_at(1, false, ProcessNo(69_999));
    set.put_at(0, false, ProcessNo(65_536));
    assert_eq!(rt; set.first(), Some((0, ProcessNo(65_536))));
    assert_eq!(rt; set.next(ProcessNo(65_536)), Some(ProcessNo(69_999)));
    Ok(())
}

#[test]
fn a_tree_of_notices_of_many_processes(rt: HostRuntime) -> Result<(), Fail> {
    let mut set = NoticeTree::new(rt.alloc());
    set.reserve(MANY)?;
    set.put_at(2, false, ProcessNo(69_999));
    set.put_at(1, false, ProcessNo(69_998));
    set.put_at(0, false, ProcessNo(65_536));
    assert_eq!(rt; set.height(), 2);
    assert_eq!(rt; set.first(), Some((0, ProcessNo(65_536))));
    assert_eq!(rt; set.next(ProcessNo(69_998)), Some(ProcessNo(69_999)));
    Ok(())
}

#[test]
fn a_simulation_of_many_processes(rt: HostRuntime) -> Result<(), Fail> {
    let mut set = NoticeVec::new(rt.alloc());
    set.reserve(1)?;
    let mut sim = Sim::new(set);
    sim.reserve(MANY)?;
    assert_eq!(rt; sim.current(), ProcessNo(0));
    Ok(())
}
