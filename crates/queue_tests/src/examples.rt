//! Sites come out by cost, of equal costs the lower first.
use crate::draining::drain;
use costs::{Cost, Length, Lengths};
use queue::{Entry, NoRoom, Queue};
use std::test::Fail;

fn long(metres: u32) -> Length {
    Length::of_link(Lengths { metres, poles: 0 })
}

#[test]
fn the_least_comes_first(rt: HostRuntime) -> Result<(), Fail> {
    let mut table = [Entry {
        cost: Length::zero(),
        site: 0,
    }; 5];
    let mut sites = [9; 5];
    let mut queue = Queue::new(&mut table);
    queue.offer(3, long(40))?;
    queue.offer(4, long(25))?;
    queue.offer(1, long(25))?;
    queue.offer(0, long(30))?;
    queue.offer(3, long(10))?;
    let written = drain(&mut queue, &mut sites);
    assert_eq!(rt; written, 4);
    assert_eq!(rt; sites, [3, 1, 4, 0, 9]);
    Ok(())
}

#[test]
fn a_table_has_room_for_its_own_sites(rt: HostRuntime) -> Result<(), Fail> {
    let mut table = [Entry {
        cost: Length::zero(),
        site: 0,
    }; 2];
    let mut queue = Queue::new(&mut table);
    assert!(rt; queue.is_empty());
    assert_eq!(rt; queue.offer(2, long(1)), Err(NoRoom));
    queue.offer(1, long(7))?;
    queue.offer(0, long(6))?;
    assert_eq!(rt; queue.len(), 2);
    queue.offer(0, long(8))?;
    let Some(first) = queue.take_least() else {
        return Err(Fail::new("there are two"));
    };
    assert_eq!(rt; first.site, 1);
    assert_eq!(rt; first.cost.metres(), 7);
    Ok(())
}
