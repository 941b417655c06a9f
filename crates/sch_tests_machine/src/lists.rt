//! Lists.

use sch_asm::{Item, ItemList};
use sch_word::{List, Mem};
use std::alloc::Global;
use std::test::Fail;

// Puts three bytes behind a list, each in another way.
fn extend(alloc: Global, list: &mut List<u8>) -> Result<(), Mem> {
    list.push(3)?;
    list.extend_from_slice(&[4])?;
    list.append(List::from_slice(alloc, &[5])?)
}

#[test]
fn grows(rt: HostRuntime) -> Result<(), Fail> {
    let mut list = List::from_slice(rt.alloc(), &[1u8, 2])?;
    extend(rt.alloc(), &mut list)?;
    assert!(rt; list.as_slice() == [1, 2, 3, 4, 5].as_slice());
    Ok(())
}

// A list of so many labels.
fn labels(alloc: Global, count: u32) -> Result<ItemList, Mem> {
    let mut items = ItemList::new(alloc);
    for label in 0..count {
        items.push(Item::Label(label))?;
    }
    Ok(items)
}

// The last part of three has all of what came at once, for which the second one had too little room.
#[test]
fn items_are_kept_in_parts(rt: HostRuntime) -> Result<(), Fail> {
    let mut items = labels(rt.alloc(), 5000)?;
    items.extend_from_slice(&[Item::Label(0); 3200])?;
    let (earlier, last) = items.parts();
    assert!(rt; earlier.len() == 2);
    assert!(rt; last.len() == 3200);
    assert!(rt; items.len() == 8200);
    Ok(())
}
